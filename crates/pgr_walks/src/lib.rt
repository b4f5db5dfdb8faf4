//! Walks over links: what a link, a walk, its cost and the order of routes are, and graphs that show their links.
//!
//! [`LinkOf`] is one direction of an edge, [`Label`] the cost and hops of a walk. A [`Graph`] shows the
//! links out of a vertex and into it to a [`LinkVisitor`], which may stop it; [`ListGraph`] is the plainest, and
//! [`RowGraph`] finds a vertex's links at once. [`Reversed`] is a graph with every link turned round, [`Without`]
//! one without some links; neither takes memory.
//! Proved: each graph keeps the laws of the trait, and shows a vertex's links in order up to the first stop; the
//! walks of a view are those of its graph, read backwards or of links that are left, and it fits where its graph does.
//! Not proved: time.
#![tactic(auto)]

mod adjacency;
mod chains;
mod distributing;
mod ends;
mod graph;
mod label;
mod laws;
mod link;
mod list_graph;
mod parts;
mod reversed;
mod row_graph;
mod showing;
mod side;
#[cfg(test)]
mod tests;
mod visitor;
mod without;

pub use adjacency::Adjacency;
pub use ends::{append_heads, append_tails};
pub use graph::Graph;
pub use label::Label;
pub use laws::{
    backward_walks_cost_the_same, closed_sets_have_a_least_walk, every_walk_can_be_loopless,
    least_labels_are_small, loopless_walks_are_short, one_walk_between_ends_is_least,
    one_walk_of_a_set_is_least, one_walk_precedes_another, one_walk_to_targets_is_least,
    small_costs_fit, targets_have_labels_of_zero,
};
pub use link::{Link, LinkOf, NamedLink};
pub use list_graph::ListGraph;
pub use reversed::Reversed;
pub use row_graph::RowGraph;
pub use showing::show;
pub use visitor::{LinkVisitor, Next};
pub use without::Without;
