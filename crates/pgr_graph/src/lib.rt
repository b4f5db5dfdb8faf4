//! The links of a table, and the arcs of a table of capacities.
//!
//! [`links_of`] lists the links of an edge table between vertex ids, in the directed graph or the undirected one, and
//! [`links_by_row`] lists them row by row, with no sort; [`LinksByRow`] gives them one at a time, with no list. Walks over links,
//! graphs and visitors are those of `pgr_walks`, whose types, laws and definitions this crate passes on.
//! [`restricted_sum`] judges restrictions by what all links cost. [`arcs_of`] lists the arcs of a table of capacities, which
//! are links whose cost is their capacity.
//! Proved: the list has exactly the links of the table, each once (`links_by_row`), and in order (`links_of`), and they are given
//! without a list too (`LinksByRow::of`); every link and every loopless route of a table costs at most 2^63 - 1 (`links_fit`);
//! what all links cost is one number, however they are listed (`links_have_one_cost`); the list has exactly the arcs of the
//! table, each once, in order (`arcs_of`); they make a flow network (`arcs_make_a_network`), also between the numbers of their
//! ids (`numbered_arcs_make_a_network`). Not proved: time.
#![tactic(auto)]

mod arcs;
mod by_row;
mod laws;
mod links;
mod restricted;

pub use arcs::arcs_of;
pub use by_row::LinksByRow;
pub use laws::{arcs_make_a_network, links_fit, links_have_one_cost, numbered_arcs_make_a_network};
pub use links::{Direction, links_by_row, links_of};
pub use pgr_walks::{
    Adjacency, Graph, Label, Link, LinkOf, LinkVisitor, ListGraph, NamedLink, Next, Reversed,
    RowGraph, Without, append_heads, append_tails, backward_walks_cost_the_same,
    closed_sets_have_a_least_walk, every_walk_can_be_loopless, least_labels_are_small,
    loopless_walks_are_short, one_walk_between_ends_is_least, one_walk_of_a_set_is_least,
    one_walk_precedes_another, one_walk_to_targets_is_least, show, small_costs_fit,
    targets_have_labels_of_zero,
};
pub use restricted::restricted_sum;
