//! Restrictions: sequences of edges that no walk may take one right after another, and the least walk that obeys them.
//!
//! [`Turns`] keeps restrictions with all their fronts, their first ids, each once, and of each front the longest shorter
//! one that it ends with: so the longest front that the last edges of a walk are is found edge by edge.
//! [`TurnGraph`] is a graph of states, each a vertex with such a front; its links are those of the graph beneath that
//! complete no restriction. [`allowed_route`] is the least walk that obeys all restrictions; [`search_allowed`] and
//! [`allowed_route_from`] find those of many starts by one search. [`edges_with_two_ends_have_few_states`] bounds the states.
#![tactic(auto)]

mod allowed;
mod automaton;
mod collecting;
mod growth;
mod laws;
mod moving;
mod state;
mod trie;
mod turn_graph;
mod turns;

pub use allowed::{allowed_route, allowed_route_from, search_allowed};
pub use laws::edges_with_two_ends_have_few_states;
pub use turn_graph::TurnGraph;
pub use turns::Turns;

#[cfg(test)]
mod tests;
