//! Blocks, articulation points and bridges of edges without directions, exact by separation.
//!
//! A [`Span`] is an edge between two vertices. [`blocks`] gives three lists: each span with the name of its
//! block, as [`Classed`], the articulation points, and the bridges.
//! Proved: each of the three lists holds exactly what its own definition says, by separation, and rises
//! (clauses `classes`, `points`, `bridges`); two spans have one component exactly where they are in one block
//! (`spans_of_one_block_have_one_name`). Not proved: time.
#![tactic(auto)]

mod answer;
mod arrow;
mod classed;
mod laws;
mod low_points;
mod member;
mod network;
mod results;
mod search;
mod seen;
mod segment;
mod span;
mod tops;

pub use answer::{BlockLists, blocks};
pub use classed::Classed;
pub use laws::{ends_are_few, spans_of_one_block_have_one_name};
pub use span::Span;

#[cfg(test)]
mod tests;
