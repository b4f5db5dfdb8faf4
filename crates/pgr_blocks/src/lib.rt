//! The spans of a table of edges, and their blocks, articulation points and bridges.
//!
//! [`spans_of`] lists the rows of a table that have a direction, as edges without one; what is said of spans and found for
//! them is that of `pgr_spans`, whose types, calls, laws and definitions this crate passes on.
//! Proved: the list has exactly the rows with a direction, each once, rising by edge, and meets what [`blocks`] asks for
//! (clauses `spans`, `ends`). Not proved: time.
#![tactic(auto)]

mod spans;

pub use pgr_spans::{
    BlockLists, Classed, Span, blocks, ends_are_few, spans_of_one_block_have_one_name,
};
pub use spans::spans_of;
