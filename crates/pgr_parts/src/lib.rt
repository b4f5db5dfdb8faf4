//! Connected and strongly connected components, each named by its least vertex.
//!
//! [`connected`] takes links both ways, [`strong`] asks for a walk each way. Both work over any graph.
//! Proved: each vertex is given the least vertex of its class, so two vertices have the same name exactly
//! where they are in one class; classes are defined by walks. Not proved: time.
#![tactic(auto)]

mod grouping;
mod laws;
mod lead;
mod search;
mod spreading;
mod standing;
#[cfg(test)]
mod tests;

pub use grouping::strong;
pub use laws::{
    connected_vertices_have_one_name, links_that_lead_back_connect_by_walks,
    strongly_connected_vertices_have_one_name,
};
pub use spreading::connected;
