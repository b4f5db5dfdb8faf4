//! Greatest flows and least cuts, as Ford and Fulkerson 1956.
//!
//! A [`Net`] is a number of vertices and arcs between them. [`greatest_flow`] gives a flow from sources to sinks and a
//! cut, as [`FlowCut`].
//! Proved: the flows are a flow (`flow`) of the value (`value`), no flow has a greater one (`greatest`), the side is a
//! cut of that capacity (`capacity`) and a subset of every other least cut (`side`); no flow exceeds a cut, over any
//! network ([`no_flow_exceeds_a_cut`]). Not proved: time.
#![tactic(auto)]

mod augmenting;
mod descent;
mod greatest;
mod incidence;
mod laws;
mod levels;
mod net;
mod residual;
mod sending;
#[cfg(test)]
mod tests;

pub use greatest::{FlowCut, greatest_flow};
pub use laws::no_flow_exceeds_a_cut;
pub use net::Net;
