//! From a command and a store of files to rows: which pairs of vertices can be answered, and with what.
//!
//! [`answer`] reads the files that a [`Command`](pgr_words::Command) names, each by its [`Role`], and returns the
//! [`Answered`] rows and notes, or the first cause why there are none, a [`Refused`].
//! Proved: where there are rows, every file has a content, the known one where it is known, that is an accepted table, these
//! tables are accepted together, the rows are allowed for the command over them, and the notes are exactly those of the
//! command over them (`allowed`).
//! Every refusal but out of memory has its cause: a count of faults that rose, or a content of the file that is refused so,
//! behind files whose contents are accepted; or all are, and the restrictions take the sum of the costs too far
//! (`refused`). Where known contents are refused, that is the answer, unless memory ran out or a read failed (`first`), and
//! where all are known and accepted there are rows, with the same two exceptions (`completes`). Laws: one table at most is
//! allowed, but for the function that shows any greatest flow, and one list of notes, and one of each at most answers a
//! command where all contents are known; the least walk has the least cost. Not proved: time, and that memory suffices.
#![tactic(auto)]

mod answered;
mod answering;
mod articulation_points;
mod asked_starts;
mod astar;
mod biconnected_components;
mod bridges;
mod components;
mod contraction;
mod cost_rows;
mod costs;
mod dijkstra;
mod dijkstra_cost;
mod dijkstra_cost_matrix;
mod driving_distance;
mod edge_network;
mod edmonds_karp;
mod flow_network;
mod found;
mod guided;
mod kept;
mod ksp;
mod ksp_rows;
mod laws;
mod link_network;
mod max_flow;
mod min_cut;
mod network;
mod pair;
mod pairs;
mod path_rows;
mod point_rows;
mod pointed_network;
mod reach_rows;
mod reading;
mod refused;
mod role;
mod tables;
#[cfg(test)]
mod tests;
mod trsp;
mod with_points;

pub use answered::{Answered, Note};
pub use answering::answer;
pub use laws::{one_table_is_allowed, the_least_walk_has_the_least_cost};
pub use refused::Refused;
pub use role::Role;
