//! The loopless routes between two vertices, one after another in the route order.
//!
//! [`Paths`] begins with a graph and two vertices, and each call of [`Paths::next`] gives the next route: the least
//! that was not given yet, and none where all were given.
//! Proved: what a call gives is the least of the loopless routes that are left (clause `least`), none comes exactly
//! where none is left (`none`), so that K calls give the first K of all loopless routes (the law
//! `calls_give_the_first_routes`), and nothing changes where memory is wanting (`unchanged`). Not proved: time.
#![tactic(auto)]

mod class;
mod from_start;
mod laws;
mod paths;
mod split;
#[cfg(test)]
mod tests;

pub use laws::{calls_give_the_first_routes, given_routes_are_first};
pub use paths::Paths;
