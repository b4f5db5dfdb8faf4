//! A search guided by where vertices lie: estimates of what a walk from a start costs, checked before they are trusted.
//!
//! [`Potential::make`] gives each vertex the estimate of a heuristic and a factor by its coordinates,
//! [`first_inconsistent`] finds the first link of a graph that breaks an estimate, and [`astar_route`] the least walk
//! between two vertices by a search that a consistent estimate guides.
//! Proved: the estimates are exactly those of the heuristic (`make`, clause `estimates`); a link is found exactly where one
//! breaks the estimate, and is the first of all (`first`, `none`); the route precedes every other walk between its ends,
//! whatever the estimate, and there is none exactly where no walk leads there (`least`, `none`). Not proved: time.
#![tactic(auto)]

mod astar;
mod consistency;
mod point;
mod points;
mod potential;
#[cfg(test)]
mod tests;

pub use astar::{AstarRoom, astar_route};
pub use consistency::first_inconsistent;
pub use potential::Potential;
