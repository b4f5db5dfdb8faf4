//! Driving distance: the vertices whose least cost from a root is within a limit.
//!
//! [`within`] gives a [`Reach`], the root with a [`Reached`] row for each such vertex, over any
//! [`Graph`](pgr_walks::Graph) that fits; [`equicost`] leaves each vertex under its closest root alone.
//! Proved: the rows are exactly the vertices whose least cost over all walks from the root is at most the limit, by
//! rising cost and then number, each with its least label and its tree link (`within`); exactly the rows stay that no
//! other root is closer to (`kept`), and all of them where memory is wanting (`unchanged`). Not proved: time.
#![tactic(auto)]

mod closest;
mod limited;
mod reach;
#[cfg(test)]
mod tests;

pub use closest::equicost;
pub use limited::within;
pub use reach::{Reach, Reached, ReachedOf};
