//! Least labels: for each vertex the least cost, and then the fewest links, over all walks from it to a target.
//!
//! [`Room`] takes all memory of a search at once and may be used for many, [`labels_to`] fills it over any
//! graph that fits, [`labels_until`] does so up to a [`Bound`], and [`Room::label`] reads it.
//! Proved: a vertex has a label exactly where a walk leads from it to a target, and its label is that of
//! such a walk and at most that of every other. Up to a bound each label is the least of its vertex too, no
//! label that is left out is less than one that is held, the wanted vertices have theirs, and within a limit
//! stand exactly the vertices of no greater cost. [`labels_guided`] searches by cost and a consistent [`Estimate`]
//! until a start has its least label, by the same lemma. [`least_tight_link`] gives the first link of a least
//! walk. Not proved: time.
#![tactic(auto)]

mod bound;
mod estimate;
mod guided;
mod guiding;
mod heap;
mod laws;
mod relaxing;
mod room;
mod search;
mod settled;
#[cfg(test)]
mod three_vertices;
mod tight;

pub use bound::Bound;
pub use estimate::Estimate;
pub use guided::{GuidedRoom, labels_guided};
pub use laws::least_walks_follow_tight_links;
pub use room::Room;
pub use search::{labels_to, labels_until};
pub use tight::least_tight_link;
