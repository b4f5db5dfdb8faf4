//! Least routes: the first walk in the route order from a vertex to the targets of a search, and its steps.
//!
//! A [`Route`] is a list of links, each from where the one before it ended. [`least_route`] finds one from
//! the labels of a search, and [`steps`] writes one as a table shows it.
//! Proved: `least_route` gives the walk that precedes every other walk from its vertex to a target, and none
//! exactly where no walk leads to one (clauses `least` and `none`). Not proved: time.
#![tactic(auto)]

mod growth;
mod least;
mod route;
mod step;

pub use least::least_route;
pub use route::Route;
pub use step::{Step, steps};

#[cfg(test)]
mod tests;
