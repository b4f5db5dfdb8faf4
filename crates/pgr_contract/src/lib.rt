//! Contraction that keeps every distance: dead ends and vertices between two others go, and shortcuts take their place.
//!
//! [`contract`] takes links between vertex ids and gives what is [`Contracted`]: the vertices that are left, each a [`Kept`]
//! with what it holds, the [`Shortcut`]s, and the links.
//! Proved: it is the end of the run of phases, in each of which the least vertex that qualifies and isn't forbidden goes
//! until there is none (`run`); between any two vertices that are left the least cost over its links is that over the links
//! it was given, and a walk leads over the one exactly where one leads over the other (`distances`), also over what rows say
//! of it (`printed`); a vertex is left exactly where nothing that is left holds it (`held`); its links fit (`fits`).
//! Not proved: time.
#![tactic(auto)]

mod candidates;
mod contracted;
mod contraction;
mod event;
mod found;
mod held;
mod laws;
mod rests;
mod running;
mod shown;
#[cfg(test)]
mod tests;
mod ways;

pub use contracted::{Contracted, Kept, Shortcut};
pub use contraction::contract;
pub use laws::{runs_fit, runs_keep_distances, runs_leave_what_nothing_holds};
