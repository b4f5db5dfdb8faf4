//! Points on edges: the links of a table of edges, replaced by their parts between points along them.
//!
//! [`with_points`] lists the pointed links of a table of edges and a table of points, in which a point is the vertex of
//! its id with a minus sign; [`collapse`] takes the inner points out of the rows of a walk.
//! Proved: the list has exactly the pointed links, each once, in order (`with_points`); every pointed link and every
//! loopless route over them costs at most 2^63 - 1 (`pointed_links_fit`), their ends are few enough to be numbered
//! (`pointed_ends_are_few`), each link sees one list of points (`points_are_seen_in_one_order`) and its parts cost together what it does
//! (`parts_add_up`); `collapse` leaves exactly the rows that stay. Not proved: time.
#![tactic(auto)]

mod collapsing;
mod laws;
mod places;
mod pointed;
mod sight;
mod stop;
#[cfg(test)]
mod tests;

pub use collapsing::collapse;
pub use laws::{
    parts_add_up, pointed_ends_are_few, pointed_links_fit, points_are_seen_in_one_order,
};
pub use pointed::with_points;
