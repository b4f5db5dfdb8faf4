//! Numbers are a rising one-to-one numbering of vertex ids, from 0.
//!
//! [`Names`] holds the distinct ends of some links, rising: the number of an id is its place there. Of links
//! between ids [`Names::numbered`] makes the same links between numbers. The links are a list, or a [`LinkSource`], which gives
//! them one at a time (`of_source`, `numbered_source`). Where the ids are small, a list by id has the numbers, so that they are
//! neither sorted nor searched.
//! Proved: the names are exactly the ends, each once (`of`, clause `ends`), an id has a number exactly where
//! it is a name (`number`, clause `held`), and numbering turns both ends of each link and nothing else
//! (`numbered`). What numbering keeps is said by laws, functions that do nothing and whose contract is the
//! law: of lists of links the route order, costs and hops, and walks; of a graph whose links are exactly the numbered ones
//! its labels; of both that links fit, and the least walk. Not proved: time.
#![tactic(auto)]

mod ends;
mod graph_laws;
mod laws;
mod link_source;
mod names;

pub use graph_laws::{
    graph_of_numbered_links_fits, labels_of_graph_are_labels_by_ids,
    least_walk_of_graph_is_least_by_ids,
};
pub use laws::{
    costs_and_hops_are_kept, least_walk_by_numbers_is_least_by_ids, names_are_few,
    names_of_source_are_few, numbered_links_fit, numbers_rise_with_ids, route_order_is_kept,
    walks_correspond,
};
pub use link_source::{LinkSource, ListedLinks};
pub use names::Names;
