//! Tables from bytes: the rows of a CSV table that is accepted, or the first fault of one that isn't.
//!
//! [`read_edges`] judges the bytes of an [`EdgeTable`], with the [`Place`]s of its edges where these are wanted,
//! [`read_capacities`] those of a [`CapacityTable`], [`read_points`] of a [`PointTable`], [`read_restrictions`] of a
//! [`RestrictionTable`] and [`read_combinations`] of a [`PairTable`]. Their rows, [`EdgeRow`]s, [`CapacityRow`]s,
//! [`PointRow`]s, lists of numbers and [`PairRow`]s, stand in the order of the records. Each is a [`Table`], and all are read
//! by one generic call. [`TableRefused`] says why there is none: [`TableFault`] names the first fault, its record and its
//! [`Column`].
//! Proved: the answer is the verdict on the bytes, for all bytes; what holds of the rows of every table that is accepted is
//! a clause of its `len`, as that ids are distinct and that the sum of costs or of capacities fits; `find` finds the id of an
//! edge exactly where a row has it. Not proved: time, and that memory suffices.
#![tactic(auto)]

mod capacity_table;
mod column;
mod edge_list;
mod edge_table;
mod fault;
mod field_value;
mod found;
mod growing;
mod header;
mod kind;
mod pair_table;
mod point_table;
mod reading;
mod record;
mod records;
mod restriction_table;
mod row;
mod table;
#[cfg(test)]
mod tests;
mod totals;

pub use capacity_table::{CapacityTable, read_capacities};
pub use column::Column;
pub use edge_table::{EdgeTable, read_edges};
pub use fault::{TableFault, TableRefused};
pub use pair_table::{PairTable, read_combinations};
pub use point_table::{PointTable, read_points};
pub use restriction_table::{RestrictionTable, read_restrictions};
pub use row::{CapacityRow, EdgeRow, PairRow, Place, PointRow};
pub use table::Table;
