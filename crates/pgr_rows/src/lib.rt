//! Result tables and their text.
//!
//! [`Rows`] has a variant for each kind of table; [`write_table`] writes its header line and a line for each row.
//! Proved: exactly the text of the table is added, or a prefix of it where the sink's count of faults rose. Not proved:
//! time, and that the first piece is the whole header line.
#![tactic(auto)]

mod line;
mod list;
mod record;
mod rows;
mod writing;

pub use rows::{
    ClassRow, ContractRow, CostRow, CutRow, FlowRow, KspRow, PartRow, PathRow, ReachRow, Rows,
};
pub use writing::write_table;
