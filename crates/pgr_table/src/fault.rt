ghost use Rattle.std.specs.Prelude.{◌≡◌, ◌++◌, codes, decimal};
ghost use Rattle.pgr_outside.specs.Parts.{parts_text};
ghost use Rattle.pgr_table.specs.Columns.{name_of};
ghost use Rattle.pgr_table.specs.FaultText.{fault_text};

use crate::column::Column;
use pgr_outside::{NoMemory, Part};
use std::alloc::AllocFailed;
use thiserror::Error;

/// Why a table isn't accepted: the first fault, in this order.
///
/// `NoHeader` first; then, column by column in the order of the kind, `MissingColumn` and `RepeatedColumn`; then, record
/// by record, `TooManyRows` of rows, `UnevenRecord`, `BadField` of the first such column, `DuplicateId`, `TooManyRows` of the
/// elements of lists, and `CostSum`. A fault at a record is decided by the records up to it. The header is record 1.
#[derive(Clone, Copy, Debug, PartialEq, Eq, Drop, Error)]
pub enum TableFault {
    /// There is no record.
    #[error("no header")]
    NoHeader,
    /// The record with this number hasn't as many fields as the header.
    #[error("record {0} is uneven")]
    UnevenRecord(u64),
    /// The header hasn't this column.
    #[error("column {0} missing")]
    MissingColumn(Column),
    /// The header has this column twice.
    #[error("column {0} repeated")]
    RepeatedColumn(Column),
    /// In the record with this number the field of this column isn't in its grammar.
    #[error("record {0}: bad {1}")]
    BadField(u64, Column),
    /// The id of the record with this number stood before.
    #[error("record {0}: id repeated")]
    DuplicateId(u64),
    /// The record with this number is number 4,194,306, or with it the lists have more than 1,048,576 elements.
    #[error("record {0}: too many rows")]
    TooManyRows(u64),
    /// With the record with this number the sum of the costs, or of the capacities, passes 2^63 - 1.
    #[error("record {0}: sum too large")]
    CostSum(u64),
}

impl TableFault {
    /// What is said of the fault, in parts; [`Display`](std::fmt::Display) says the same.
    pub fn parts(self) -> [Part<'static>; 4]
        ensures { parts_text result ≡ fault_text self }
    {
        let none = Part::Words("");
        match self {
            TableFault::NoHeader => [Part::Words("no header"), none, none, none],
            TableFault::UnevenRecord(number) => record_parts(number, " is uneven"),
            TableFault::MissingColumn(column) => column_parts(column, " missing"),
            TableFault::RepeatedColumn(column) => column_parts(column, " repeated"),
            TableFault::BadField(number, column) => [
                Part::Words("record "),
                Part::Number(number),
                Part::Words(": bad "),
                Part::Words(column.name()),
            ],
            TableFault::DuplicateId(number) => record_parts(number, ": id repeated"),
            TableFault::TooManyRows(number) => record_parts(number, ": too many rows"),
            TableFault::CostSum(number) => record_parts(number, ": sum too large"),
        }
    }
}

/// What is said of a record, in parts.
fn record_parts(number: u64, after: &'static str) -> [Part<'static>; 4]
    ensures { parts_text result ≡ codes "record " ++ decimal number ++ after.now }
{
    [
        Part::Words("record "),
        Part::Number(number),
        Part::Words(after),
        Part::Words(""),
    ]
}

/// What is said of a column, in parts.
fn column_parts(column: Column, after: &'static str) -> [Part<'static>; 4]
    ensures { parts_text result ≡ codes "column " ++ name_of column ++ after.now }
{
    [
        Part::Words("column "),
        Part::Words(column.name()),
        Part::Words(after),
        Part::Words(""),
    ]
}

/// Why there is no table.
#[derive(Clone, Copy, Debug, PartialEq, Eq, Drop, Error)]
pub enum TableRefused {
    /// The table isn't accepted.
    #[error(transparent)]
    Fault(TableFault),
    /// Out of memory.
    #[error("want of memory")]
    Memory,
}

impl From<NoMemory> for TableRefused {
    ghost use Rattle.std.specs.Prelude.{◌≡◌};
    ghost use Rattle.pgr_table.specs.declared.fault.TableRefused.TheVariants.{Memory};

    ghost from_gives = { λ _ refused. refused ≡ Memory };

    fn from(_: NoMemory) -> TableRefused {
        TableRefused::Memory
    }
}

impl<T: Drop> From<AllocFailed<T>> for TableRefused {
    ghost use Rattle.std.specs.Prelude.{◌≡◌};
    ghost use Rattle.pgr_table.specs.declared.fault.TableRefused.TheVariants.{Memory};

    ghost from_gives = { λ _ refused. refused ≡ Memory };

    fn from(_: AllocFailed<T>) -> TableRefused {
        TableRefused::Memory
    }
}

impl From<TableFault> for TableRefused {
    ghost use Rattle.std.specs.Prelude.{◌≡◌};
    ghost use Rattle.pgr_table.specs.declared.fault.TableRefused.TheVariants.{Fault};

    ghost from_gives = { λ fault refused. refused ≡ Fault fault };

    fn from(fault: TableFault) -> TableRefused {
        TableRefused::Fault(fault)
    }
}
