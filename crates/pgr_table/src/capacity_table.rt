ghost use Rattle.std.specs.Prelude.{◌≡◌, ◌<◌, ◌≤◌, ◌↔◌, false, [], ◌∷◌, ◌++◌, length, IsTrue, OnOk, OnErr, Some, slice_get};
ghost use Rattle.std.specs.List.{list_any};
ghost use Rattle.std.specs.Ordering.{int_eq};
ghost use Rattle.pgr_table.specs.Judging.{IsVerdict};
ghost use Rattle.pgr_table.specs.Capacities.{capacity_kind, capacity_of, sum_of_capacities, HasIds, judged_capacities};
ghost use Rattle.pgr_table.specs.Kept.{IsRow};
ghost use Rattle.pgr_table.specs.Rows.{most_rows, greatest};

use crate::column::Column;
use crate::fault::TableRefused;
use crate::field_value::{FieldValue, number_in};
use crate::growing::Growing;
use crate::kind::{Check, Grammar, Rule};
use crate::reading::read_table;
use crate::row::CapacityRow;
use crate::table::Table;
use indexmap::IndexMap;
use pgr_outside::NoMemory;
use std::alloc::Global;
use std::marker::Model;

/// The columns of a table of capacities, in the order of judging.
const CAPACITIES: [Rule; 5] = [
    Rule {
        column: Column::Id,
        grammar: Grammar::Id,
        required: true,
        check: Check::Distinct,
    },
    Rule {
        column: Column::Source,
        grammar: Grammar::Id,
        required: true,
        check: Check::Free,
    },
    Rule {
        column: Column::Target,
        grammar: Grammar::Id,
        required: true,
        check: Check::Free,
    },
    Rule {
        column: Column::Capacity,
        grammar: Grammar::Whole,
        required: true,
        check: Check::Summed,
    },
    Rule {
        column: Column::ReverseCapacity,
        grammar: Grammar::WholeOrEmpty,
        required: false,
        check: Check::Summed,
    },
];

/// The rows of a table of capacities that is accepted, in the order of the table, which contracts see as their list.
///
/// No id stands twice, ids and vertices are from 0 to 2^63 - 1, there are at most 4,194,304 rows, and the capacities that
/// aren't negative, of both columns, have a sum of at most 2^63 - 1.
#[derive(Debug, Drop)]
pub struct CapacityTable {
    rows: IndexMap<i64, CapacityRow>,
}

impl Model for CapacityTable {
    ghost use Rattle.std.specs.Prelude.{List};
    ghost use Rattle.pgr_table.specs.declared.row.CapacityRow.{CapacityRow as Row};
    ghost use Rattle.pgr_table.specs.Capacities.{AreCapacities};
    ghost use Rattle.pgr_table.specs.Kept.{rows_in, AreUnderIds};

    ghost Value = { List Row };

    ghost view = { λ table. rows_in table.rows.entries };

    ghost invariant = { λ table. AreUnderIds (λ row. row.id) table.rows.entries × AreCapacities (rows_in table.rows.entries) };
}

/// The capacities that the bytes are, or why they are none.
///
/// They are CSV as in [`read_edges`](crate::read_edges), with the columns `id`, `source`, `target` and `capacity`, and
/// `reverse_capacity` if wanted, in any order and among others. Id, source and target are digits, from 0 to 2^63 - 1. The
/// capacities are whole numbers in the range of `i64`, as costs are; one that isn't positive stays as it is. Where
/// `reverse_capacity` is absent or empty it is -1.
///
/// `Fault` comes exactly where the bytes have one, and is the first: see [`TableFault`](crate::TableFault). No id stands
/// twice, there are at most 4,194,304 rows, and the capacities that aren't negative, of both columns, those of rows with
/// equal ends too, have a sum of at most 2^63 - 1. `Memory` may come at any bytes. Work, not proved: a step for each byte,
/// and two look-ups for each row.
pub fn read_capacities(alloc: Global, bytes: &[u8]) -> Result<CapacityTable, TableRefused>
    ensures { IsVerdict result (judged_capacities bytes.now) }
{
    read_table::<CapacityTable>(alloc, bytes)
}

impl CapacityTable {
    ghost use Rattle.pgr_table.specs.Capacities.{AreCapacities};

    /// A table without rows.
    pub fn empty(alloc: Global) -> CapacityTable
        ensures { result ≡ [] }
    {
        CapacityTable {
            rows: IndexMap::new(alloc),
        }
    }

    /// The number of rows.
    ///
    /// From this call a caller also learns what holds of the rows of every table.
    pub fn len(&self) -> usize
        ensures len { result ≡ length self.now }
        ensures accepted { AreCapacities self.now }
    {
        self.rows.len()
    }

    /// Whether there is no row.
    pub fn is_empty(&self) -> bool
        ensures { IsTrue result ↔ (self.now ≡ []) }
    {
        self.rows.is_empty()
    }

    /// The row at a place, by value, the first being 0.
    pub fn row(&self, i: usize) -> CapacityRow
        requires { i < length self.now }
        ensures { slice_get self.now i ≡ Some result }
    {
        *self.rows.get_index(i).unwrap().1
    }

    /// Whether a row has this id.
    fn has_id(&self, id: i64) -> bool
        ensures { result ≡ list_any (λ row. int_eq id row.id) self.now }
    {
        self.rows.contains_key(&id)
    }

    /// Puts a row behind the others. Out of memory, the table stays as it was.
    fn push(&mut self, row: CapacityRow) -> Result<(), NoMemory>
        requires ids { HasIds row }
        requires new { list_any (λ one. int_eq row.id one.id) self.old ≡ false }
        requires few { length self.old < most_rows }
        requires sum { sum_of_capacities (self.old ++ row ∷ []) ≤ greatest }
        ensures ok { OnOk result (self.new ≡ self.old ++ row ∷ []) }
        ensures err { OnErr result (self.new ≡ self.old) }
    {
        self.rows.insert(row.id, row)?;
        Ok(())
    }
}

impl Table for CapacityTable {
    ghost use Rattle.pgr_table.specs.declared.row.CapacityRow.{CapacityRow as One};
    ghost use Rattle.pgr_table.specs.Capacities.{judged_capacities as verdict};

    ghost Row = { One };

    ghost rows = { λ table. table };

    ghost judged = { verdict };

    fn read(alloc: Global, bytes: &[u8]) -> Result<CapacityTable, TableRefused> {
        read_capacities(alloc, bytes)
    }
}

impl Growing for CapacityTable {
    ghost use Rattle.std.specs.Prelude.{map};
    ghost use Rattle.pgr_table.specs.Capacities.{capacity_kind, values_of_capacity};

    ghost kind = { capacity_kind };

    ghost rows = { map values_of_capacity };

    fn kind() -> &'static [Rule] {
        &CAPACITIES
    }

    fn with_room(alloc: Global, expected: usize) -> Result<CapacityTable, NoMemory> {
        let rows = IndexMap::with_capacity(alloc, expected)?;
        Ok(CapacityTable { rows })
    }

    fn count(&self) -> usize {
        self.rows.len()
    }

    fn knows(&self, values: &[FieldValue]) -> bool {
        self.has_id(number_in(values, 0))
    }

    fn add(&mut self, values: &mut Vec<FieldValue>) -> Result<(), NoMemory> {
        self.push(capacity(values.as_slice()))
    }
}

/// The row with these values.
fn capacity(values: &[FieldValue]) -> CapacityRow
    requires { IsRow capacity_kind values.now }
    ensures { result ≡ capacity_of values.now }
{
    CapacityRow {
        id: number_in(values, 0),
        source: number_in(values, 1),
        target: number_in(values, 2),
        capacity: number_in(values, 3),
        reverse_capacity: number_in(values, 4),
    }
}
