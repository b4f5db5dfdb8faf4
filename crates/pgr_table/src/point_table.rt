ghost use Rattle.std.specs.Prelude.{◌≡◌, ◌<◌, ◌↔◌, false, [], ◌∷◌, ◌++◌, length, IsTrue, OnOk, OnErr, Some, slice_get};
ghost use Rattle.std.specs.List.{list_any};
ghost use Rattle.std.specs.Ordering.{int_eq};
ghost use Rattle.pgr_table.specs.Judging.{IsVerdict};
ghost use Rattle.pgr_table.specs.Points.{point_kind, point_of, IsPoint, judged_points};
ghost use Rattle.pgr_table.specs.Kept.{IsRow};
ghost use Rattle.pgr_table.specs.Rows.{most_rows};

use crate::column::Column;
use crate::fault::TableRefused;
use crate::field_value::{FieldValue, number_in};
use crate::growing::Growing;
use crate::kind::{Check, Grammar, Rule};
use crate::reading::read_table;
use crate::row::PointRow;
use crate::table::Table;
use indexmap::IndexMap;
use pgr_outside::NoMemory;
use std::alloc::Global;
use std::marker::Model;

/// The columns of a table of points, in the order of judging.
const POINTS: [Rule; 4] = [
    Rule {
        column: Column::Pid,
        grammar: Grammar::Positive,
        required: true,
        check: Check::Distinct,
    },
    Rule {
        column: Column::EdgeId,
        grammar: Grammar::Id,
        required: true,
        check: Check::Free,
    },
    Rule {
        column: Column::Fraction,
        grammar: Grammar::Fraction,
        required: true,
        check: Check::Free,
    },
    Rule {
        column: Column::SideOf,
        grammar: Grammar::Side,
        required: false,
        check: Check::Free,
    },
];

/// The rows of a table of points that is accepted, in the order of the table, which contracts see as their list.
///
/// No pid stands twice, pids are from 1 to 2^63 - 1 and ids of edges from 0, each fraction is above 0 and below 1 with at
/// most 10^19 under the line, and there are at most 4,194,304 rows.
#[derive(Debug, Drop)]
pub struct PointTable {
    rows: IndexMap<i64, PointRow>,
}

impl Model for PointTable {
    ghost use Rattle.std.specs.Prelude.{List};
    ghost use Rattle.pgr_table.specs.declared.row.PointRow.{PointRow as Row};
    ghost use Rattle.pgr_table.specs.Points.{ArePoints};
    ghost use Rattle.pgr_table.specs.Kept.{rows_in, AreUnderIds};

    ghost Value = { List Row };

    ghost view = { λ table. rows_in table.rows.entries };

    ghost invariant = { λ table. AreUnderIds (λ row. row.pid) table.rows.entries × ArePoints (rows_in table.rows.entries) };
}

/// The points that the bytes are, or why they are none.
///
/// They are CSV as in [`read_edges`](crate::read_edges), with the columns `pid`, `edge_id` and `fraction`, and `side` if
/// wanted, in any order and among others. A pid is digits, from 1 to 2^63 - 1, and the id of an edge digits from 0 on. A
/// fraction is between 0 and 1: decimal, as zeros, a full stop and digits, of which the first nineteen are read; or with a
/// slash, as digits with a value of at most 10^19 on both sides. It isn't reduced. A side is `b`, `r` or `l`; where it is
/// absent or empty it is `b`.
///
/// `Fault` comes exactly where the bytes have one, and is the first: see [`TableFault`](crate::TableFault). No pid stands
/// twice, and there are at most 4,194,304 rows. `Memory` may come at any bytes. Work, not proved: a step for each byte, and
/// two look-ups for each row.
pub fn read_points(alloc: Global, bytes: &[u8]) -> Result<PointTable, TableRefused>
    ensures { IsVerdict result (judged_points bytes.now) }
{
    read_table::<PointTable>(alloc, bytes)
}

impl PointTable {
    ghost use Rattle.pgr_table.specs.Points.{ArePoints};

    /// A table without rows.
    pub fn empty(alloc: Global) -> PointTable
        ensures { result ≡ [] }
    {
        PointTable {
            rows: IndexMap::new(alloc),
        }
    }

    /// The number of rows.
    ///
    /// From this call a caller also learns what holds of the rows of every table.
    pub fn len(&self) -> usize
        ensures len { result ≡ length self.now }
        ensures accepted { ArePoints self.now }
    {
        self.rows.len()
    }

    /// Whether there is no row.
    pub fn is_empty(&self) -> bool
        ensures { IsTrue result ↔ (self.now ≡ []) }
    {
        self.rows.is_empty()
    }

    /// The row at a place, by value, the first being 0.
    pub fn row(&self, i: usize) -> PointRow
        requires { i < length self.now }
        ensures { slice_get self.now i ≡ Some result }
    {
        *self.rows.get_index(i).unwrap().1
    }

    /// Whether a row has this id.
    fn has_id(&self, id: i64) -> bool
        ensures { result ≡ list_any (λ row. int_eq id row.pid) self.now }
    {
        self.rows.contains_key(&id)
    }

    /// Puts a row behind the others. Out of memory, the table stays as it was.
    fn push(&mut self, row: PointRow) -> Result<(), NoMemory>
        requires point { IsPoint row }
        requires new { list_any (λ one. int_eq row.pid one.pid) self.old ≡ false }
        requires few { length self.old < most_rows }
        ensures ok { OnOk result (self.new ≡ self.old ++ row ∷ []) }
        ensures err { OnErr result (self.new ≡ self.old) }
    {
        self.rows.insert(row.pid, row)?;
        Ok(())
    }
}

impl Table for PointTable {
    ghost use Rattle.pgr_table.specs.declared.row.PointRow.{PointRow as One};
    ghost use Rattle.pgr_table.specs.Points.{judged_points as verdict};

    ghost Row = { One };

    ghost rows = { λ table. table };

    ghost judged = { verdict };

    fn read(alloc: Global, bytes: &[u8]) -> Result<PointTable, TableRefused> {
        read_points(alloc, bytes)
    }
}

impl Growing for PointTable {
    ghost use Rattle.std.specs.Prelude.{map};
    ghost use Rattle.pgr_table.specs.Points.{point_kind, values_of_point};

    ghost kind = { point_kind };

    ghost rows = { map values_of_point };

    fn kind() -> &'static [Rule] {
        &POINTS
    }

    fn with_room(alloc: Global, expected: usize) -> Result<PointTable, NoMemory> {
        let rows = IndexMap::with_capacity(alloc, expected)?;
        Ok(PointTable { rows })
    }

    fn count(&self) -> usize {
        self.rows.len()
    }

    fn knows(&self, values: &[FieldValue]) -> bool {
        self.has_id(number_in(values, 0))
    }

    fn add(&mut self, values: &mut Vec<FieldValue>) -> Result<(), NoMemory> {
        self.push(point(values.as_slice()))
    }
}

/// The point with these values.
fn point(values: &[FieldValue]) -> PointRow
    requires { IsRow point_kind values.now }
    ensures { result ≡ point_of values.now }
{
    let fraction = values[2].part();
    PointRow {
        pid: number_in(values, 0),
        edge_id: number_in(values, 1),
        over: fraction.over,
        under: fraction.under,
        side: values[3].side(),
    }
}
