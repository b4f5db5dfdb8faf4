ghost use Rattle.std.specs.Prelude.{◌≡◌, ◌≤◌, ◌<◌, ◌↔◌, [], length, IsTrue, Some, slice_get};
ghost use Rattle.pgr_table.specs.Rows.{most_rows};
ghost use Rattle.pgr_table.specs.Judging.{IsVerdict};
ghost use Rattle.pgr_table.specs.Pairs.{pair_kind, pair_of, judged_pairs};
ghost use Rattle.pgr_table.specs.Kept.{IsRow};

use crate::column::Column;
use crate::fault::TableRefused;
use crate::field_value::{FieldValue, number_in};
use crate::growing::Growing;
use crate::kind::{Check, Grammar, Rule};
use crate::reading::read_table;
use crate::row::PairRow;
use crate::table::Table;
use pgr_outside::NoMemory;
use std::alloc::Global;
use std::marker::Model;

/// The columns of a table of combinations, in the order of judging.
const PAIRS: [Rule; 2] = [
    Rule {
        column: Column::Source,
        grammar: Grammar::Integer,
        required: true,
        check: Check::Free,
    },
    Rule {
        column: Column::Target,
        grammar: Grammar::Integer,
        required: true,
        check: Check::Free,
    },
];

/// The rows of a table of combinations that is accepted, in the order of the table, which contracts see as their list.
///
/// A pair may stand twice, and there are at most 4,194,304 rows.
#[derive(Debug, Drop)]
pub struct PairTable {
    rows: Vec<PairRow>,
}

impl Model for PairTable {
    ghost use Rattle.std.specs.Prelude.{List, ◌≤◌, length};
    ghost use Rattle.pgr_table.specs.declared.row.PairRow.{PairRow as Row};
    ghost use Rattle.pgr_table.specs.Rows.{most_rows};

    ghost Value = { List Row };

    ghost view = { λ table. table.rows.items };

    ghost invariant = { λ table. length table.rows.items ≤ most_rows };
}

/// The combinations that the bytes are, or why they are none.
///
/// They are CSV as in [`read_edges`], with the columns `source` and `target`, in any order and among others. Both are an
/// optional hyphen and digits, in the range of `i64`. A pair may stand twice, and then is two rows.
///
/// `Fault` comes exactly where the bytes have one, and is the first: see [`TableFault`]. There are at most 4,194,304 rows.
/// `Memory` may come at any bytes. Work, not proved: a step for each byte.
pub fn read_combinations(alloc: Global, bytes: &[u8]) -> Result<PairTable, TableRefused>
    ensures { IsVerdict result (judged_pairs bytes.now) }
{
    read_table::<PairTable>(alloc, bytes)
}

impl PairTable {
    /// A table without rows.
    pub fn empty(alloc: Global) -> PairTable
        ensures { result ≡ [] }
    {
        PairTable {
            rows: Vec::new(alloc),
        }
    }

    /// The number of rows, at most 4,194,304.
    pub fn len(&self) -> usize
        ensures len { result ≡ length self.now }
        ensures few { result ≤ most_rows }
    {
        self.rows.len()
    }

    /// Whether there is no row.
    pub fn is_empty(&self) -> bool
        ensures { IsTrue result ↔ (self.now ≡ []) }
    {
        self.rows.is_empty()
    }

    /// The row at a place, by value, the first being 0.
    pub fn row(&self, i: usize) -> PairRow
        requires { i < length self.now }
        ensures { slice_get self.now i ≡ Some result }
    {
        self.rows[i]
    }
}

impl Table for PairTable {
    ghost use Rattle.pgr_table.specs.declared.row.PairRow.{PairRow as One};
    ghost use Rattle.pgr_table.specs.Pairs.{judged_pairs as verdict};

    ghost Row = { One };

    ghost rows = { λ table. table };

    ghost judged = { verdict };

    fn read(alloc: Global, bytes: &[u8]) -> Result<PairTable, TableRefused> {
        read_combinations(alloc, bytes)
    }
}

impl Growing for PairTable {
    ghost use Rattle.std.specs.Prelude.{map};
    ghost use Rattle.pgr_table.specs.Pairs.{pair_kind, values_of_pair};

    ghost kind = { pair_kind };

    ghost rows = { map values_of_pair };

    fn kind() -> &'static [Rule] {
        &PAIRS
    }

    fn with_room(alloc: Global, expected: usize) -> Result<PairTable, NoMemory> {
        let rows = Vec::with_capacity(alloc, expected)?;
        Ok(PairTable { rows })
    }

    fn count(&self) -> usize {
        self.rows.len()
    }

    fn knows(&self, _values: &[FieldValue]) -> bool {
        false
    }

    fn add(&mut self, values: &mut Vec<FieldValue>) -> Result<(), NoMemory> {
        self.rows.push(pair(values.as_slice()))?;
        Ok(())
    }
}

/// The pair with these values.
fn pair(values: &[FieldValue]) -> PairRow
    requires { IsRow pair_kind values.now }
    ensures { result ≡ pair_of values.now }
{
    PairRow {
        source: number_in(values, 0),
        target: number_in(values, 1),
    }
}
