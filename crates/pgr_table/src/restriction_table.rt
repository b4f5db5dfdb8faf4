ghost use Rattle.std.specs.Prelude.{◌≡◌, ◌<◌, ◌↔◌, [], ◌∷◌, length, IsTrue, Some, slice_get};
ghost use Rattle.pgr_table.specs.Judging.{IsVerdict};
ghost use Rattle.pgr_table.specs.Restrictions.{restriction_kind, restriction_of, judged_restrictions};
ghost use Rattle.pgr_table.specs.Kept.{IsRow};
ghost use Rattle.pgr_table.specs.Values.{numbers_in};

use crate::column::Column;
use crate::fault::TableRefused;
use crate::field_value::FieldValue;
use crate::growing::Growing;
use crate::kind::{Check, Grammar, Rule};
use crate::reading::read_table;
use crate::table::Table;
use pgr_outside::{Listed, NoMemory};
use std::alloc::Global;
use std::marker::Model;

/// The one column of a table of restrictions that is read.
const RESTRICTIONS: [Rule; 1] = [Rule {
    column: Column::Path,
    grammar: Grammar::Numbers,
    required: true,
    check: Check::Free,
}];

/// The rows of a table of restrictions that is accepted, in the order of the table, which contracts see as their list: each
/// is a list of numbers, which may be empty.
///
/// There are at most 4,194,304 rows, and all lists have at most 1,048,576 elements.
#[derive(Debug, Drop)]
pub struct RestrictionTable {
    rows: Vec<Listed<i64>>,
}

impl Model for RestrictionTable {
    ghost use Rattle.std.specs.Prelude.{List, ℤ};
    ghost use Rattle.pgr_table.specs.Restrictions.{AreRestrictions};

    ghost Value = { List (List ℤ) };

    ghost view = { λ table. table.rows.items };

    ghost invariant = { λ table. AreRestrictions table.rows.items };
}

/// The restrictions that the bytes are, or why they are none.
///
/// They are CSV as in [`read_edges`](crate::read_edges), with the column `path`, among others that are ignored. Its field is
/// a list of the ids of edges in braces, joined by commas without blanks: an optional hyphen and digits, in the range of
/// `i64`. `{}` and the empty field are the empty list, which is a row as any other. Lists may stand twice.
///
/// `Fault` comes exactly where the bytes have one, and is the first: see [`TableFault`](crate::TableFault). There are at most
/// 4,194,304 rows, and all lists have at most 1,048,576 elements: `TooManyRows` names the first record with which they have
/// more. `Memory` may come at any bytes. Work, not proved: a step for each byte.
pub fn read_restrictions(alloc: Global, bytes: &[u8]) -> Result<RestrictionTable, TableRefused>
    ensures { IsVerdict result (judged_restrictions bytes.now) }
{
    read_table::<RestrictionTable>(alloc, bytes)
}

impl RestrictionTable {
    ghost use Rattle.pgr_table.specs.Restrictions.{AreRestrictions};

    /// A table without rows.
    pub fn empty(alloc: Global) -> RestrictionTable
        ensures { result ≡ [] }
    {
        RestrictionTable {
            rows: Vec::new(alloc),
        }
    }

    /// The number of rows.
    ///
    /// From this call a caller also learns what holds of the rows of every table.
    pub fn len(&self) -> usize
        ensures len { result ≡ length self.now }
        ensures accepted { AreRestrictions self.now }
    {
        self.rows.len()
    }

    /// Whether there is no row.
    pub fn is_empty(&self) -> bool
        ensures { IsTrue result ↔ (self.now ≡ []) }
    {
        self.rows.is_empty()
    }

    /// The list at a place, the first being 0.
    pub fn row(&self, i: usize) -> &[i64]
        requires { i < length self.now }
        ensures { slice_get self.now i ≡ Some result.now }
    {
        self.rows[i].as_slice()
    }
}

impl Table for RestrictionTable {
    ghost use Rattle.std.specs.Prelude.{List, ℤ};
    ghost use Rattle.pgr_table.specs.Restrictions.{judged_restrictions as verdict};

    ghost Row = { List ℤ };

    ghost rows = { λ table. table };

    ghost judged = { verdict };

    fn read(alloc: Global, bytes: &[u8]) -> Result<RestrictionTable, TableRefused> {
        read_restrictions(alloc, bytes)
    }
}

impl Growing for RestrictionTable {
    ghost use Rattle.std.specs.Prelude.{map};
    ghost use Rattle.pgr_table.specs.Restrictions.{restriction_kind, values_of_restriction};

    ghost kind = { restriction_kind };

    ghost rows = { map values_of_restriction };

    fn kind() -> &'static [Rule] {
        &RESTRICTIONS
    }

    fn with_room(alloc: Global, expected: usize) -> Result<RestrictionTable, NoMemory> {
        let rows = Vec::with_capacity(alloc, expected)?;
        Ok(RestrictionTable { rows })
    }

    fn count(&self) -> usize {
        self.rows.len()
    }

    fn knows(&self, _values: &[FieldValue]) -> bool {
        false
    }

    fn add(&mut self, values: &mut Vec<FieldValue>) -> Result<(), NoMemory> {
        self.rows.push(take_list(values))?;
        Ok(())
    }
}

/// Takes the one value of a restriction away, which is its list.
fn take_list(values: &mut Vec<FieldValue>) -> Listed<i64>
    requires { IsRow restriction_kind values.old.items }
    ensures { result ≡ restriction_of values.old.items }
{
    match values.pop() {
        Some(FieldValue::Numbers(list)) => list,
        _ => unreachable!(),
    }
}
