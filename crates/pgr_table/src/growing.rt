ghost use Rattle.std.specs.Prelude.{◌≡◌, ◌+◌, ◌<◌, ◌≤◌, List, [], ◌∷◌, ◌++◌, false, length, IfOk, OnOk, OnErr};
ghost use Rattle.pgr_table.specs.Rows.{most_rows, most_elements, greatest};
ghost use Rattle.pgr_table.specs.Judging.{is_repeat, elements_of, sum_of};
ghost use Rattle.pgr_table.specs.declared.field_value.FieldValue.{FieldValue as Value};
ghost use Rattle.pgr_table.specs.Kept.{IsRow};
ghost use Rattle.pgr_table.specs.declared.kind.Rule.{Rule as OneRule};

use crate::field_value::FieldValue;
use crate::kind::Rule;
use pgr_outside::NoMemory;
use std::alloc::Global;

/// A table of one kind that is being read: its columns, and how its rows are kept.
pub(crate) trait Growing: Drop {
    /// The columns of the kind.
    ghost kind: { List OneRule };

    /// The rows so far, each as its values in the order of the columns.
    ghost rows: { Self → List (List Value) };

    /// The columns of the kind, in the order of judging.
    fn kind() -> &'static [Rule]
        ensures { result.now ≡ kind };

    /// A table without rows, with room for some that are expected.
    fn with_room(alloc: Global, expected: usize) -> Result<Self, NoMemory>
        ensures { IfOk result (λ table. rows table ≡ []) };

    /// The number of rows.
    fn count(&self) -> usize
        ensures { result ≡ length (rows self.now) };

    /// Whether the id of a row stands before.
    fn knows(&self, values: &[FieldValue]) -> bool
        requires { IsRow kind values.now }
        ensures { result ≡ is_repeat kind (rows self.now) values.now };

    /// Puts a row behind the others; its values may be taken away. Out of memory, the table stays as it was.
    fn add(&mut self, values: &mut Vec<FieldValue>) -> Result<(), NoMemory>
        requires row { IsRow kind values.old.items }
        requires few { length (rows self.old) < most_rows }
        requires new { is_repeat kind (rows self.old) values.old.items ≡ false }
        requires elements { elements_of (rows self.old ++ values.old.items ∷ []) ≤ most_elements }
        requires sum { sum_of kind (rows self.old ++ values.old.items ∷ []) ≤ greatest }
        ensures ok { OnOk result (rows self.new ≡ rows self.old ++ values.old.items ∷ []) }
        ensures err { OnErr result (rows self.new ≡ rows self.old) };
}
