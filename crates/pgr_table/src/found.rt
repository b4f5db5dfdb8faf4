ghost use Rattle.std.specs.Prelude.{◌≡◌, IfOk};
ghost use Rattle.csv.specs.Records.{fields_of};

use crate::field_value::FieldValue;
use crate::kind::Rule;
use csv::ByteRecord;
use pgr_outside::NoMemory;
use std::alloc::Global;

/// A column and the place where it stands in the header, or none where it is absent.
#[derive(Clone, Copy, Debug)]
pub(crate) struct Found {
    pub(crate) rule: Rule,
    pub(crate) place: Option<usize>,
}

impl Found {
    ghost use Rattle.pgr_table.specs.Judging.{value_in};

    /// The value of the column in a record, or none where its field isn't in its grammar.
    pub(crate) fn value(
        &self,
        alloc: Global,
        fields: &ByteRecord,
    ) -> Result<Option<FieldValue>, NoMemory>
        ensures { IfOk result (λ value. value ≡ value_in (fields_of fields.now) self.now) }
    {
        let Some(place) = self.place else {
            return self.rule.grammar.read(alloc, b"");
        };
        let Some(field) = fields.get(place) else {
            return Ok(None);
        };
        self.rule.grammar.read(alloc, field)
    }
}
