ghost use Rattle.std.specs.Prelude.{◌≡◌, [], ◌∷◌, IfOk, OnErr};
ghost use Rattle.std.specs.Bool.{OnTrue, OnFalse};
ghost use Rattle.csv.specs.Reading.{records, default_config, strip_bom};
ghost use Rattle.csv.specs.Records.{fields_of};

use csv::{ByteRecord, Reader, ReaderBuilder};
use pgr_outside::NoMemory;
use std::alloc::Global;
use std::marker::Model;

/// The records of a text that are still to come, each a list of fields: commas between the fields, double quotes around
/// them where wanted, as many fields as there are, nothing trimmed.
#[derive(Drop)]
pub(crate) struct Records<'a> {
    reader: Reader<&'a [u8]>,
    ended: bool,
}

impl<'a> Model for Records<'a> {
    ghost use Rattle.std.specs.Prelude.{List, [], ℕ, Some, if◌then◌else◌};
    ghost use Rattle.std.specs.Bool.{OnFalse};
    ghost use Rattle.pgr_table.specs.RecordsLeft.{records_left, IsGoing};

    ghost Value = { List (List (List ℕ)) };

    ghost view = { λ records. if records.ended then [] else records_left (λ bytes. Some bytes.now) records.reader };

    ghost invariant = { λ records. OnFalse records.ended (IsGoing (λ bytes. Some bytes.now) records.reader) };
}

impl<'a> Records<'a> {
    /// All records of the bytes.
    pub(crate) fn new(alloc: Global, bytes: &'a [u8]) -> Records<'a>
        ensures { result ≡ records default_config (strip_bom bytes.now) }
    {
        let reader = ReaderBuilder::new()
            .has_headers(false)
            .flexible(true)
            .from_reader(alloc, bytes);
        Records {
            reader,
            ended: false,
        }
    }

    /// Puts the next record into `fields`, and answers whether there was one. Once out of memory, none comes.
    pub(crate) fn read(&mut self, fields: &mut ByteRecord) -> Result<bool, NoMemory>
        ensures found { IfOk result (λ found. OnTrue found (self.old ≡ fields_of fields.new ∷ self.new)) }
        ensures end { IfOk result (λ found. OnFalse found (self.old ≡ [])) }
        ensures err { OnErr result (self.new ≡ []) }
    {
        if self.ended {
            return Ok(false);
        }
        self.ended = true;
        let Ok(found) = self.reader.read_byte_record(fields) else {
            return Err(NoMemory);
        };
        self.ended = !found;
        Ok(found)
    }
}
