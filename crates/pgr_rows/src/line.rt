ghost use Rattle.std.specs.Prelude.{◌≡◌, ◌≤◌, ◌++◌, map, OnOk, OnErr};
ghost use Rattle.pgr_outside.specs.Faults.{HasRisen};
ghost use Rattle.pgr_outside.specs.Parts.{part_text};
ghost use Rattle.pgr_outside.specs.Sink.{AddsPrefix, HasGained};
ghost use Rattle.pgr_rows.specs.Layout.{end_before, line_of};

use arrayvec::ArrayString;
use pgr_outside::{Failed, Part, Sink, gather, gather_part};

/// Room for the lines that are handed to a sink at once, in bytes.
const PIECE_BYTES: usize = 16384;

/// Lines that are gathered, to be handed to a sink at once.
pub(crate) type Piece = ArrayString<PIECE_BYTES>;

/// Adds a line of fields to the bytes that are gathered for a sink.
pub(crate) fn gather_line<O: Sink>(
    out: &mut O,
    piece: &mut Piece,
    fields: &[Part],
) -> Result<(), Failed>
    ensures all { OnOk result (HasGained (O.written out.old) (O.written out.new) (piece.old.bytes ++ line_of (map part_text fields.now)) piece.new.bytes) }
    ensures failed { OnErr result (HasRisen (O.faults out.old) (O.faults out.new)) }
    ensures front { OnErr result (AddsPrefix (O.written out.old) (O.written out.new) (piece.old.bytes ++ line_of (map part_text fields.now))) }
    ensures faults { O.faults out.old ≤ O.faults out.new }
{
    let mut rest = fields;
    while let [field, behind @ ..] = rest {
        gather_field(out, piece, *field, end(behind))?;
        rest = behind;
    }
    Ok(())
}

/// Adds a field, and what ends it, to the bytes that are gathered for a sink.
pub(crate) fn gather_field<O: Sink>(
    out: &mut O,
    piece: &mut Piece,
    field: Part,
    end: &str,
) -> Result<(), Failed>
    ensures all { OnOk result (HasGained (O.written out.old) (O.written out.new) (piece.old.bytes ++ (part_text field.entry ++ end.now)) piece.new.bytes) }
    ensures failed { OnErr result (HasRisen (O.faults out.old) (O.faults out.new)) }
    ensures front { OnErr result (AddsPrefix (O.written out.old) (O.written out.new) (piece.old.bytes ++ (part_text field.entry ++ end.now))) }
    ensures faults { O.faults out.old ≤ O.faults out.new }
{
    gather_part(out, piece, field)?;
    gather(out, piece, end)?;
    Ok(())
}

/// What ends a field, with these fields behind it.
fn end(behind: &[Part]) -> &'static str
    ensures { result.now ≡ end_before (map part_text behind.now) }
{
    match behind {
        [] => "\n",
        _ => ",",
    }
}
