ghost use Rattle.std.specs.Prelude.{◌≡◌, ◌≤◌, ◌++◌, OnOk, OnErr};
ghost use Rattle.pgr_outside.specs.Faults.{HasRisen};
ghost use Rattle.pgr_outside.specs.Sink.{AddsPrefix, HasGained};
ghost use Rattle.pgr_rows.specs.Layout.{Layout, line_text};

use crate::line::Piece;
use pgr_outside::{Failed, Sink};

/// A kind of row: the header line of its tables, and the line of a row.
pub(crate) trait Record {
    /// The header line, and the fields of a row.
    ghost layout: { Layout Self };

    /// The header line, its line feed too.
    fn header() -> &'static str
        ensures { result.now ≡ layout.header };

    /// Adds the line of the row to the bytes that are gathered for a sink.
    fn gather<O: Sink>(&self, out: &mut O, piece: &mut Piece) -> Result<(), Failed>
        ensures all { OnOk result (HasGained (O.written out.old) (O.written out.new) (piece.old.bytes ++ line_text layout self.now) piece.new.bytes) }
        ensures failed { OnErr result (HasRisen (O.faults out.old) (O.faults out.new)) }
        ensures front { OnErr result (AddsPrefix (O.written out.old) (O.written out.new) (piece.old.bytes ++ line_text layout self.now)) }
        ensures faults { O.faults out.old ≤ O.faults out.new };
}
