ghost use Rattle.std.specs.Prelude.{◌≡◌, ◌≤◌, [], OnOk, OnErr};
ghost use Rattle.pgr_outside.specs.Faults.{HasRisen};
ghost use Rattle.pgr_outside.specs.Parts.{parts_text};
ghost use Rattle.pgr_outside.specs.Sink.{with_added, AddsPrefix};
ghost use Rattle.pgr_run.specs.Messages.{note_text, notes_text};

use pgr_answer::Note;
use pgr_outside::{Failed, Part, Sink, write_parts};

/// Writes the lines of notes, in order, until a write fails.
pub(crate) fn write_notes<E: Sink>(err: &mut E, notes: &[Note]) -> Result<(), Failed>
    ensures all { OnOk result (E.written err.new ≡ with_added (E.written err.old) (notes_text notes.now)) }
    ensures failed { OnErr result (HasRisen (E.faults err.old) (E.faults err.new)) }
    ensures front { OnErr result (AddsPrefix (E.written err.old) (E.written err.new) (notes_text notes.now)) }
    ensures faults { E.faults err.old ≤ E.faults err.new }
    ensures silent { notes.now ≡ [] → err.new ≡ err.old }
{
    for note in notes {
        write_parts(err, &note_line(note))?;
    }
    Ok(())
}

/// The line of a note, in parts.
fn note_line(note: &Note) -> [Part<'static>; 11]
    ensures { parts_text result ≡ note_text note.now }
{
    [
        Part::Words("pgr: note: start "),
        Part::Signed(note.start),
        Part::Words(": edge "),
        Part::Signed(note.link.edge),
        Part::Words(" from "),
        Part::Signed(note.link.from),
        Part::Words(" to "),
        Part::Signed(note.link.to),
        Part::Words(" with cost "),
        Part::Number(note.link.cost),
        Part::Words(" breaks the estimate\n"),
    ]
}
