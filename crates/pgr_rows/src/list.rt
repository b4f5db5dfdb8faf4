ghost use Rattle.std.specs.Prelude.{◌≡◌, ◌≤◌, ◌++◌, OnOk, OnErr};
ghost use Rattle.std.specs.Fmt.{signed_decimal};
ghost use Rattle.pgr_outside.specs.Faults.{HasRisen};
ghost use Rattle.pgr_outside.specs.Sink.{AddsPrefix, HasGained};
ghost use Rattle.pgr_rows.specs.Layout.{line_of};
ghost use Rattle.pgr_rows.specs.ListText.{braced, closed, end_of, fields_of, list_text, quote};

use crate::line::{Piece, gather_field, gather_line};
use pgr_outside::{Failed, Part, Sink, gather};

/// A line with a list of vertices: its fields, in order.
#[derive(Clone, Copy, Debug)]
pub(crate) struct ListLine<'a> {
    /// The kind of the row.
    pub kind: &'static str,
    /// The id.
    pub id: Part<'a>,
    /// The vertices.
    pub ids: &'a [i64],
    /// Where it begins.
    pub source: Part<'a>,
    /// Where it leads.
    pub target: Part<'a>,
    /// What it costs.
    pub cost: Part<'a>,
}

/// Adds a line with a list of vertices to the bytes that are gathered for a sink.
pub(crate) fn gather_list_line<O: Sink>(
    out: &mut O,
    piece: &mut Piece,
    line: ListLine,
) -> Result<(), Failed>
    ensures all { OnOk result (HasGained (O.written out.old) (O.written out.new) (piece.old.bytes ++ line_of (fields_of line.entry)) piece.new.bytes) }
    ensures failed { OnErr result (HasRisen (O.faults out.old) (O.faults out.new)) }
    ensures front { OnErr result (AddsPrefix (O.written out.old) (O.written out.new) (piece.old.bytes ++ line_of (fields_of line.entry))) }
    ensures faults { O.faults out.old ≤ O.faults out.new }
{
    gather_field(out, piece, Part::Words(line.kind), ",")?;
    gather_field(out, piece, line.id, ",")?;
    gather_list(out, piece, line.ids)?;
    gather(out, piece, ",")?;
    gather_line(out, piece, &[line.source, line.target, line.cost])?;
    Ok(())
}

/// Adds a list of vertices to the bytes that are gathered for a sink.
fn gather_list<O: Sink>(out: &mut O, piece: &mut Piece, ids: &[i64]) -> Result<(), Failed>
    ensures all { OnOk result (HasGained (O.written out.old) (O.written out.new) (piece.old.bytes ++ list_text ids.now) piece.new.bytes) }
    ensures failed { OnErr result (HasRisen (O.faults out.old) (O.faults out.new)) }
    ensures front { OnErr result (AddsPrefix (O.written out.old) (O.written out.new) (piece.old.bytes ++ list_text ids.now)) }
    ensures faults { O.faults out.old ≤ O.faults out.new }
{
    let quote = quote_of(ids);
    gather(out, piece, quote)?;
    gather_braced(out, piece, ids)?;
    gather(out, piece, quote)?;
    Ok(())
}

/// What stands on both sides of a list of vertices: a double quote where the list holds a comma.
fn quote_of(ids: &[i64]) -> &'static str
    ensures { result.now ≡ quote ids.now }
{
    if ids.len() > 1 { "\"" } else { "" }
}

/// Adds a list of vertices in braces to the bytes that are gathered for a sink.
fn gather_braced<O: Sink>(out: &mut O, piece: &mut Piece, ids: &[i64]) -> Result<(), Failed>
    ensures all { OnOk result (HasGained (O.written out.old) (O.written out.new) (piece.old.bytes ++ braced ids.now) piece.new.bytes) }
    ensures failed { OnErr result (HasRisen (O.faults out.old) (O.faults out.new)) }
    ensures front { OnErr result (AddsPrefix (O.written out.old) (O.written out.new) (piece.old.bytes ++ braced ids.now)) }
    ensures faults { O.faults out.old ≤ O.faults out.new }
{
    gather(out, piece, opening(ids))?;
    gather_closed(out, piece, ids)?;
    Ok(())
}

/// What stands before the first vertex of a list: both braces where there is none.
fn opening(ids: &[i64]) -> &'static str
    ensures { result.now ++ closed ids.now ≡ braced ids.now }
{
    match ids {
        [] => "{}",
        _ => "{",
    }
}

/// Adds vertices with commas between them and a closing brace behind the last to the bytes that are gathered for a sink.
fn gather_closed<O: Sink>(out: &mut O, piece: &mut Piece, ids: &[i64]) -> Result<(), Failed>
    ensures all { OnOk result (HasGained (O.written out.old) (O.written out.new) (piece.old.bytes ++ closed ids.now) piece.new.bytes) }
    ensures failed { OnErr result (HasRisen (O.faults out.old) (O.faults out.new)) }
    ensures front { OnErr result (AddsPrefix (O.written out.old) (O.written out.new) (piece.old.bytes ++ closed ids.now)) }
    ensures faults { O.faults out.old ≤ O.faults out.new }
{
    let mut rest = ids;
    while let [id, behind @ ..] = rest {
        gather_vertex(out, piece, id, end(behind))?;
        rest = behind;
    }
    Ok(())
}

/// Adds a vertex, and what ends it, to the bytes that are gathered for a sink.
fn gather_vertex<O: Sink>(out: &mut O, piece: &mut Piece, id: &i64, end: &str) -> Result<(), Failed>
    ensures all { OnOk result (HasGained (O.written out.old) (O.written out.new) (piece.old.bytes ++ (signed_decimal id.now ++ end.now)) piece.new.bytes) }
    ensures failed { OnErr result (HasRisen (O.faults out.old) (O.faults out.new)) }
    ensures front { OnErr result (AddsPrefix (O.written out.old) (O.written out.new) (piece.old.bytes ++ (signed_decimal id.now ++ end.now))) }
    ensures faults { O.faults out.old ≤ O.faults out.new }
{
    gather_field(out, piece, Part::Signed(*id), end)
}

/// What ends a vertex of a list, with these vertices behind it.
fn end(behind: &[i64]) -> &'static str
    ensures { result.now ≡ end_of behind.now }
{
    match behind {
        [] => "}",
        _ => ",",
    }
}
