ghost use Rattle.std.specs.Prelude.{◌≡◌, ◌≤◌, [], ◌++◌, OnOk, OnErr};
ghost use Rattle.pgr_outside.specs.Faults.{HasRisen};
ghost use Rattle.pgr_outside.specs.Sink.{with_added, AddsPrefix, HasGained};
ghost use Rattle.pgr_outside.specs.Parts.{part_text, parts_text};

use crate::fault::Failed;
use crate::part::Part;
use crate::sink::Sink;
use crate::writing::write_all;
use arrayvec::ArrayString;
use itoa::Buffer;

/// Room for the parts of a short text, in bytes.
const SHORT_BYTES: usize = 256;

/// Writes the text of some parts.
///
/// A text of at most 256 bytes is handed over as one piece. `Failed` comes only where the sink's count rose in this call,
/// and then a prefix of the text was added, from none of it to all. It takes no memory.
pub fn write_parts<O: Sink>(out: &mut O, parts: &[Part]) -> Result<(), Failed>
    ensures all { OnOk result (O.written out.new ≡ with_added (O.written out.old) (parts_text parts.now)) }
    ensures failed { OnErr result (HasRisen (O.faults out.old) (O.faults out.new)) }
    ensures front { OnErr result (AddsPrefix (O.written out.old) (O.written out.new) (parts_text parts.now)) }
    ensures faults { O.faults out.old ≤ O.faults out.new }
{
    let mut gathered: ArrayString<SHORT_BYTES> = ArrayString::new();
    for part in parts {
        gather_part(out, &mut gathered, *part)?;
    }
    hand_on(out, &mut gathered)?;
    Ok(())
}

/// Adds a part of a text to the bytes that are gathered for a sink; see [`gather`].
pub fn gather_part<O: Sink, const ROOM: usize>(
    out: &mut O,
    gathered: &mut ArrayString<ROOM>,
    part: Part,
) -> Result<(), Failed>
    ensures all { OnOk result (HasGained (O.written out.old) (O.written out.new) (gathered.old.bytes ++ part_text part.entry) gathered.new.bytes) }
    ensures failed { OnErr result (HasRisen (O.faults out.old) (O.faults out.new)) }
    ensures front { OnErr result (AddsPrefix (O.written out.old) (O.written out.new) (gathered.old.bytes ++ part_text part.entry)) }
    ensures faults { O.faults out.old ≤ O.faults out.new }
{
    let mut digits = Buffer::new();
    let text = match part {
        Part::Words(words) => words,
        Part::Number(number) => digits.format(number),
        Part::Signed(number) => digits.format(number),
    };
    gather(out, gathered, text)
}

/// Adds a text to the bytes that are gathered for a sink, which are handed to it first where the text has no room behind them.
///
/// A text that is longer than the room is handed over as it stands. `Failed` comes only where the sink's count rose in this
/// call, and then a prefix of the bytes gathered before and the text was added to it. It takes no memory.
pub fn gather<O: Sink, const ROOM: usize>(
    out: &mut O,
    gathered: &mut ArrayString<ROOM>,
    text: &str,
) -> Result<(), Failed>
    ensures all { OnOk result (HasGained (O.written out.old) (O.written out.new) (gathered.old.bytes ++ text.now) gathered.new.bytes) }
    ensures failed { OnErr result (HasRisen (O.faults out.old) (O.faults out.new)) }
    ensures front { OnErr result (AddsPrefix (O.written out.old) (O.written out.new) (gathered.old.bytes ++ text.now)) }
    ensures faults { O.faults out.old ≤ O.faults out.new }
{
    if gathered.remaining_capacity() < text.len() {
        return make_room(out, gathered, text);
    }
    gathered.push_str(text);
    Ok(())
}

/// Hands on what is gathered, and then gathers a text, or hands it on too where it is longer than the room.
fn make_room<O: Sink, const ROOM: usize>(
    out: &mut O,
    gathered: &mut ArrayString<ROOM>,
    text: &str,
) -> Result<(), Failed>
    ensures all { OnOk result (HasGained (O.written out.old) (O.written out.new) (gathered.old.bytes ++ text.now) gathered.new.bytes) }
    ensures failed { OnErr result (HasRisen (O.faults out.old) (O.faults out.new)) }
    ensures front { OnErr result (AddsPrefix (O.written out.old) (O.written out.new) (gathered.old.bytes ++ text.now)) }
    ensures faults { O.faults out.old ≤ O.faults out.new }
{
    hand_on(out, gathered)?;
    if ROOM < text.len() {
        write_all(out, text.as_bytes())?;
        return Ok(());
    }
    gathered.push_str(text);
    Ok(())
}

/// Hands the bytes that are gathered for a sink to it, so that none are left.
///
/// `Failed` comes only where the sink's count rose in this call, and then a prefix of them was added. It takes no memory.
pub fn hand_on<O: Sink, const ROOM: usize>(
    out: &mut O,
    gathered: &mut ArrayString<ROOM>,
) -> Result<(), Failed>
    ensures all { OnOk result (O.written out.new ≡ with_added (O.written out.old) gathered.old.bytes) }
    ensures none_left { OnOk result (gathered.new.bytes ≡ []) }
    ensures failed { OnErr result (HasRisen (O.faults out.old) (O.faults out.new)) }
    ensures front { OnErr result (AddsPrefix (O.written out.old) (O.written out.new) gathered.old.bytes) }
    ensures faults { O.faults out.old ≤ O.faults out.new }
{
    write_all(out, gathered.as_str().as_bytes())?;
    gathered.clear();
    Ok(())
}
