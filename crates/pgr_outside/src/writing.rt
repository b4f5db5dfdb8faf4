ghost use Rattle.std.specs.Prelude.{◌≡◌, ◌≤◌, OnOk, OnErr};
ghost use Rattle.pgr_outside.specs.Faults.{HasRisen};
ghost use Rattle.pgr_outside.specs.Sink.{with_added, AddsPrefix};

use crate::fault::Failed;
use crate::sink::Sink;

/// Writes all the bytes.
///
/// `Failed` comes only where the sink's count rose in this call, and then a front of the bytes was added,
/// from none of them to all. It takes no memory.
pub fn write_all<O: Sink>(out: &mut O, bytes: &[u8]) -> Result<(), Failed>
    ensures all { OnOk result (O.written out.new ≡ with_added (O.written out.old) bytes.now) }
    ensures failed { OnErr result (HasRisen (O.faults out.old) (O.faults out.new)) }
    ensures front { OnErr result (AddsPrefix (O.written out.old) (O.written out.new) bytes.now) }
    ensures faults { O.faults out.old ≤ O.faults out.new }
{
    let mut rest = bytes;
    while !rest.is_empty() {
        let count = out.write(rest)?;
        rest = &rest[count..];
    }
    Ok(())
}
