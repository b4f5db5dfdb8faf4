ghost use Rattle.std.specs.Prelude.{◌≡◌, ◌≤◌};
ghost use Rattle.pgr_outside.specs.Faults.{HasRisen};

use pgr_outside::{Failed, Sink};
use std::io::Write;

/// A stream of the system, written and flushed piece by piece.
///
/// What was written to it isn't known. Each error of the system raises its count of faults, and so does a write
/// that takes nothing of a piece that isn't empty.
#[derive(Drop)]
pub struct StreamSink<W> {
    inner: W,
    faults: u64,
}

impl<W> StreamSink<W> {
    /// A sink over a stream, without a fault. It takes no memory.
    pub fn new(inner: W) -> StreamSink<W>
        ensures { result.faults ≡ 0 }
    {
        StreamSink { inner, faults: 0 }
    }

    /// Counts one more fault; at the last value of its type the count stays.
    fn count_fault(&mut self) -> Failed
        ensures risen { HasRisen self.old.faults self.new.faults }
        ensures kept { self.old.faults ≤ self.new.faults }
    {
        self.faults = self.faults.saturating_add(1);
        Failed
    }
}

impl<W: Write> Sink for StreamSink<W> {
    ghost use Rattle.std.specs.Prelude.{None};

    ghost written = { λ _. None };

    ghost faults = { λ sink. sink.faults };

    fn write(&mut self, piece: &[u8]) -> Result<usize, Failed> {
        match self.inner.write(piece) {
            Ok(count) => {
                if count == 0 && !piece.is_empty() {
                    return Err(self.count_fault());
                }
                match self.inner.flush() {
                    Ok(()) => Ok(count),
                    Err(_) => Err(self.count_fault()),
                }
            }
            Err(_) => Err(self.count_fault()),
        }
    }
}
