ghost use Rattle.std.specs.Prelude.{◌≡◌, ℕ, ◌<◌, ◌≤◌, List, Option, length, take, IfOk, OnErr};
ghost use Rattle.pgr_outside.specs.Faults.{HasRisen};
ghost use Rattle.pgr_outside.specs.Sink.{with_added};

use crate::fault::Failed;

/// A sink of bytes, written in pieces.
///
/// Its meanings are what was written so far, where it tells that, and a count of faults that never falls.
pub trait Sink {
    /// What was written so far, where the sink tells it.
    ghost written: { Self → Option (List ℕ) };

    /// How many faults it has had.
    ghost faults: { Self → ℕ };

    /// Takes a front of the piece, at least one byte of a piece that isn't empty, and answers how many bytes.
    ///
    /// `Failed` comes only where the count of faults rose, and adds nothing. Whether the sink tells what
    /// was written is the same before and after, whatever the answer.
    fn write(&mut self, piece: &[u8]) -> Result<usize, Failed>
        ensures at_most { IfOk result (λ count. count ≤ length piece.now) }
        ensures some { IfOk result (λ count. 0 < length piece.now → 0 < count) }
        ensures added { IfOk result (λ count. written self.new ≡ with_added (written self.old) (take count piece.now)) }
        ensures failed { OnErr result (HasRisen (faults self.old) (faults self.new)) }
        ensures nothing_added { OnErr result (written self.new ≡ written self.old) }
        ensures faults { faults self.old ≤ faults self.new };
}
