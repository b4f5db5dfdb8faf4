ghost use Rattle.std.specs.Prelude.{◌≡◌, ℕ, ◌≤◌, List, Option, length, IfOk, IfSome, IsErrOf};
ghost use Rattle.pgr_outside.specs.Faults.{HasRisen, NoneFell};
ghost use Rattle.pgr_outside.specs.Store.{ReadsAt};

use crate::fault::StoreFault;

/// A store of named files, read in pieces.
///
/// Its meanings are the content of each name, where it tells that, and for each name a count of faults
/// that never falls. Names are the bytes of their text.
pub trait Store {
    /// The content of each name, where the store tells it.
    ghost content: { Self → List ℕ → Option (List ℕ) };

    /// How many faults each name has had.
    ghost faults: { Self → List ℕ → ℕ };

    /// Reads the bytes of a file from the place `at` on into the front of `buf`, and answers how many.
    ///
    /// 0 for a buffer that isn't empty means the end. Of the buffer behind the count nothing is said, nor
    /// of the buffer after `Failed`. `Failed` comes only where the count of `name` rose. `Memory` may come
    /// at any call, and leaves the buffer as it was.
    fn read_at(&mut self, name: &str, at: u64, buf: &mut [u8]) -> Result<usize, StoreFault>
        ensures count { IfOk result (λ count. count ≤ length buf.new) }
        ensures bytes { IfOk result (λ count. IfSome (content self.old name.now) (λ told. ReadsAt told at buf.new count)) }
        ensures failed { IsErrOf result StoreFault.Failed → HasRisen (faults self.old name.now) (faults self.new name.now) }
        ensures memory { IsErrOf result StoreFault.Memory → buf.new ≡ buf.old }

        // What stays, for every name: contents, and counts do not fall.
        ensures content { content self.new ≡ content self.old }
        ensures faults { NoneFell (faults self.old) (faults self.new) };
}
