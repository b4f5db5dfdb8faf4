ghost use Rattle.std.specs.Prelude.{◌≡◌, ◌+◌, ◌^◌, ◌<◌, ◌≤◌, length, vec_len, IfOk, IfSome, IsErrOf};
ghost use Rattle.pgr_outside.specs.Faults.{HasRisen, NoneFell};
ghost use Rattle.pgr_outside.specs.Store.{AddsPiece};

use crate::fault::StoreFault;
use crate::store::Store;
use std::alloc::{AllocError, Global};
use thiserror::Error;

/// Why a file wasn't read whole.
#[derive(Clone, Copy, Debug, PartialEq, Eq, Drop, Error)]
pub enum ReadRefused {
    /// A read failed outside: only where the count of that name rose in this call.
    #[error("read failed")]
    Failed,
    /// The content has more bytes than the limit.
    #[error("file too long")]
    TooLong,
    /// Memory was wanting.
    #[error("want of memory")]
    Memory,
}

impl From<StoreFault> for ReadRefused {
    ghost use Rattle.std.specs.Prelude.{◌≡◌};
    ghost use Rattle.pgr_outside.specs.Reading.{refusal_of};

    ghost from_gives = { λ fault refused. refused ≡ refusal_of fault };

    fn from(fault: StoreFault) -> ReadRefused {
        match fault {
            StoreFault::Failed => ReadRefused::Failed,
            StoreFault::Memory => ReadRefused::Memory,
        }
    }
}

impl From<AllocError> for ReadRefused {
    ghost use Rattle.std.specs.Prelude.{◌≡◌};
    ghost use Rattle.pgr_outside.specs.declared.reading.ReadRefused.TheVariants.{Memory};

    ghost from_gives = { λ _ refused. refused ≡ Memory };

    fn from(_: AllocError) -> ReadRefused {
        ReadRefused::Memory
    }
}

/// The most bytes that one read asks for.
const PIECE: usize = 65536;

/// A buffer of so many bytes.
fn make_buffer(alloc: Global, len: usize) -> Result<Vec<u8>, AllocError>
    ensures { IfOk result (λ buffer. vec_len buffer ≡ len) }
{
    vec![in alloc; 0u8; len]
}

/// Reads the next piece of a file, adds it to the bytes before it, and answers how long it is.
fn add_piece<S: Store>(
    store: &mut S,
    name: &str,
    piece: &mut [u8],
    bytes: &mut Vec<u8>,
) -> Result<usize, ReadRefused>
    ensures at_most { IfOk result (λ count. count ≤ length piece.old) }
    ensures len { IfOk result (λ count. vec_len bytes.new ≡ vec_len bytes.old + count) }
    ensures added { IfOk result (λ count. IfSome (S.content store.old name.now)
        (λ told. AddsPiece told bytes.old.items bytes.new.items count)) }
    ensures ended { IfOk result (λ count. IfSome (S.content store.old name.now)
        (λ told. count ≡ 0 → 0 < length piece.old → length told ≤ vec_len bytes.old)) }
    ensures not_too_long { ¬ IsErrOf result ReadRefused.TooLong }
    ensures failed { IsErrOf result ReadRefused.Failed → HasRisen (S.faults store.old name.now) (S.faults store.new name.now) }

    // What stays, for every name.
    ensures content { S.content store.new ≡ S.content store.old }
    ensures faults { NoneFell (S.faults store.old) (S.faults store.new) }
{
    let count = store.read_at(name, bytes.len() as u64, piece)?;
    bytes.extend_from_slice(&piece[..count])?;
    Ok(count)
}

/// The whole content of a file, if it has at most `limit` bytes.
///
/// `Failed` comes only where the count of `name` rose in this call. Over told content `TooLong` comes
/// exactly where it has more than `limit` bytes. `Memory` may come at any call.
pub fn read_file<S: Store>(
    alloc: Global,
    store: &mut S,
    name: &str,
    limit: u64,
) -> Result<Vec<u8>, ReadRefused>
    requires { limit < 2 ^ 63 }
    ensures whole { IfOk result (λ bytes. IfSome (S.content store.old name.now) (λ told. bytes.items ≡ told)) }
    ensures within { IfOk result (λ bytes. vec_len bytes ≤ limit) }
    ensures too_long { IsErrOf result ReadRefused.TooLong → IfSome (S.content store.old name.now) (λ told. limit < length told) }
    ensures failed { IsErrOf result ReadRefused.Failed → HasRisen (S.faults store.old name.now) (S.faults store.new name.now) }

    // What stays, for every name.
    ensures content { S.content store.new ≡ S.content store.old }
    ensures faults { NoneFell (S.faults store.old) (S.faults store.new) }
{
    let mut piece = make_buffer(alloc, PIECE)?;
    let mut bytes = Vec::new(alloc);
    while bytes.len() as u64 <= limit {
        // One byte past the limit tells that the content is too long.
        let wanted = (limit + 1 - bytes.len() as u64).min(PIECE as u64) as usize;
        if add_piece(store, name, &mut piece[..wanted], &mut bytes)? == 0 {
            return Ok(bytes);
        }
    }
    Err(ReadRefused::TooLong)
}
