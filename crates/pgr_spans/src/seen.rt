ghost use Rattle.std.specs.Prelude.{◌≡◌, ◌<◌, Some, None, All, IfOk, length, slice_index_or, slice_set};
ghost use Rattle.pgr_spans.specs.Seen.{AreSeen, seen_next};

use pgr_outside::NoMemory;
use std::alloc::Global;

/// A value under a key.
#[derive(Clone, Copy, Debug, PartialEq, Eq)]
pub(crate) struct Entry {
    /// The key, a number below some size.
    pub key: u32,
    /// The value.
    pub value: i64,
}

/// What is known of the values under one key.
#[derive(Clone, Copy, Debug, PartialEq, Eq)]
pub(crate) struct Seen {
    /// The first of them.
    pub first: i64,
    /// Whether all others are the same.
    pub same: bool,
}

/// What is known of the values under each key, in one pass over the entries; none under a key without entries.
///
/// `NoMemory` may come at any call.
pub(crate) fn gather(
    alloc: Global,
    size: usize,
    entries: &[Entry],
) -> Result<Vec<Option<Seen>>, NoMemory>
    requires { All (λ entry. entry.key < size) entries.now }
    ensures { IfOk result (λ found. AreSeen size entries.now found.items) }
{
    let mut found = vec![in alloc; None; size].map_err(|_| NoMemory)?;
    for entry in entries {
        note(found.as_mut_slice(), *entry);
    }
    Ok(found)
}

/// Notes one more entry.
fn note(found: &mut [Option<Seen>], entry: Entry)
    requires { entry.key < length found.old }
    ensures { found.new ≡ slice_set found.old entry.key (Some (seen_next (slice_index_or found.old entry.key None) entry.value)) }
{
    let before = found[entry.key as usize];
    found[entry.key as usize] = Some(next(before, entry.value));
}

/// What is known of the values under a key with one more value.
fn next(before: Option<Seen>, value: i64) -> Seen
    ensures { result ≡ seen_next before value }
{
    match before {
        None => Seen {
            first: value,
            same: true,
        },
        Some(seen) => Seen {
            first: seen.first,
            same: seen.same && seen.first == value,
        },
    }
}
