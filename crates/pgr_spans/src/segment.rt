ghost use Rattle.std.specs.Prelude.{◌≡◌, ℕ, ◌<◌, map, All, IfOk, IsSome, length, slice_index_or, None};
ghost use Rattle.pgr_spans.specs.Segment.{segment_by};

use pgr_outside::NoMemory;
use pgr_walks::Link;
use std::alloc::Global;

/// A span by the places of its ends among the ids, and by their numbers in a forest.
#[derive(Clone, Copy, Debug, PartialEq, Eq)]
pub(crate) struct Segment {
    /// The id of its edge.
    pub edge: i64,
    /// The place of the one end.
    pub from: u32,
    /// The place of the other end.
    pub to: u32,
    /// The lesser number of its ends.
    pub near: u32,
    /// The greater number, the same for a loop.
    pub far: u32,
}

/// Each link with the numbers of its ends, in order.
///
/// `NoMemory` may come at any call.
pub(crate) fn segments_of(
    alloc: Global,
    links: &[Link],
    numbers: &[Option<u32>],
) -> Result<Vec<Segment>, NoMemory>
    requires ends { All (λ link. (link.from < length numbers.now) × (link.to < length numbers.now)) links.now }
    requires numbered { (v : ℕ) → v < length numbers.now → IsSome (slice_index_or numbers.now v None) }
    ensures { IfOk result (λ segments. segments.items ≡ map (segment_by numbers.now) links.now) }
{
    let mut segments = Vec::with_capacity(alloc, links.len()).map_err(|_| NoMemory)?;
    for link in links {
        segments
            .push(numbered(link, numbers))
            .map_err(|_| NoMemory)?;
    }
    Ok(segments)
}

/// A link with the numbers of its ends.
fn numbered(link: &Link, numbers: &[Option<u32>]) -> Segment
    requires from { link.now.from < length numbers.now }
    requires to { link.now.to < length numbers.now }
    requires numbered { (v : ℕ) → v < length numbers.now → IsSome (slice_index_or numbers.now v None) }
    ensures { result ≡ segment_by numbers.now link.now }
{
    let from = numbers[link.from as usize].unwrap();
    let to = numbers[link.to as usize].unwrap();
    Segment {
        edge: link.edge,
        from: link.from,
        to: link.to,
        near: from.min(to),
        far: from.max(to),
    }
}
