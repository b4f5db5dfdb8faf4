ghost use Rattle.std.specs.Prelude.{◌≡◌, ◌<◌, ◌^◌, map, All, IfOk, length, slice_index, slice_index_or, None};
ghost use Rattle.std.specs.List.{flat_map};
ghost use Rattle.pgr_spans.specs.Forest.{ParentsFall};
ghost use Rattle.pgr_spans.specs.Segment.{IsSegmentBelow};
ghost use Rattle.pgr_spans.specs.Member.{entry_of, member_of, member_seen, AreFound};

use crate::low_points::low_points;
use crate::seen::{Entry, Seen, gather};
use crate::segment::Segment;
use crate::tops::tops_of;
use pgr_outside::NoMemory;
use std::alloc::Global;

/// A span by the places of its ends, with what is known of its block.
#[derive(Clone, Copy, Debug, PartialEq, Eq)]
pub(crate) struct Member {
    /// The id of its edge.
    pub edge: i64,
    /// The place of the one end.
    pub from: u32,
    /// The place of the other end.
    pub to: u32,
    /// The least edge id of its block.
    pub component: i64,
    /// Whether no other span is in its block.
    pub alone: bool,
}

/// Each segment with its block: the segments whose far ends have one top are a block, and a loop is one alone.
///
/// `NoMemory` may come at any call.
pub(crate) fn members_of(
    alloc: Global,
    parents: &[Option<u32>],
    segments: &[Segment],
) -> Result<Vec<Member>, NoMemory>
    requires few { length parents.now < 2 ^ 32 }
    requires falls { ParentsFall parents.now }
    requires below { All (IsSegmentBelow (length parents.now)) segments.now }
    ensures { IfOk result (λ members. AreFound parents.now segments.now members.items) }
{
    let lows = low_points(alloc, parents, segments)?;
    let tops = tops_of(alloc, parents, lows.as_slice())?;
    let entries = entries_of(alloc, tops.as_slice(), segments)?;
    let found = gather(alloc, parents.len(), entries.as_slice())?;
    each_member(alloc, tops.as_slice(), found.as_slice(), segments)
}

/// The edge of each segment that is no loop, under the top of its far end.
fn entries_of(alloc: Global, tops: &[u32], segments: &[Segment]) -> Result<Vec<Entry>, NoMemory>
    requires { All (IsSegmentBelow (length tops.now)) segments.now }
    ensures { IfOk result (λ entries. entries.items ≡ flat_map (entry_of tops.now) segments.now) }
{
    let mut entries = Vec::new(alloc);
    for segment in segments {
        if segment.near != segment.far {
            entries
                .push(Entry {
                    key: tops[segment.far as usize],
                    value: segment.edge,
                })
                .map_err(|_| NoMemory)?;
        }
    }
    Ok(entries)
}

/// Each segment with what was found under the top of its far end.
fn each_member(
    alloc: Global,
    tops: &[u32],
    found: &[Option<Seen>],
    segments: &[Segment],
) -> Result<Vec<Member>, NoMemory>
    requires segments { All (IsSegmentBelow (length tops.now)) segments.now }
    requires tops { All (λ top. top < length found.now) tops.now }
    ensures { IfOk result (λ members. members.items ≡ map (member_of tops.now found.now) segments.now) }
{
    let mut members = Vec::with_capacity(alloc, segments.len()).map_err(|_| NoMemory)?;
    for segment in segments {
        members
            .push(found_member(tops, found, segment))
            .map_err(|_| NoMemory)?;
    }
    Ok(members)
}

/// A segment with what was found under the top of its far end; a loop is alone.
fn found_member(tops: &[u32], found: &[Option<Seen>], segment: &Segment) -> Member
    requires segment { segment.now.far < length tops.now }
    requires tops { All (λ top. top < length found.now) tops.now }
    ensures { result ≡ member_of tops.now found.now segment.now }
{
    if segment.near == segment.far {
        return with_seen(segment, None);
    }
    with_seen(segment, found[tops[segment.far as usize] as usize])
}

/// A segment with what is known of the edges of its block, or alone in it.
fn with_seen(segment: &Segment, seen: Option<Seen>) -> Member
    ensures { result ≡ member_seen segment.now seen }
{
    let seen = match seen {
        None => Seen {
            first: segment.edge,
            same: true,
        },
        Some(seen) => seen,
    };
    Member {
        edge: segment.edge,
        from: segment.from,
        to: segment.to,
        component: seen.first,
        alone: seen.same,
    }
}
