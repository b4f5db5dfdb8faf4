ghost use Rattle.std.specs.Prelude.{◌≡◌, ◌==◌, ◌+◌, ◌<◌, length, filter, slice_index_or, IfOk};
ghost use Rattle.std.specs.List.Sorted.{IsNonDecreasingBy};
ghost use Rattle.pgr_walks.specs.Parts.{IsBeginning, AreBeginnings};

use crate::link::Link;
use crate::side::Side;
use pgr_outside::NoMemory;
use std::alloc::Global;

/// The place where the links of each vertex below the size begin, and at last the place behind those of all of them.
///
/// The links stand by vertex. Work, not proved: one pass.
pub(crate) fn beginnings<S: Side>(
    alloc: Global,
    size: u32,
    links: &[Link],
) -> Result<Vec<usize>, NoMemory>
    requires { IsNonDecreasingBy S.vertex links.now }
    ensures { IfOk result (λ places. AreBeginnings S.vertex size links.now places.items) }
{
    let mut places = Vec::with_capacity(alloc, size as usize + 1)?;
    let mut place = 0;
    for v in 0..size {
        places.push(place)?;
        place = end_of_part::<S>(links, v, place);
    }
    places.push(place)?;
    Ok(places)
}

/// Where the links of `v` end, which begin at `start`.
fn end_of_part<S: Side>(links: &[Link], v: u32, start: usize) -> usize
    requires sorted { IsNonDecreasingBy S.vertex links.now }
    requires start { IsBeginning S.vertex links.now v start }
    ensures { IsBeginning S.vertex links.now (v + 1) result }
{
    let mut place = start;
    while place < links.len() && S::vertex(&links[place]) <= v {
        place += 1;
    }
    place
}

/// The links of `v`.
pub(crate) fn part<'a, S: Side>(links: &'a [Link], places: &[usize], v: u32) -> &'a [Link]
    requires next { v + 1 < length places.now }
    requires start { IsBeginning S.vertex links.now v (slice_index_or places.now v 0) }
    requires end { IsBeginning S.vertex links.now (v + 1) (slice_index_or places.now (v + 1) 0) }
    ensures { result.now ≡ filter (λ link. S.vertex link == v) links.now }
{
    let start = places[v as usize];
    let end = places[v as usize + 1];
    &links[start..end]
}
