ghost use Rattle.std.specs.Prelude.{◌≡◌, ◌<◌, ◌+◌, IfOk, All, length};
ghost use Rattle.std.specs.List.Sorted.{IsNonDecreasingBy};
ghost use Rattle.pgr_walks.specs.ListGraph.{HasEndsBelow};
ghost use Rattle.pgr_flow.specs.declared.incidence.Incident.{Incident};
ghost use Rattle.pgr_flow.specs.Incidence as incidence;

use crate::residual::Way;
use pgr_outside::NoMemory;
use pgr_walks::Link;
use std::alloc::Global;

/// One of an arc's two ends, at the vertex where it is.
#[derive(Clone, Copy, Debug)]
pub(crate) struct Incident {
    /// The vertex where this end is.
    pub(crate) vertex: u32,
    /// The vertex where the other end is.
    pub(crate) other: u32,
    /// The place of the arc.
    pub(crate) arc: usize,
    /// How the arc is taken from this end to the other.
    pub(crate) out: Way,
}

/// The ends of all arcs in one list, those of each vertex together.
///
/// The part of `v` is that from `starts[v]` to before `starts[v + 1]`.
#[derive(Debug, Drop)]
pub(crate) struct Incidence {
    pub(crate) starts: Vec<usize>,
    pub(crate) list: Vec<Incident>,
}

impl Incidence {
    ghost use Rattle.pgr_flow.specs.Incidence.{HoldsIncidence};

    /// The ends of the arcs, whose ends are below the size. Work, not proved: a sort and two passes.
    pub(crate) fn of(alloc: Global, size: u32, arcs: &[Link]) -> Result<Incidence, NoMemory>
        requires { All (HasEndsBelow size) arcs.now }
        ensures { IfOk result (λ i. HoldsIncidence size arcs.now i.starts.items i.list.items) }
    {
        let mut list = ends_of(alloc, arcs)?;
        list.sort_unstable_by_key(|incident| incident.vertex);
        let starts = beginnings(alloc, size, &list)?;
        Ok(Incidence { starts, list })
    }
}

/// Both ends of each arc.
fn ends_of(alloc: Global, arcs: &[Link]) -> Result<Vec<Incident>, NoMemory>
    ensures { IfOk result (λ list. incidence.HoldsEnds arcs.now (length arcs.now) list.items) }
{
    let mut list = Vec::new(alloc);
    for (place, arc) in arcs.iter().enumerate() {
        list.push(Incident {
            vertex: arc.from,
            other: arc.to,
            arc: place,
            out: Way::Along,
        })?;
        list.push(Incident {
            vertex: arc.to,
            other: arc.from,
            arc: place,
            out: Way::Against,
        })?;
    }
    Ok(list)
}

/// The place where the ends at each vertex below the size begin, and at last the end of the list.
fn beginnings(alloc: Global, size: u32, list: &[Incident]) -> Result<Vec<usize>, NoMemory>
    requires { IsNonDecreasingBy (λ (i : Incident). i.vertex) list.now }
    ensures { IfOk result (λ starts. incidence.AreBeginnings size list.now starts.items) }
{
    let mut starts = Vec::with_capacity(alloc, size as usize + 1)?;
    let mut place = 0;
    for v in 0..size {
        starts.push(place)?;
        place = end_of_part(list, v, place);
    }
    starts.push(place)?;
    Ok(starts)
}

/// Where the ends at `v` end, which begin at `start`.
fn end_of_part(list: &[Incident], v: u32, start: usize) -> usize
    requires sorted { IsNonDecreasingBy (λ (i : Incident). i.vertex) list.now }
    requires start { incidence.IsBeginning list.now v start }
    ensures { incidence.IsBeginning list.now (v + 1) result }
{
    let mut place = start;
    while place < list.len() && list[place].vertex <= v {
        place += 1;
    }
    place
}
