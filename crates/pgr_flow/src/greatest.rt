ghost use Rattle.std.specs.Prelude.{◌≡◌, ◌<◌, ◌≤◌, ◌^◌, ℕ, OnOk, All, Contains, IfOk, is_some, length, map, nat_eq, sum_by};
ghost use Rattle.pgr_outside.specs.Limits.{greatest};
ghost use Rattle.pgr_walks.specs.declared.link.LinkOf.{LinkOf};
ghost use Rattle.pgr_walks.specs.ListGraph.{HasEndsBelow};
ghost use Rattle.pgr_flow.specs.Flow.{IsFlow, HasValue, IsGreatestValue, among};
ghost use Rattle.pgr_flow.specs.Incidence.{HoldsIncidence};
ghost use Rattle.pgr_flow.specs.Levels.{AreLevels, NoneIsLabelled, AreClosed};
ghost use Rattle.pgr_flow.specs.Cut.{IsLeastSide, capacity_of, marked};

use crate::augmenting::augment_all;
use crate::incidence::Incidence;
use crate::levels::{find_levels, is_any_labelled};
use crate::net::Net;
use crate::residual::{Step, Way};
use pgr_outside::NoMemory;
use pgr_walks::Link;
use std::alloc::Global;

/// A greatest flow of a network, and its least cut.
#[derive(Debug, Drop)]
pub struct FlowCut {
    /// The value of the flow, and the capacity of the cut.
    pub value: u64,
    /// The flow of each arc, in the order of the arcs.
    pub flows: Vec<u64>,
    /// For each vertex whether it is on the source side of the cut.
    pub side: Vec<bool>,
}

/// A greatest flow from the sources to the sinks, and the least source side of a cut of its capacity.
///
/// Sources and sinks are below the size, and no vertex is both. A list may be empty, and then the value is 0; it may
/// repeat itself, which changes nothing. The value is what leaves the set of sources less what comes into it; no flow
/// has a greater one. The side has every source and no sink, its capacity is the value, and it is a subset of every
/// other cut of that capacity. `NoMemory` may come at any call.
/// Source: Ford and Fulkerson 1956; Dinic 1970. Work, not proved: few passes over the arcs in practice.
pub fn greatest_flow(
    alloc: Global,
    net: &Net,
    sources: &[u32],
    sinks: &[u32],
) -> Result<FlowCut, NoMemory>
    requires sources { All (λ v. v < net.now.size) sources.now }
    requires sinks { All (λ v. v < net.now.size) sinks.now }
    requires apart { (v : ℕ) → Contains sources.now v → Contains sinks.now v → ⊥ }
    ensures flow { IfOk result (λ found. IsFlow nat_eq net.now.arcs (among nat_eq sources.now) (among nat_eq sinks.now) found.flows.items) }
    ensures value { IfOk result (λ found. HasValue net.now.arcs (among nat_eq sources.now) found.flows.items found.value) }
    ensures greatest { IfOk result (λ found. IsGreatestValue nat_eq net.now.arcs (among nat_eq sources.now) (among nat_eq sinks.now) found.value) }
    ensures marks { IfOk result (λ found. length found.side.items ≡ net.now.size) }
    ensures side { IfOk result (λ found. IsLeastSide net.now.arcs (among nat_eq sources.now) (among nat_eq sinks.now) (marked found.side.items)) }
    ensures capacity { IfOk result (λ found. capacity_of (marked found.side.items) net.now.arcs ≡ found.value) }
{
    let arcs = net.arcs();
    let incidence = Incidence::of(alloc, net.size(), arcs)?;
    let mut flows = vec![in alloc; 0u64; arcs.len()]?;
    let mut levels = vec![in alloc; None; net.size() as usize]?;
    saturate(
        alloc,
        arcs,
        &incidence,
        sources,
        sinks,
        &mut flows,
        &mut levels,
    )?;
    let side = marks_of(alloc, &levels)?;
    let value = capacity(arcs, &side);
    Ok(FlowCut { value, flows, side })
}

/// Adds flow in phases, until the last search from the sources meets no sink.
///
/// A phase is a search, and walks down its levels.
fn saturate(
    alloc: Global,
    arcs: &[Link],
    incidence: &Incidence,
    sources: &[u32],
    sinks: &[u32],
    flows: &mut [u64],
    levels: &mut [Option<u32>],
) -> Result<(), NoMemory>
    requires flow { IsFlow nat_eq arcs.now (among nat_eq sources.now) (among nat_eq sinks.now) flows.old }
    requires below { All (HasEndsBelow (length levels.old)) arcs.now }
    requires incidence { HoldsIncidence (length levels.old) arcs.now incidence.now.starts.items incidence.now.list.items }
    requires small { length levels.old < 2 ^ 32 }
    requires sources { All (λ v. v < length levels.old) sources.now }
    requires sinks { All (λ v. v < length levels.old) sinks.now }
    requires apart { (v : ℕ) → Contains sources.now v → Contains sinks.now v → ⊥ }
    ensures flow { OnOk result (IsFlow nat_eq arcs.now (among nat_eq sources.now) (among nat_eq sinks.now) flows.new) }
    ensures levels { OnOk result (AreLevels arcs.now flows.new (among nat_eq sources.now) (length levels.old) levels.new) }
    ensures none { OnOk result (NoneIsLabelled sinks.now levels.new) }
    ensures closed { OnOk result (AreClosed arcs.now flows.new levels.new) }
{
    let mut queue = Vec::with_capacity(alloc, levels.len())?;
    let mut next = Vec::from_slice(alloc, &incidence.starts)?;
    let mut steps = vec![in alloc; NO_STEP; levels.len()].map_err(|_| NoMemory)?;
    find_levels(arcs, flows, incidence, sources, sinks, levels, &mut queue)?;
    while is_any_labelled(sinks, levels) {
        next.copy_from_slice(&incidence.starts);
        augment_all(arcs, incidence, sinks, flows, levels, &mut next, &mut steps);
        find_levels(arcs, flows, incidence, sources, sinks, levels, &mut queue)?;
    }
    Ok(())
}

/// What stands at a level at which no walk was sought yet.
const NO_STEP: Step = Step {
    from: 0,
    to: 0,
    arc: 0,
    way: Way::Along,
};

/// Which vertices have a level.
fn marks_of(alloc: Global, levels: &[Option<u32>]) -> Result<Vec<bool>, NoMemory>
    ensures { IfOk result (λ marks. marks.items ≡ map is_some levels.now) }
{
    let mut marks = Vec::with_capacity(alloc, levels.len())?;
    for level in levels {
        marks.push(level.is_some())?;
    }
    Ok(marks)
}

/// The sum of the capacities of the arcs that lead out of the marked vertices.
fn capacity(arcs: &[Link], side: &[bool]) -> u64
    requires below { All (HasEndsBelow (length side.now)) arcs.now }
    requires fits { sum_by (λ (arc : LinkOf ℕ). arc.cost) arcs.now ≤ greatest }
    ensures { result ≡ capacity_of (marked side.now) arcs.now }
{
    let mut sum = 0;
    for arc in arcs {
        if side[arc.from as usize] && !side[arc.to as usize] {
            sum += arc.cost;
        }
    }
    sum
}
