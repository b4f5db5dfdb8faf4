ghost use Rattle.std.specs.Prelude.{◌≡◌, ◌<◌, ◌≤◌, true, false, None, Some, ℕ, Bool, All, length, slice_index, nat_eq};
ghost use Rattle.pgr_walks.specs.ListGraph.{HasEndsBelow};
ghost use Rattle.pgr_flow.specs.Flow.{AreWithin, IsFlow};
ghost use Rattle.pgr_flow.specs.Incidence.{HoldsIncidence};
ghost use Rattle.pgr_flow.specs.Levels.{level_at, labelled};
ghost use Rattle.pgr_flow.specs.Descent.{ArePointers, IsIntact, Fades};
ghost use Rattle.pgr_flow.specs.Sending.{RisesTo, RisesAbove, AreRooted};

use crate::descent::find_walk;
use crate::incidence::Incidence;
use crate::residual::Step;
use crate::sending::send_over_walk;
use pgr_walks::Link;

/// Adds flow over walks down the levels from each sink in turn, until each has no more.
pub(crate) fn augment_all(
    arcs: &[Link],
    incidence: &Incidence,
    sinks: &[u32],
    flows: &mut [u64],
    levels: &mut [Option<u32>],
    next: &mut [usize],
    steps: &mut [Step],
)
    requires within { AreWithin arcs.now flows.old }
    requires below { All (HasEndsBelow (length levels.old)) arcs.now }
    requires incidence { HoldsIncidence (length levels.old) arcs.now incidence.now.starts.items incidence.now.list.items }
    requires sinks { All (λ v. v < length levels.old) sinks.now }
    requires apart { (k : ℕ) → k < length sinks.now → level_at levels.old (slice_index sinks.now k) ≡ Some 0 → ⊥ }
    requires low { (v level : ℕ) → level_at levels.old v ≡ Some level → level ≤ length steps.old }
    requires pointers { ArePointers (length levels.old) incidence.now.starts.items next.old }
    ensures within { AreWithin arcs.now flows.new }
    ensures flow { (source sink : ℕ → Bool) → AreRooted source levels.old → ((k : ℕ) → k < length sinks.now → sink (slice_index sinks.now k) ≡ true)
        → IsFlow nat_eq arcs.now source sink flows.old → IsFlow nat_eq arcs.now source sink flows.new }
    ensures rises { (source : ℕ → Bool) → AreRooted source levels.old → ((k : ℕ) → k < length sinks.now → source (slice_index sinks.now k) ≡ false)
        → RisesTo arcs.now source flows.old flows.new }
    ensures above { (source : ℕ → Bool) → AreRooted source levels.old → ((k : ℕ) → k < length sinks.now → source (slice_index sinks.now k) ≡ false)
        → IsIntact arcs.now flows.old incidence.now.starts.items incidence.now.list.items levels.old next.old
        → (k : ℕ) → k < length sinks.now → labelled levels.old (slice_index sinks.now k) ≡ true → RisesAbove arcs.now source flows.old flows.new }
{
    for sink in sinks {
        augment(arcs, incidence, *sink, flows, levels, next, steps);
    }
}

/// Adds flow over walks down the levels from a sink, until there are no more.
fn augment(
    arcs: &[Link],
    incidence: &Incidence,
    sink: u32,
    flows: &mut [u64],
    levels: &mut [Option<u32>],
    next: &mut [usize],
    steps: &mut [Step],
)
    requires within { AreWithin arcs.now flows.old }
    requires below { All (HasEndsBelow (length levels.old)) arcs.now }
    requires incidence { HoldsIncidence (length levels.old) arcs.now incidence.now.starts.items incidence.now.list.items }
    requires sink { sink < length levels.old }
    requires apart { level_at levels.old sink ≡ Some 0 → ⊥ }
    requires low { (v level : ℕ) → level_at levels.old v ≡ Some level → level ≤ length steps.old }
    requires pointers { ArePointers (length levels.old) incidence.now.starts.items next.old }
    ensures within { AreWithin arcs.now flows.new }
    ensures fades { Fades levels.old levels.new }
    ensures pointers { ArePointers (length levels.old) incidence.now.starts.items next.new }
    ensures flow { (source other : ℕ → Bool) → AreRooted source levels.old → other sink ≡ true
        → IsFlow nat_eq arcs.now source other flows.old → IsFlow nat_eq arcs.now source other flows.new }
    ensures rises { (source : ℕ → Bool) → AreRooted source levels.old → source sink ≡ false → RisesTo arcs.now source flows.old flows.new }
    ensures above { (source : ℕ → Bool) → AreRooted source levels.old → source sink ≡ false
        → IsIntact arcs.now flows.old incidence.now.starts.items incidence.now.list.items levels.old next.old → labelled levels.old sink ≡ true
        → RisesAbove arcs.now source flows.old flows.new }
    ensures flows_stay { level_at levels.old sink ≡ None → flows.new ≡ flows.old }
    ensures levels_stay { level_at levels.old sink ≡ None → levels.new ≡ levels.old }
    ensures next_stays { level_at levels.old sink ≡ None → next.new ≡ next.old }
{
    while let Some(top) = find_walk(arcs, flows, incidence, sink, levels, next, steps) {
        send_over_walk(arcs, flows, &steps[..top as usize]);
    }
}
