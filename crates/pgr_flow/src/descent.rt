ghost use Rattle.std.specs.Prelude.{◌≡◌, ◌<◌, ◌≤◌, ◌+◌, ◌-◌, ◌^◌, None, Some, true, ℕ, All, IfSome, IfNone, IsSome, length};
ghost use Rattle.pgr_walks.specs.ListGraph.{HasEndsBelow};
ghost use Rattle.pgr_flow.specs.Flow.{AreWithin};
ghost use Rattle.pgr_flow.specs.Incidence.{HoldsIncidence};
ghost use Rattle.pgr_flow.specs.Levels.{level_at, labelled};
ghost use Rattle.pgr_flow.specs.Descent.{ArePointers, IsIntact, IsFalling, IsDescent, Fades, node};

use crate::incidence::Incidence;
use crate::residual::{Step, room};
use pgr_walks::Link;

/// Seeks a walk of residual links down the levels from the sink to a source, and returns its length.
///
/// The step from a level to the next stands at that level in `steps`. A vertex from which no such step leads down
/// loses its level, and no end of an arc is looked at twice.
pub(crate) fn find_walk(
    arcs: &[Link],
    flows: &[u64],
    incidence: &Incidence,
    sink: u32,
    levels: &mut [Option<u32>],
    next: &mut [usize],
    steps: &mut [Step],
) -> Option<u32>
    requires within { AreWithin arcs.now flows.now }
    requires below { All (HasEndsBelow (length levels.old)) arcs.now }
    requires incidence { HoldsIncidence (length levels.old) arcs.now incidence.now.starts.items incidence.now.list.items }
    requires sink { sink < length levels.old }
    requires low { (v level : ℕ) → level_at levels.old v ≡ Some level → level ≤ length steps.old }
    requires pointers { ArePointers (length levels.old) incidence.now.starts.items next.old }
    ensures fades { Fades levels.old levels.new }
    ensures pointers { ArePointers (length levels.old) incidence.now.starts.items next.new }
    ensures found { IfSome result (λ top. IsDescent arcs.now flows.now levels.new steps.new sink top 0 (node steps.new sink top 0)) }
    ensures intact { IsIntact arcs.now flows.now incidence.now.starts.items incidence.now.list.items levels.old next.old → labelled levels.old sink ≡ true → IsSome result }
    ensures without { level_at levels.old sink ≡ None → result ≡ None }
    ensures levels_stay { level_at levels.old sink ≡ None → levels.new ≡ levels.old }
    ensures next_stays { level_at levels.old sink ≡ None → next.new ≡ next.old }
{
    let top = levels[sink as usize]?;
    let mut at = sink;
    let mut level = top;
    while level > 0 {
        match next_into(arcs, flows, incidence, levels, next, at, level - 1) {
            Some(step) => {
                level -= 1;
                steps[level as usize] = step;
                at = step.from;
            }
            None => {
                levels[at as usize] = None;
                if level == top {
                    return None;
                }
                at = steps[level as usize].to;
                level += 1;
            }
        }
    }
    Some(top)
}

/// The next residual link into a vertex from one of the level, from where its pointer stands.
fn next_into(
    arcs: &[Link],
    flows: &[u64],
    incidence: &Incidence,
    levels: &[Option<u32>],
    next: &mut [usize],
    at: u32,
    level: u32,
) -> Option<Step>
    requires within { AreWithin arcs.now flows.now }
    requires below { All (HasEndsBelow (length levels.now)) arcs.now }
    requires incidence { HoldsIncidence (length levels.now) arcs.now incidence.now.starts.items incidence.now.list.items }
    requires pointers { ArePointers (length levels.now) incidence.now.starts.items next.old }
    requires at { at < length levels.now }
    requires at_level { level_at levels.now at ≡ Some (level + 1) }
    ensures pointers { ArePointers (length levels.now) incidence.now.starts.items next.new }
    ensures falling { IfSome result (λ step. IsFalling arcs.now flows.now levels.now level step) }
    ensures into { IfSome result (λ step. step.to ≡ at) }
    ensures intact { IfSome result (λ step. IsIntact arcs.now flows.now incidence.now.starts.items incidence.now.list.items levels.now next.old
        → IsIntact arcs.now flows.now incidence.now.starts.items incidence.now.list.items levels.now next.new) }
    ensures none { IfNone result (IsIntact arcs.now flows.now incidence.now.starts.items incidence.now.list.items levels.now next.old → ⊥) }
{
    let end = incidence.starts[at as usize + 1];
    for place in next[at as usize]..end {
        let incident = incidence.list[place];
        let way = incident.out.turned();
        if levels[incident.other as usize] == Some(level)
            && room(arcs, flows, incident.arc, way) > 0
        {
            next[at as usize] = place;
            return Some(Step {
                from: incident.other,
                to: at,
                arc: incident.arc,
                way,
            });
        }
    }
    next[at as usize] = end;
    None
}
