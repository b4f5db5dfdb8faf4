ghost use Rattle.std.specs.Prelude.{◌≡◌, ◌<◌, ◌≤◌, ◌+◌, ◌^◌, ◌++◌, ◌∷◌, ◌↔◌, [], IsTrue, Some, None, true, ℕ, All, OnOk, nat_eq, length, slice_set, slice_index};
ghost use Rattle.std.specs.Bool.{OnTrue, OnFalse};
ghost use Rattle.pgr_walks.specs.ListGraph.{HasEndsBelow};
ghost use Rattle.pgr_flow.specs.Flow.{AreWithin, among};
ghost use Rattle.pgr_flow.specs.Incidence.{HoldsIncidence};
ghost use Rattle.pgr_flow.specs.Levels.{level_at, labelled, IsSearched, AreLevels, AreLabelledUpTo, NoneIsLabelled, AreClosed, Grows};

use crate::incidence::Incidence;
use crate::residual::room;
use pgr_outside::NoMemory;
use pgr_walks::Link;

/// Gives each vertex that residual links lead to from the sources its level, until all sinks have one.
///
/// Levels count from the sources. Where no sink gets a level, no residual link leads out of the vertices with one.
/// Work, not proved: one pass over the arcs.
pub(crate) fn find_levels(
    arcs: &[Link],
    flows: &[u64],
    incidence: &Incidence,
    sources: &[u32],
    sinks: &[u32],
    levels: &mut [Option<u32>],
    queue: &mut Vec<u32>,
) -> Result<(), NoMemory>
    requires within { AreWithin arcs.now flows.now }
    requires below { All (HasEndsBelow (length levels.old)) arcs.now }
    requires incidence { HoldsIncidence (length levels.old) arcs.now incidence.now.starts.items incidence.now.list.items }
    requires small { length levels.old < 2 ^ 32 }
    requires sources { All (λ v. v < length levels.old) sources.now }
    requires sinks { All (λ v. v < length levels.old) sinks.now }
    ensures levels { OnOk result (AreLevels arcs.now flows.now (among nat_eq sources.now) (length levels.old) levels.new) }
    ensures closed { OnOk result (NoneIsLabelled sinks.now levels.new → AreClosed arcs.now flows.now levels.new) }
{
    levels.fill(None);
    queue.clear();
    label_sources(arcs, flows, sources, levels, queue)?;
    let mut head = 0;
    let mut reached = skip_labelled(sinks, levels, 0);
    while head < queue.len() && (reached == 0 || reached < sinks.len()) {
        pass(arcs, flows, incidence, sources, head, levels, queue)?;
        head += 1;
        reached = skip_labelled(sinks, levels, reached);
    }
    Ok(())
}

/// Gives each source level 0.
fn label_sources(
    arcs: &[Link],
    flows: &[u64],
    sources: &[u32],
    levels: &mut [Option<u32>],
    queue: &mut Vec<u32>,
) -> Result<(), NoMemory>
    requires sources { All (λ v. v < length levels.old) sources.now }
    requires none { (v : ℕ) → level_at levels.old v ≡ None }
    requires empty { queue.old.items ≡ [] }
    ensures searched { OnOk result (IsSearched arcs.now flows.now (among nat_eq sources.now) (length levels.old) levels.new queue.new.items 0 0) }
    ensures sources { OnOk result (AreLabelledUpTo sources.now levels.new (length sources.now)) }
{
    for source in sources {
        if levels[*source as usize].is_none() {
            label(levels, queue, *source, 0)?;
        }
    }
    Ok(())
}

/// Gives a vertex a level, and puts it behind the queue.
fn label(
    levels: &mut [Option<u32>],
    queue: &mut Vec<u32>,
    v: u32,
    level: u32,
) -> Result<(), NoMemory>
    requires { v < length levels.old }
    ensures levels { OnOk result (levels.new ≡ slice_set levels.old v (Some level)) }
    ensures queue { OnOk result (queue.new.items ≡ queue.old.items ++ v ∷ []) }
{
    levels[v as usize] = Some(level);
    queue.push(v).map_err(|_| NoMemory)
}

/// Gives each vertex without a level that residual links lead to from the vertex at a place of the queue the next level.
fn pass(
    arcs: &[Link],
    flows: &[u64],
    incidence: &Incidence,
    sources: &[u32],
    head: usize,
    levels: &mut [Option<u32>],
    queue: &mut Vec<u32>,
) -> Result<(), NoMemory>
    requires within { AreWithin arcs.now flows.now }
    requires below { All (HasEndsBelow (length levels.old)) arcs.now }
    requires incidence { HoldsIncidence (length levels.old) arcs.now incidence.now.starts.items incidence.now.list.items }
    requires small { length levels.old < 2 ^ 32 }
    requires head { head < length queue.old.items }
    requires searched { IsSearched arcs.now flows.now (among nat_eq sources.now) (length levels.old) levels.old queue.old.items head head }
    ensures searched { OnOk result (IsSearched arcs.now flows.now (among nat_eq sources.now) (length levels.old) levels.new queue.new.items (head + 1) (head + 1)) }
    ensures grows { OnOk result (Grows levels.old levels.new) }
    ensures head { OnOk result (head < length queue.new.items) }
{
    let v = queue[head];
    let level = levels[v as usize].unwrap();
    let start = incidence.starts[v as usize];
    let end = incidence.starts[v as usize + 1];
    for place in start..end {
        let incident = incidence.list[place];
        if levels[incident.other as usize].is_none()
            && room(arcs, flows, incident.arc, incident.out) > 0
        {
            label(levels, queue, incident.other, level + 1)?;
        }
    }
    Ok(())
}

/// How many of the sinks in front have levels, where the first `reached` have.
fn skip_labelled(sinks: &[u32], levels: &[Option<u32>], reached: usize) -> usize
    requires sinks { All (λ v. v < length levels.now) sinks.now }
    requires some { AreLabelledUpTo sinks.now levels.now reached }
    requires reached { reached ≤ length sinks.now }
    ensures more { result ≤ length sinks.now }
    ensures all { AreLabelledUpTo sinks.now levels.now result }
{
    let mut reached = reached;
    while reached < sinks.len() && levels[sinks[reached] as usize].is_some() {
        reached += 1;
    }
    reached
}

/// Whether some vertex of the list has a level.
pub(crate) fn is_any_labelled(list: &[u32], levels: &[Option<u32>]) -> bool
    requires { All (λ v. v < length levels.now) list.now }
    ensures some { OnTrue result ((k : ℕ) × (k < length list.now) × (labelled levels.now (slice_index list.now k) ≡ true)) }
    ensures none { OnFalse result (NoneIsLabelled list.now levels.now) }
{
    for v in list {
        if levels[*v as usize].is_some() {
            return true;
        }
    }
    false
}
