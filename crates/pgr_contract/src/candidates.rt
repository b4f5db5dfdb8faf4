ghost use Rattle.std.specs.Prelude.{◌≡◌, ◌↔◌, ◌++◌, ◌∷◌, [], ℤ, List, OnOk, IfOk, Contains};
ghost use Rattle.pgr_walks.specs.declared.link.LinkOf.{LinkOf};
ghost use Rattle.pgr_contract.specs.Ways.{AreLow, AreSmall, HoldsWays};
ghost use Rattle.pgr_contract.specs.Candidates.{Among, AreAdded, AreEndsIn, IsAdded, IsNextOf};
ghost use Rattle.pgr_contract.specs.State.{ends_of};

use crate::event::Event;
use crate::found::found_at;
use crate::ways::Ways;
use pgr_outside::NoMemory;
use pgr_walks::NamedLink;
use pgr_words::Method;
use std::alloc::Global;
use std::collections::BTreeSet;

/// Takes the least candidate that qualifies, with those before it, which don't.
pub(crate) fn next_of(ways: &Ways, candidates: &mut BTreeSet<i64>, method: Method) -> Option<Event>
    requires low { AreLow ways.now }
    requires small { AreSmall ways.now }
    ensures { (links : List (LinkOf ℤ)) → HoldsWays links ways.now → IsNextOf method links candidates.old candidates.new result }
{
    while let Some(v) = candidates.pop_first() {
        if let Some(event) = found_at(ways, v, method) {
            return Some(event);
        }
    }
    None
}

/// Adds an id, unless it is barred.
fn add(set: &mut BTreeSet<i64>, barred: &BTreeSet<i64>, id: i64) -> Result<(), NoMemory>
    ensures { OnOk result (IsAdded barred.now id set.old set.new) }
{
    if !barred.contains(&id) {
        set.insert(id)?;
    }
    Ok(())
}

/// Adds the neighbours of a vertex that went, unless they are barred.
pub(crate) fn add_beside(
    set: &mut BTreeSet<i64>,
    barred: &BTreeSet<i64>,
    event: Event,
) -> Result<(), NoMemory>
    ensures { OnOk result (AreAdded barred.now event set.old set.new) }
{
    match event {
        Event::End(folded) => add(set, barred, folded.into),
        Event::Pass(passed) => {
            add(set, barred, passed.low)?;
            add(set, barred, passed.high)
        }
    }
}

/// Adds both ends of a link, unless they are barred.
fn add_ends(
    set: &mut BTreeSet<i64>,
    barred: &BTreeSet<i64>,
    link: &NamedLink,
) -> Result<(), NoMemory>
    ensures { OnOk result ((links : List (LinkOf ℤ)) → AreEndsIn links barred.now set.old → AreEndsIn (links ++ link.now ∷ []) barred.now set.new) }
{
    add(set, barred, link.from)?;
    add(set, barred, link.to)?;
    Ok(())
}

/// All ends of links, unless they are barred.
pub(crate) fn candidates_of(
    alloc: Global,
    links: &[NamedLink],
    barred: &BTreeSet<i64>,
) -> Result<BTreeSet<i64>, NoMemory>
    ensures all { IfOk result (λ set. (x : ℤ) → Contains (ends_of links.now) x → ¬ Among barred.now x → Among set x) }
    ensures allowed { IfOk result (λ set. (x : ℤ) → Among set x → ¬ Among barred.now x) }
{
    let mut set = BTreeSet::new(alloc);
    for link in links {
        add_ends(&mut set, barred, link)?;
    }
    Ok(set)
}

/// The ids of a list as a set.
pub(crate) fn set_of(alloc: Global, ids: &[i64]) -> Result<BTreeSet<i64>, NoMemory>
    ensures { IfOk result (λ set. (x : ℤ) → Among set x ↔ Contains ids.now x) }
{
    let mut set = BTreeSet::new(alloc);
    for id in ids {
        set.insert(*id)?;
    }
    Ok(set)
}
