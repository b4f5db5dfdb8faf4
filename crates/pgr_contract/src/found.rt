ghost use Rattle.std.specs.Prelude.{◌≡◌, ℤ, ℕ, List, Some, None, OnOk};
ghost use Rattle.pgr_walks.specs.declared.link.LinkOf.{LinkOf};
ghost use Rattle.pgr_contract.specs.State.{State};
ghost use Rattle.pgr_contract.specs.Given.{HaveOpposites};
ghost use Rattle.pgr_contract.specs.Ways.{AreLow, AreSmall, HoldsWays, IsNear};
ghost use Rattle.pgr_contract.specs.Events.{IsEventOf, IsFound, IsPass, after};
ghost use Rattle.pgr_contract.specs.declared.event.Event.TheVariants.{Pass};
ghost use Rattle.pgr_words.specs.declared.method.Method.TheVariants.{DeadEnd, Linear};
ghost use Rattle.std.specs.Prelude.{◌<ℤ◌, ◌⊎◌, IsSome, Bool, true, false};

use crate::event::{Bypassed, Event, Folded};
use crate::ways::{Ways, cost_between, first_near, forget, lower, next_near, sum_of};
use pgr_outside::NoMemory;
use pgr_words::Method;

/// How a vertex goes by the method, or none where it doesn't qualify.
pub(crate) fn found_at(ways: &Ways, v: i64, method: Method) -> Option<Event>
    requires low { AreLow ways.now }
    requires small { AreSmall ways.now }
    ensures { (links : List (LinkOf ℤ)) → HoldsWays links ways.now → IsFound method links v result }
{
    let Some(first) = first_near(ways, v) else {
        return None;
    };
    match method {
        Method::DeadEnd => dead_end_at(ways, v, first),
        Method::Linear => linear_at(ways, v, first),
    }
}

/// How a vertex goes as a dead end, whose first neighbour is given.
fn dead_end_at(ways: &Ways, v: i64, first: i64) -> Option<Event>
    requires first { IsNear ways.now (λ _. Unit {0}) v (Some first) }
    ensures { (links : List (LinkOf ℤ)) → HoldsWays links ways.now → IsFound DeadEnd links v result }
{
    match next_near(ways, v, first) {
        None => Some(Event::End(Folded {
            vertex: v,
            into: first,
        })),
        Some(_) => None,
    }
}

/// How a vertex goes as a linear one, whose first neighbour is given.
fn linear_at(ways: &Ways, v: i64, first: i64) -> Option<Event>
    requires first { IsNear ways.now (λ _. Unit {0}) v (Some first) }
    requires small { AreSmall ways.now }
    ensures { (links : List (LinkOf ℤ)) → HoldsWays links ways.now → IsFound Linear links v result }
{
    let Some(second) = next_near(ways, v, first) else {
        return None;
    };
    match next_near(ways, v, second) {
        Some(_) => None,
        None => between(ways, v, first, second),
    }
}

/// How a vertex goes as a linear one, whose two neighbours are given.
fn between(ways: &Ways, v: i64, low: i64, high: i64) -> Option<Event>
    requires first { IsNear ways.now (λ _. Unit {0}) v (Some low) }
    requires second { IsNear ways.now (λ z. low <ℤ z) v (Some high) }
    requires no_third { IsNear ways.now (λ z. high <ℤ z) v None }
    requires small { AreSmall ways.now }
    ensures { (links : List (LinkOf ℤ)) → HoldsWays links ways.now → IsFound Linear links v result }
{
    let there = sum_of(cost_between(ways, low, v), cost_between(ways, v, high));
    let back = sum_of(cost_between(ways, high, v), cost_between(ways, v, low));
    if is_any(there, back) {
        Some(Event::Pass(Bypassed {
            vertex: v,
            low,
            high,
            there,
            back,
        }))
    } else {
        None
    }
}

/// Whether one of two costs is there.
fn is_any(a: Option<u64>, b: Option<u64>) -> bool
    ensures some { result ≡ true → IsSome a ⊎ IsSome b }
    ensures none { result ≡ false → (a ≡ None) × (b ≡ None) }
{
    match a {
        Some(_) => true,
        None => b.is_some(),
    }
}

/// Notes a step in the least costs of links.
pub(crate) fn take(ways: &mut Ways, event: Event) -> Result<(), NoMemory>
    ensures ways { OnOk result ((directed : Bool) (S : State)
        → (directed ≡ false → HaveOpposites S.links)
        → HoldsWays S.links ways.old
        → IsEventOf S.links event
        → HoldsWays (after directed S event).links ways.new) }
    ensures low { OnOk result (AreLow ways.old → AreLow ways.new) }
{
    match event {
        Event::End(folded) => {
            forget(ways, folded.vertex, folded.into);
            Ok(())
        }
        Event::Pass(passed) => pass(ways, passed),
    }
}

/// Notes that a linear vertex goes.
fn pass(ways: &mut Ways, passed: Bypassed) -> Result<(), NoMemory>
    ensures ways { OnOk result ((directed : Bool) (S : State)
        → (directed ≡ false → HaveOpposites S.links)
        → HoldsWays S.links ways.old
        → IsPass S.links passed
        → HoldsWays (after directed S (Pass passed)).links ways.new) }
    ensures low { OnOk result (AreLow ways.old → AreLow ways.new) }
{
    forget(ways, passed.vertex, passed.low);
    forget(ways, passed.vertex, passed.high);
    lower(ways, passed.low, passed.high, passed.there)?;
    lower(ways, passed.high, passed.low, passed.back)?;
    Ok(())
}
