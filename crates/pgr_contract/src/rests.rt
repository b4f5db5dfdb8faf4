ghost use Rattle.std.specs.Prelude.{◌≡◌, ◌<◌, ℕ, ℤ, IfOk, OnOk, Some, if◌then◌else◌, slice_get};
ghost use Rattle.std.specs.BTreeMap.{get};
ghost use Rattle.std.specs.Ordering.{int_cmp, int_eq};
ghost use Rattle.pgr_contract.specs.Events as events;
ghost use Rattle.pgr_contract.specs.Held as held;

use crate::event::Event;
use crate::held::{Gone, Holder, Span};
use pgr_outside::NoMemory;
use std::alloc::Global;
use std::collections::BTreeMap;

/// The vertices that went, each with where what it held rests in the end.
pub(crate) type Rests = BTreeMap<i64, Gone>;

/// Where each vertex that went rests in the end, found from the last step to the first.
pub(crate) fn rests_of(alloc: Global, events: &[Event]) -> Result<Rests, NoMemory>
    ensures { IfOk result (λ rests. (x : ℤ) → get int_cmp rests x ≡ held.gone_from 0 events.now x) }
{
    let mut rests = BTreeMap::new(alloc);
    let mut place = events.len();
    while place > 0 {
        place -= 1;
        put_rest(&mut rests, place, events[place])?;
    }
    Ok(rests)
}

/// Notes where the vertex of a step rests, when those of all later steps are known.
fn put_rest(rests: &mut Rests, place: usize, event: Event) -> Result<(), NoMemory>
    ensures { OnOk result ((x : ℤ) → get int_cmp rests.new x
        ≡ (if int_eq x (events.vertex_of event)
        then Some (record { place = place; holder = held.resolved (get int_cmp rests.old) (held.holder_of event) })
        else get int_cmp rests.old x)) }
{
    let holder = resolve(rests, holder_of(event));
    rests.insert(vertex_of(event), Gone { place, holder })?;
    Ok(())
}

/// The vertex that went.
fn vertex_of(event: Event) -> i64
    ensures { result ≡ events.vertex_of event }
{
    match event {
        Event::End(folded) => folded.vertex,
        Event::Pass(passed) => passed.vertex,
    }
}

/// What holds what is left of it.
fn holder_of(event: Event) -> Holder
    ensures { result ≡ held.holder_of event }
{
    match event {
        Event::End(folded) => Holder::At(folded.into),
        Event::Pass(passed) => Holder::Over(Span {
            vertex: passed.vertex,
            low: passed.low,
            high: passed.high,
        }),
    }
}

/// How a vertex went, if it did.
pub(crate) fn gone_of(rests: &Rests, x: i64) -> Option<Gone>
    ensures { result ≡ get int_cmp rests.now x }
{
    match rests.get(&x) {
        None => None,
        Some(gone) => Some(*gone),
    }
}

/// Where a holder's things rest in the end.
fn resolve(rests: &Rests, holder: Holder) -> Holder
    ensures { result ≡ held.resolved (get int_cmp rests.now) holder }
{
    match holder {
        Holder::At(z) => earlier(holder, gone_of(rests, z), None),
        Holder::Over(span) => earlier(holder, gone_of(rests, span.low), gone_of(rests, span.high)),
    }
}

/// The earlier of two that went, if one did, and else the holder itself.
fn earlier(holder: Holder, first: Option<Gone>, second: Option<Gone>) -> Holder
    ensures { result ≡ held.earlier holder first second }
{
    match (first, second) {
        (None, None) => holder,
        (Some(gone), None) => gone.holder,
        (None, Some(gone)) => gone.holder,
        (Some(gone), Some(other)) => {
            if gone.place <= other.place {
                gone.holder
            } else {
                other.holder
            }
        }
    }
}
