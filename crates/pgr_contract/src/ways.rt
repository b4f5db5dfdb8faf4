ghost use Rattle.std.specs.Option.{ForSome};
ghost use Rattle.std.specs.Ordering.{int_eq};
ghost use Rattle.std.specs.Prelude.{◌≡◌, ◌≤◌, Some, None, if◌then◌else◌, ℤ, ℕ, List, ◌∷◌, [], ◌++◌, OnOk, IfOk, Contains, ◌<ℤ◌};
ghost use Rattle.pgr_walks.specs.declared.link.LinkOf.{LinkOf};
ghost use Rattle.pgr_walks.specs.Graph.{greatest};
ghost use Rattle.pgr_contract.specs.Ways.{
  at_pair,
  AreLow,
  AreSmall,
  HoldsWays,
  IsNear,
  cost_sum,
  forgotten,
  kept_cost,
  lesser,
  lowered,
};

use pgr_outside::NoMemory;
use pgr_walks::NamedLink;
use std::alloc::Global;
use std::collections::BTreeMap;
use std::ops::Bound;

/// The least cost of the links from a vertex to another, for each two that share a link, whatever its direction: so
/// with a pair its opposite stands, and a cost only where a link leads that way.
pub(crate) type Ways = BTreeMap<(i64, i64), Option<u64>>;

/// The least costs of links.
pub(crate) fn ways_of(alloc: Global, links: &[NamedLink]) -> Result<Ways, NoMemory>
    ensures ways { IfOk result (HoldsWays links.now) }
    ensures low { IfOk result AreLow }
{
    let mut ways = BTreeMap::new(alloc);
    for link in links {
        note(&mut ways, link)?;
    }
    Ok(ways)
}

/// Notes a link, if it is no loop.
fn note(ways: &mut Ways, link: &NamedLink) -> Result<(), NoMemory>
    ensures ways { OnOk result ((links : List (LinkOf ℤ)) → HoldsWays links ways.old → HoldsWays (links ++ link.now ∷ []) ways.new) }
    ensures low { OnOk result (AreLow ways.old → AreLow ways.new) }
{
    if link.from != link.to {
        lower(ways, link.from, link.to, Some(link.cost))?;
        lower(ways, link.to, link.from, None)?;
    }
    Ok(())
}

/// Keeps the lesser of a cost from one vertex to another and what is kept.
pub(crate) fn lower(ways: &mut Ways, from: i64, to: i64, cost: Option<u64>) -> Result<(), NoMemory>
    ensures ways { OnOk result ((p q : ℤ) → at_pair ways.new p q ≡ lowered from to cost (at_pair ways.old) p q) }
    ensures low { OnOk result (AreLow ways.old → AreLow ways.new) }
{
    let least = lesser_of(cost_between(ways, from, to), cost);
    ways.insert((from, to), least)?;
    Ok(())
}

/// The lesser of two costs, where none is more than any.
fn lesser_of(a: Option<u64>, b: Option<u64>) -> Option<u64>
    ensures { result ≡ lesser a b }
{
    match (a, b) {
        (None, b) => b,
        (Some(a), None) => Some(a),
        (Some(a), Some(b)) => Some(a.min(b)),
    }
}

/// The least cost of the links from a vertex to another, if there is one.
pub(crate) fn cost_between(ways: &Ways, from: i64, to: i64) -> Option<u64>
    ensures { result ≡ kept_cost (at_pair ways.now from to) }
{
    match ways.get(&(from, to)) {
        None => None,
        Some(cost) => *cost,
    }
}

/// Both costs together, if there are both.
pub(crate) fn sum_of(a: Option<u64>, b: Option<u64>) -> Option<u64>
    requires first { ForSome a (λ cost. cost ≤ greatest) }
    requires second { ForSome b (λ cost. cost ≤ greatest) }
    ensures { result ≡ cost_sum a b }
{
    match (a, b) {
        (Some(a), Some(b)) => Some(a + b),
        _ => None,
    }
}

/// Forgets what is kept between two vertices, both ways.
pub(crate) fn forget(ways: &mut Ways, a: i64, b: i64)
    ensures ways { (p q : ℤ) → at_pair ways.new p q ≡ forgotten a b (at_pair ways.old) p q }
    ensures low { AreLow ways.old → AreLow ways.new }
{
    ways.remove(&(a, b));
    ways.remove(&(b, a));
}

/// The least vertex that shares a link with `v`, if there is one.
pub(crate) fn first_near(ways: &Ways, v: i64) -> Option<i64>
    requires { AreLow ways.now }
    ensures { IsNear ways.now (λ _. Unit {0}) v result }
{
    let mut range = ways.range((Bound::Included((v, i64::MIN)), Bound::Unbounded));
    match range.next() {
        None => None,
        Some((key, _)) => second_of(*key, v),
    }
}

/// The least vertex above `x` that shares a link with `v`, if there is one.
pub(crate) fn next_near(ways: &Ways, v: i64, x: i64) -> Option<i64>
    ensures { IsNear ways.now (λ z. x <ℤ z) v result }
{
    let mut range = ways.range((Bound::Excluded((v, x)), Bound::Unbounded));
    match range.next() {
        None => None,
        Some((key, _)) => second_of(*key, v),
    }
}

/// The second of two ids, where the first is `v`.
fn second_of(pair: (i64, i64), v: i64) -> Option<i64>
    ensures { result ≡ (if int_eq pair.0 v then Some pair.1 else None) }
{
    if pair.0 == v { Some(pair.1) } else { None }
}
