ghost use Rattle.std.specs.Prelude.{◌≡◌, ◌↔◌, ℕ, ◌*◌, ◌^◌, ◌<◌, ◌≤◌, List, length, map, All, Contains, ℤ};
ghost use Rattle.std.specs.Ordering.{int_cmp, nat_cmp};
ghost use Rattle.pgr_outside.specs.Lists.{IsWithoutRepeats};
ghost use Rattle.pgr_walks.specs.declared.link.LinkOf.{LinkOf};
ghost use Rattle.pgr_walks.specs.Walk.{IsWalk, cost_of, hops_of};
ghost use Rattle.pgr_walks.specs.RouteOrder.{route_cmp, IsLeast};
ghost use Rattle.pgr_walks.specs.Graph.{IsStrictlyRising, Fits};
ghost use Rattle.pgr_numbers.specs.Names.{AreEnds, AreNumbered, IsNumbered, id_at, named};
ghost use Rattle.pgr_numbers.specs.Numbering.{IsNumberedWalk};
ghost use Rattle.pgr_numbers.specs.Slots.{links_in};

use crate::link_source::LinkSource;
use pgr_walks::NamedLink;

/// There are at most twice as many names as links: fewer than 2^32 names of fewer than 2^31 links.
///
/// A law; the call does nothing.
pub fn names_are_few(links: &[NamedLink])
    ensures twice { (names : List ℤ)
        → AreEnds links.now names → length names ≤ 2 * length links.now }
    ensures few { length links.now < 2 ^ 31
        → (names : List ℤ) → AreEnds links.now names → length names < 2 ^ 32 }
{}

/// There are at most twice as many names as slots of a source: fewer than 2^32 names of fewer than 2^31 slots.
///
/// A law; the call does nothing.
pub fn names_of_source_are_few<S: LinkSource>(source: &S)
    ensures twice { (names : List ℤ)
        → AreEnds (links_in (S.slots source.now)) names → length names ≤ 2 * length (S.slots source.now) }
    ensures few { length (S.slots source.now) < 2 ^ 31
        → (names : List ℤ) → AreEnds (links_in (S.slots source.now)) names → length names < 2 ^ 32 }
{}

/// Numbers compare as the ids that they stand for, and no two numbers stand for one id.
///
/// A law; the call does nothing.
pub fn numbers_rise_with_ids()
    ensures order { (names : List ℤ) (m n : ℕ)
        → IsStrictlyRising int_cmp names
        → m < length names
        → n < length names
        → int_cmp (id_at names m) (id_at names n) ≡ nat_cmp m n }
    ensures one { (names : List ℤ) (m n : ℕ)
        → IsStrictlyRising int_cmp names
        → m < length names
        → n < length names
        → id_at names m ≡ id_at names n
        → m ≡ n }
{}

/// The route order by numbers is the route order by ids.
///
/// A law; the call does nothing.
pub fn route_order_is_kept()
    ensures { (names : List ℤ) (walk other : List (LinkOf ℕ))
        → IsStrictlyRising int_cmp names
        → All (IsNumbered names) walk
        → All (IsNumbered names) other
        → route_cmp int_cmp (map (named names) walk) (map (named names) other) ≡ route_cmp nat_cmp walk other }
{}

/// A walk costs the same and has as many links by numbers as by ids.
///
/// A law; the call does nothing.
pub fn costs_and_hops_are_kept()
    ensures cost { (names : List ℤ) (walk : List (LinkOf ℕ))
        → cost_of (map (named names) walk) ≡ cost_of walk }
    ensures hops { (names : List ℤ) (walk : List (LinkOf ℕ))
        → hops_of (map (named names) walk) ≡ hops_of walk }
{}

/// Walks by numbers and walks by ids correspond, each to exactly one.
///
/// A law; the call does nothing.
pub fn walks_correspond()
    // A walk by numbers stands for a walk by ids.
    ensures named { (names : List ℤ) (links : List (LinkOf ℤ)) (numbers : List (LinkOf ℕ))
        (s t : ℕ) (walk : List (LinkOf ℕ))
        → AreNumbered names links numbers
        → IsWalk (Contains numbers) s walk t
        → IsWalk (Contains links) (id_at names s) (map (named names) walk) (id_at names t) }

    // A walk by ids between names is what some walk by numbers stands for, and only one.
    ensures numbered { (names : List ℤ) (links : List (LinkOf ℤ)) (numbers : List (LinkOf ℕ))
        (s t : ℕ) (walk : List (LinkOf ℤ))
        → AreNumbered names links numbers
        → s < length names
        → t < length names
        → IsWalk (Contains links) (id_at names s) walk (id_at names t)
        → (numbered : List (LinkOf ℕ)) × IsNumberedWalk names numbers s t walk numbered }
    ensures one { (names : List ℤ) (links : List (LinkOf ℤ)) (numbers : List (LinkOf ℕ))
        (s t : ℕ) (walk : List (LinkOf ℤ)) (numbered other : List (LinkOf ℕ))
        → AreNumbered names links numbers
        → IsNumberedWalk names numbers s t walk numbered
        → IsNumberedWalk names numbers s t walk other
        → numbered ≡ other }
{}

/// Numbered links repeat exactly where the links repeat, and they fit where the links fit.
///
/// A law; the call does nothing.
pub fn numbered_links_fit()
    ensures repeats { (names : List ℤ) (links : List (LinkOf ℤ)) (numbers : List (LinkOf ℕ))
        → AreNumbered names links numbers
        → IsWithoutRepeats links ↔ IsWithoutRepeats numbers }
    ensures fits { (names : List ℤ) (links : List (LinkOf ℤ)) (numbers : List (LinkOf ℕ))
        → AreNumbered names links numbers
        → Fits (Contains links)
        → Fits (Contains numbers) }
{}

/// The least walk by numbers stands for the least walk by ids, and where none is by numbers none is by ids.
///
/// A law; the call does nothing.
pub fn least_walk_by_numbers_is_least_by_ids()
    ensures least { (names : List ℤ) (links : List (LinkOf ℤ)) (numbers : List (LinkOf ℕ))
        (s t : ℕ) (walk : List (LinkOf ℕ))
        → AreNumbered names links numbers
        → s < length names
        → t < length names
        → IsLeast nat_cmp (λ w. IsWalk (Contains numbers) s w t) walk
        → IsLeast int_cmp (λ w. IsWalk (Contains links) (id_at names s) w (id_at names t)) (map (named names) walk) }
    ensures none { (names : List ℤ) (links : List (LinkOf ℤ)) (numbers : List (LinkOf ℕ)) (s t : ℕ)
        → AreNumbered names links numbers
        → s < length names
        → t < length names
        → ((walk : List (LinkOf ℕ)) → IsWalk (Contains numbers) s walk t → ⊥)
        → (walk : List (LinkOf ℤ))
        → IsWalk (Contains links) (id_at names s) walk (id_at names t) → ⊥ }
{}
