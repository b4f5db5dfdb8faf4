ghost use Rattle.std.specs.Prelude.{◌≡◌, ◌≢◌, ◌⊎◌, ◌↔◌, ℕ, ◌*◌, ◌<◌, ◌≤◌, List, Bool, true, Option, Some, None, Contains, slice_index_or};
ghost use Rattle.pgr_walks.specs.declared.link.LinkOf.{LinkOf};
ghost use Rattle.pgr_walks.specs.declared.label.Label.{Label};
ghost use Rattle.pgr_walks.specs.Walk.{IsWalk, IsLooplessRoute, IsWithoutRepeats, vertices_of, cost_of, hops_of};
ghost use Rattle.pgr_walks.specs.Reversed.{read_backwards};
ghost use Rattle.pgr_walks.specs.Label.{IsLeastLabel, LeadsTo, HoldsLabels};
ghost use Rattle.std.specs.Ordering.{nat_cmp};
ghost use Rattle.pgr_walks.specs.RouteOrder.{IsLeast, Precedes};
ghost use Rattle.pgr_walks.specs.RouteOrders.{IsClosedUnderCuts};
ghost use Rattle.pgr_walks.specs.Graph.{Fits, greatest};
ghost use Rattle.pgr_walks.specs.LinksOf.{LinksOf};
ghost use Rattle.pgr_walks.specs.Loopless.{CanBeLoopless};

use crate::graph::Graph;

/// Every walk of a graph can be made loopless: same ends, no greater cost and no more links.
///
/// A law; the call does nothing.
pub fn every_walk_can_be_loopless<G: Graph>(g: &G)
    ensures { (s t : ℕ) (walk : List (LinkOf ℕ))
        → IsWalk (LinksOf G.Graph g.now) s walk t
        → CanBeLoopless (LinksOf G.Graph g.now) s walk t }
{}

/// A walk that comes to no vertex twice has fewer links than the graph has vertices.
///
/// A law; the call does nothing.
pub fn loopless_walks_are_short<G: Graph>(g: &G)
    ensures { (s t : ℕ) (walk : List (LinkOf ℕ))
        → s < G.count g.now
        → IsWalk (LinksOf G.Graph g.now) s walk t
        → IsWithoutRepeats (vertices_of s walk)
        → hops_of walk < G.count g.now }
{}

/// A least label of a graph that fits costs at most 2^63 - 1 and has fewer hops than the graph has vertices.
///
/// A law; the call does nothing.
pub fn least_labels_are_small<G: Graph>(g: &G)
    requires fits { Fits (LinksOf G.Graph g.now) }
    ensures { (targets : List ℕ) (v : ℕ) (label : Label)
        → v < G.count g.now
        → IsLeastLabel (LinksOf G.Graph g.now) targets v label
        → (label.cost ≤ greatest) × (label.hops < G.count g.now) }
{}

/// A graph fits where what each link costs at most, times the number of vertices, is at most 2^63 - 1.
///
/// A law; the call does nothing.
pub fn small_costs_fit<G: Graph>(g: &G)
    ensures { (most : ℕ)
        → ((link : LinkOf ℕ) → LinksOf G.Graph g.now link → link.cost ≤ most)
        → most * G.count g.now ≤ greatest
        → Fits (LinksOf G.Graph g.now) }
{}

/// Of the walks from a vertex to some targets one at most is least, and it comes to no vertex twice.
///
/// A law; the call does nothing.
pub fn one_walk_to_targets_is_least<G: Graph>(g: &G)
    ensures one { (targets : List ℕ) (v : ℕ) (walk other : List (LinkOf ℕ))
        → IsLeast nat_cmp (LeadsTo (LinksOf G.Graph g.now) targets v) walk
        → IsLeast nat_cmp (LeadsTo (LinksOf G.Graph g.now) targets v) other
        → walk ≡ other }
    ensures loopless { (targets : List ℕ) (v : ℕ) (walk : List (LinkOf ℕ))
        → IsLeast nat_cmp (LeadsTo (LinksOf G.Graph g.now) targets v) walk
        → IsWithoutRepeats (vertices_of v walk) }
{}

/// Of the walks between two different vertices one at most is least, and it is a loopless route.
///
/// A law; the call does nothing.
pub fn one_walk_between_ends_is_least<G: Graph>(g: &G)
    ensures one { (s t : ℕ) (walk other : List (LinkOf ℕ))
        → IsLeast nat_cmp (λ walk. IsWalk (LinksOf G.Graph g.now) s walk t) walk
        → IsLeast nat_cmp (λ walk. IsWalk (LinksOf G.Graph g.now) s walk t) other
        → walk ≡ other }
    ensures loopless { (s t : ℕ) (walk : List (LinkOf ℕ))
        → s ≢ t
        → IsLeast nat_cmp (λ walk. IsWalk (LinksOf G.Graph g.now) s walk t) walk
        → IsLooplessRoute (LinksOf G.Graph g.now) s walk t }
{}

/// Of a set of walks from a vertex to another, or to itself, one is least where the set has a walk, and with
/// each of its walks that without the links between two visits of a vertex; the least comes to no vertex twice.
///
/// A law; the call does nothing.
pub fn closed_sets_have_a_least_walk<G: Graph>(g: &G)
    ensures { (s t : ℕ) (has : List (LinkOf ℕ) → Bool) (member : List (LinkOf ℕ))
        → s < G.count g.now
        → ((walk : List (LinkOf ℕ)) → has walk ≡ true → IsWalk (LinksOf G.Graph g.now) s walk t)
        → IsClosedUnderCuts s (λ walk. has walk ≡ true)
        → has member ≡ true
        → (least : List (LinkOf ℕ)) × IsLeast nat_cmp (λ walk. has walk ≡ true) least × IsWithoutRepeats (vertices_of s least) }
{}

/// Of any set of walks one at most is least, and it comes to no vertex twice where the set has each of its walks
/// without the links between two visits of a vertex.
///
/// A law; the call does nothing.
pub fn one_walk_of_a_set_is_least<G: Graph>(g: &G)
    ensures one { (has : List (LinkOf ℕ) → Bool) (walk other : List (LinkOf ℕ))
        → IsLeast nat_cmp (λ walk. has walk ≡ true) walk
        → IsLeast nat_cmp (λ walk. has walk ≡ true) other
        → walk ≡ other }
    ensures loopless { (s : ℕ) (has : List (LinkOf ℕ) → Bool) (walk : List (LinkOf ℕ))
        → IsClosedUnderCuts s (λ walk. has walk ≡ true)
        → IsLeast nat_cmp (λ walk. has walk ≡ true) walk
        → IsWithoutRepeats (vertices_of s walk) }
{}

/// Of two different walks from one vertex one precedes the other.
///
/// A law; the call does nothing.
pub fn one_walk_precedes_another<G: Graph>(g: &G)
    ensures { (s t u : ℕ) (walk other : List (LinkOf ℕ))
        → IsWalk (LinksOf G.Graph g.now) s walk t
        → IsWalk (LinksOf G.Graph g.now) s other u
        → walk ≢ other
        → Precedes nat_cmp walk other ⊎ Precedes nat_cmp other walk }
{}

/// A walk read backwards costs the same and has as many links, and read backwards again it is the walk.
///
/// A law; the call does nothing.
pub fn backward_walks_cost_the_same()
    ensures cost { (walk : List (LinkOf ℕ)) → cost_of (read_backwards walk) ≡ cost_of walk }
    ensures hops { (walk : List (LinkOf ℕ)) → hops_of (read_backwards walk) ≡ hops_of walk }
    ensures twice { (walk : List (LinkOf ℕ)) → read_backwards (read_backwards walk) ≡ walk }
{}

/// The targets of labels are the vertices with cost 0 and no hops.
///
/// A law; the call does nothing.
pub fn targets_have_labels_of_zero<G: Graph>(g: &G)
    ensures { (targets : List ℕ) (labels : List (Option Label)) (v : ℕ)
        → HoldsLabels (G.count g.now) (LinksOf G.Graph g.now) targets labels
        → v < G.count g.now
        → (Contains targets v) ↔ (slice_index_or labels v None ≡ Some (record { cost = 0; hops = 0 })) }
{}
