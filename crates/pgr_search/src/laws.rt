ghost use Rattle.std.specs.Prelude.{◌≡◌, ◌⊎◌, ℕ, ◌<◌, List, Option, IsSome, Contains};
ghost use Rattle.pgr_walks.specs.declared.link.LinkOf.{LinkOf};
ghost use Rattle.pgr_walks.specs.declared.label.Label.{Label};
ghost use Rattle.pgr_walks.specs.LinksOf.{LinksOf};
ghost use Rattle.pgr_search.specs.FinalLabels.{label_at, HoldsFinalLabels};
ghost use Rattle.pgr_search.specs.Tight.{IsTight, BeginsTight};

use pgr_walks::Graph;

/// A walk that has the least label of its vertex begins with a tight link, and a vertex that has its label has a
/// tight link out of it exactly where it is no target.
///
/// A law of final labels; the call does nothing.
pub fn least_walks_follow_tight_links<G: Graph>(g: &G)
    ensures first { (targets : List ℕ) (labels : List (Option Label))
        → HoldsFinalLabels (G.count g.now) (LinksOf G.Graph g.now) targets labels
        → BeginsTight (LinksOf G.Graph g.now) targets labels }
    ensures some { (targets : List ℕ) (labels : List (Option Label)) (v : ℕ)
        → HoldsFinalLabels (G.count g.now) (LinksOf G.Graph g.now) targets labels
        → IsSome (label_at labels v)
        → Contains targets v ⊎ ((link : LinkOf ℕ) × (Contains (G.outs g.now v) link × IsTight labels link)) }
    ensures none { (targets : List ℕ) (labels : List (Option Label)) (v : ℕ) (link : LinkOf ℕ)
        → HoldsFinalLabels (G.count g.now) (LinksOf G.Graph g.now) targets labels
        → Contains targets v
        → link.from ≡ v
        → IsTight labels link → ⊥ }
{}
