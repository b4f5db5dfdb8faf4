ghost use Rattle.std.specs.Prelude.{◌≡◌, ◌<◌, ◌↔◌, ℕ, List, slice_index};
ghost use Rattle.pgr_walks.specs.declared.link.LinkOf.{LinkOf};
ghost use Rattle.pgr_walks.specs.Graph.{IsLinkOf};
ghost use Rattle.pgr_walks.specs.Reaches.{Reaches, turned};
ghost use Rattle.pgr_parts.specs.Classes.{AreClassNames, Connected, StronglyConnected};

use pgr_walks::Graph;

/// Two vertices have the same name of their connected classes exactly where they are connected.
///
/// A law; the call does nothing.
pub fn connected_vertices_have_one_name<G: Graph>(g: &G)
    ensures { (names : List ℕ) (u v : ℕ)
        → AreClassNames (Connected (IsLinkOf (G.count g.now) (G.ins g.now))) (G.count g.now) names
        → u < G.count g.now
        → v < G.count g.now
        → (slice_index names u ≡ slice_index names v) ↔ Connected (IsLinkOf (G.count g.now) (G.ins g.now)) u v }
{}

/// Two vertices have the same name of their strong classes exactly where a walk leads from each to the other.
///
/// A law; the call does nothing.
pub fn strongly_connected_vertices_have_one_name<G: Graph>(g: &G)
    ensures { (names : List ℕ) (u v : ℕ)
        → AreClassNames (StronglyConnected (IsLinkOf (G.count g.now) (G.ins g.now))) (G.count g.now) names
        → u < G.count g.now
        → v < G.count g.now
        → (slice_index names u ≡ slice_index names v) ↔ StronglyConnected (IsLinkOf (G.count g.now) (G.ins g.now)) u v }
{}

/// Where each link has one that leads back, at its edge and cost, vertices are connected exactly where a walk leads from one to the other.
///
/// A law; the call does nothing.
pub fn links_that_lead_back_connect_by_walks<G: Graph>(g: &G)
    ensures { ((link : LinkOf ℕ) → IsLinkOf (G.count g.now) (G.ins g.now) link → IsLinkOf (G.count g.now) (G.ins g.now) (turned link))
        → (u v : ℕ)
        → Connected (IsLinkOf (G.count g.now) (G.ins g.now)) u v ↔ Reaches (IsLinkOf (G.count g.now) (G.ins g.now)) u v }
{}
