ghost use Rattle.std.specs.Prelude.{◌≡◌, ℕ, ◌<◌, List, [], ◌∷◌, Option, length, map, All, Contains, ℤ};
ghost use Rattle.std.specs.Ordering.{int_cmp, nat_cmp};
ghost use Rattle.pgr_walks.specs.declared.link.LinkOf.{LinkOf};
ghost use Rattle.pgr_walks.specs.declared.label.Label.{Label};
ghost use Rattle.pgr_walks.specs.Walk.{IsWalk};
ghost use Rattle.pgr_walks.specs.RouteOrder.{IsLeast};
ghost use Rattle.pgr_walks.specs.Label.{LeadsTo, IsLabel};
ghost use Rattle.pgr_walks.specs.Graph.{Fits};
ghost use Rattle.pgr_walks.specs.LinksOf.{LinksOf};
ghost use Rattle.pgr_numbers.specs.Names.{AreNumbered, id_at, named};
ghost use Rattle.pgr_numbers.specs.Numbering.{HasExactly};

use pgr_walks::Graph;

/// A graph whose links are exactly the numbered links fits where the links fit.
///
/// A law; the call does nothing.
pub fn graph_of_numbered_links_fits<G: Graph>(g: &G)
    ensures { (names : List ℤ) (links : List (LinkOf ℤ)) (numbers : List (LinkOf ℕ))
        → AreNumbered names links numbers
        → HasExactly (G.count g.now) (G.ins g.now) numbers
        → Fits (Contains links)
        → Fits (LinksOf G.Graph g.now) }
{}

/// The least walk over a graph of the numbered links stands for the least walk by ids.
///
/// Where the graph has no walk to one of the targets, there is none by ids. A law; the call does nothing.
pub fn least_walk_of_graph_is_least_by_ids<G: Graph>(g: &G)
    // To one target.
    ensures least { (names : List ℤ) (links : List (LinkOf ℤ)) (numbers : List (LinkOf ℕ))
        (s t : ℕ) (walk : List (LinkOf ℕ))
        → AreNumbered names links numbers
        → HasExactly (G.count g.now) (G.ins g.now) numbers
        → s < length names
        → t < length names
        → IsLeast nat_cmp (LeadsTo (LinksOf G.Graph g.now) (t ∷ []) s) walk
        → IsLeast int_cmp (λ w. IsWalk (Contains links) (id_at names s) w (id_at names t)) (map (named names) walk) }
    ensures none { (names : List ℤ) (links : List (LinkOf ℤ)) (numbers : List (LinkOf ℕ)) (s t : ℕ)
        → AreNumbered names links numbers
        → HasExactly (G.count g.now) (G.ins g.now) numbers
        → s < length names
        → t < length names
        → ((walk : List (LinkOf ℕ)) → LeadsTo (LinksOf G.Graph g.now) (t ∷ []) s walk → ⊥)
        → (walk : List (LinkOf ℤ))
        → IsWalk (Contains links) (id_at names s) walk (id_at names t) → ⊥ }

    // To any of some targets.
    ensures least_of_targets { (names : List ℤ) (links : List (LinkOf ℤ)) (numbers : List (LinkOf ℕ))
        (targets : List ℕ) (s : ℕ) (walk : List (LinkOf ℕ))
        → AreNumbered names links numbers
        → HasExactly (G.count g.now) (G.ins g.now) numbers
        → All (λ t. t < length names) targets
        → s < length names
        → IsLeast nat_cmp (LeadsTo (LinksOf G.Graph g.now) targets s) walk
        → IsLeast int_cmp (LeadsTo (Contains links) (map (id_at names) targets) (id_at names s)) (map (named names) walk) }
{}

/// The label of a number over a graph of the numbered links is the label of its id over the links.
///
/// A law; the call does nothing.
pub fn labels_of_graph_are_labels_by_ids<G: Graph>(g: &G)
    ensures { (names : List ℤ) (links : List (LinkOf ℤ)) (numbers : List (LinkOf ℕ))
        (targets : List ℕ) (s : ℕ) (label : Option Label)
        → AreNumbered names links numbers
        → HasExactly (G.count g.now) (G.ins g.now) numbers
        → All (λ t. t < length names) targets
        → s < length names
        → IsLabel (LinksOf G.Graph g.now) targets s label
        → IsLabel (Contains links) (map (id_at names) targets) (id_at names s) label }
{}
