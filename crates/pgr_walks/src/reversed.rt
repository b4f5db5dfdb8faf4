ghost use Rattle.std.specs.Prelude.{◌≡◌, ◌↔◌, ℕ, List, [], ◌∷◌, Option, map};
ghost use Rattle.pgr_walks.specs.declared.link.LinkOf.{LinkOf};
ghost use Rattle.pgr_walks.specs.declared.label.Label.{Label};
ghost use Rattle.pgr_walks.specs.Walk.{IsWalk};
ghost use Rattle.pgr_walks.specs.Label.{IsLabel, IsLabelFrom};
ghost use Rattle.pgr_walks.specs.Graph.{Fits};
ghost use Rattle.pgr_walks.specs.LinksOf.{LinksOf};
ghost use Rattle.pgr_walks.specs.Reversed.{turned, read_backwards};

use crate::graph::Graph;
use crate::link::Link;
use crate::visitor::{LinkVisitor, Next};

/// The graph with every link turned round.
#[derive(Debug)]
#[derive_where(Clone, Copy)]
pub struct Reversed<'a, G> {
    graph: &'a G,
}

impl<'a, G: Graph> Reversed<'a, G> {
    /// The graph of the same size whose links are those of `graph`, each turned round.
    ///
    /// Its walks are those of the graph read backwards. It takes no memory.
    pub fn view(graph: &'a G) -> Reversed<'a, G>
        ensures size { ⟦<Reversed<'a, G> as Graph>⟧.count result ≡ G.count graph.now }
        ensures outs { (v : ℕ) → ⟦<Reversed<'a, G> as Graph>⟧.outs result v ≡ map turned (G.ins graph.now v) }
        ensures ins { (v : ℕ) → ⟦<Reversed<'a, G> as Graph>⟧.ins result v ≡ map turned (G.outs graph.now v) }
        ensures links { (link : LinkOf ℕ) → LinksOf ⟦<Reversed<'a, G> as Graph>⟧ result link ↔ LinksOf G.Graph graph.now (turned link) }
        ensures fits { Fits (LinksOf G.Graph graph.now) → Fits (LinksOf ⟦<Reversed<'a, G> as Graph>⟧ result) }
        ensures walks { (s t : ℕ) (walk : List (LinkOf ℕ))
            → IsWalk (LinksOf ⟦<Reversed<'a, G> as Graph>⟧ result) s walk t
            ↔ IsWalk (LinksOf G.Graph graph.now) t (read_backwards walk) s }
        ensures labels { (root v : ℕ) (label : Option Label)
            → IsLabel (LinksOf ⟦<Reversed<'a, G> as Graph>⟧ result) (root ∷ []) v label
            ↔ IsLabelFrom (LinksOf G.Graph graph.now) root v label }
    {
        Reversed { graph }
    }
}

impl<G: Graph> Graph for Reversed<'_, G> {
    ghost count = { λ reversed. G.count reversed.graph.now };

    ghost outs = { λ reversed v. map turned (G.ins reversed.graph.now v) };

    ghost ins = { λ reversed v. map turned (G.outs reversed.graph.now v) };

    fn size(&self) -> u32 {
        self.graph.size()
    }

    fn each_out<V: LinkVisitor>(&self, v: u32, visitor: &mut V) {
        let mut turning = Turning { visitor };
        self.graph.each_in(v, &mut turning);
    }

    fn each_in<V: LinkVisitor>(&self, v: u32, visitor: &mut V) {
        let mut turning = Turning { visitor };
        self.graph.each_out(v, &mut turning);
    }

    ghost use Rattle.pgr_walks.specs.ReversedLaws.{reversed_lawful};

    ghost lawful = { λ reversed. reversed_lawful (G.count reversed.graph.now) (G.outs reversed.graph.now) (G.ins reversed.graph.now) (G.lawful reversed.graph.now) };
}

/// Shows another visitor the links that it is shown, each turned round.
#[derive(Drop)]
struct Turning<'a, V> {
    visitor: &'a mut V,
}

impl<V: LinkVisitor> LinkVisitor for Turning<'_, V> {
    ghost use Rattle.pgr_walks.specs.Through.{Through, after_through, answer_through, IsReadyThrough};
    ghost use Rattle.pgr_walks.specs.Reversed.{turn};

    ghost Meaning = { Through (Unit {0}) V.Meaning };

    ghost meaning = { λ turning. record {
      reference = turning.visitor.ghost_name;
      by = tt;
      inner = V.meaning turning.visitor.now;
    } };

    ghost after = { after_through turn V.after };

    ghost answer = { answer_through turn V.answer };

    ghost ready = { IsReadyThrough turn V.ready };

    fn see(&mut self, link: Link) -> Next {
        self.visitor.see(Link {
            from: link.to,
            edge: link.edge,
            cost: link.cost,
            to: link.from,
        })
    }
}
