ghost use Rattle.std.specs.Prelude.{◌≡◌, ◌↔◌, ℕ, List, All, length, filter, false, slice_index_or};
ghost use Rattle.pgr_walks.specs.declared.link.LinkOf.{LinkOf};
ghost use Rattle.pgr_walks.specs.Walk.{IsWalk};
ghost use Rattle.pgr_walks.specs.Graph.{Fits};
ghost use Rattle.pgr_walks.specs.LinksOf.{LinksOf};
ghost use Rattle.pgr_walks.specs.Without.{IsSpared, spares};
ghost use Rattle.pgr_walks.specs.ListGraph.{holds};

use crate::graph::Graph;
use crate::link::Link;
use crate::visitor::{LinkVisitor, Next};

/// The graph of the same size without some of its links.
#[derive(Debug)]
#[derive_where(Clone, Copy)]
pub struct Without<'a, G> {
    graph: &'a G,
    gone: &'a [bool],
    first: u32,
    taboo: &'a [Link],
}

impl<'a, G: Graph> Without<'a, G> {
    /// The graph of the same size without the links that touch a vertex marked in `gone`, and without the links
    /// in `taboo`.
    ///
    /// There is a mark for each vertex, and every taboo link leaves `first`. It takes no memory.
    /// Work, not proved: a link that leaves `first` is looked for among the taboo links.
    pub fn view(graph: &'a G, gone: &'a [bool], first: u32, taboo: &'a [Link]) -> Without<'a, G>
        requires marks { length gone.now ≡ G.count graph.now }
        requires taboo { All (λ link. link.from ≡ first) taboo.now }
        ensures size { ⟦<Without<'a, G> as Graph>⟧.count result ≡ G.count graph.now }
        ensures links { (link : LinkOf ℕ)
            → LinksOf ⟦<Without<'a, G> as Graph>⟧ result link
            ↔ (LinksOf G.Graph graph.now link × IsSpared gone.now taboo.now link) }
        ensures fits { Fits (LinksOf G.Graph graph.now) → Fits (LinksOf ⟦<Without<'a, G> as Graph>⟧ result) }
        ensures walks { (s t : ℕ) (walk : List (LinkOf ℕ))
            → IsWalk (LinksOf ⟦<Without<'a, G> as Graph>⟧ result) s walk t
            ↔ (IsWalk (LinksOf G.Graph graph.now) s walk t × All (IsSpared gone.now taboo.now) walk) }
    {
        Without {
            graph,
            gone,
            first,
            taboo,
        }
    }
}

impl<G: Graph> Graph for Without<'_, G> {
    ghost count = { λ without. G.count without.graph.now };

    ghost outs = { λ without v. filter (spares (record { gone = without.gone.now; first = without.first; taboo = without.taboo.now })) (G.outs without.graph.now v) };

    ghost ins = { λ without v. filter (spares (record { gone = without.gone.now; first = without.first; taboo = without.taboo.now })) (G.ins without.graph.now v) };

    fn size(&self) -> u32 {
        self.graph.size()
    }

    fn each_out<V: LinkVisitor>(&self, v: u32, visitor: &mut V) {
        let mut sparing = Sparing {
            gone: self.gone,
            first: self.first,
            taboo: self.taboo,
            visitor,
        };
        self.graph.each_out(v, &mut sparing);
    }

    fn each_in<V: LinkVisitor>(&self, v: u32, visitor: &mut V) {
        let mut sparing = Sparing {
            gone: self.gone,
            first: self.first,
            taboo: self.taboo,
            visitor,
        };
        self.graph.each_in(v, &mut sparing);
    }

    ghost use Rattle.pgr_walks.specs.WithoutLaws.{filtered_lawful};

    ghost lawful = { λ without. filtered_lawful (G.count without.graph.now) (G.outs without.graph.now) (G.ins without.graph.now)
        (G.lawful without.graph.now) (spares (record { gone = without.gone.now; first = without.first; taboo = without.taboo.now })) };
}

/// Shows another visitor those of the links that it is shown which are spared.
#[derive(Drop)]
struct Sparing<'a, V> {
    gone: &'a [bool],
    first: u32,
    taboo: &'a [Link],
    visitor: &'a mut V,
}

impl<V: LinkVisitor> LinkVisitor for Sparing<'_, V> {
    ghost use Rattle.pgr_walks.specs.Through.{Through, after_through, answer_through, IsReadyThrough};
    ghost use Rattle.pgr_walks.specs.Without.{Omissions, spare};

    ghost Meaning = { Through Omissions V.Meaning };

    ghost meaning = { λ sparing. record {
      reference = sparing.visitor.ghost_name;
      by = record { gone = sparing.gone.now; first = sparing.first; taboo = sparing.taboo.now };
      inner = V.meaning sparing.visitor.now;
    } };

    ghost after = { after_through spare V.after };

    ghost answer = { answer_through spare V.answer };

    ghost ready = { IsReadyThrough spare V.ready };

    fn see(&mut self, link: Link) -> Next {
        if is_spared(self.gone, self.first, self.taboo, link) {
            self.visitor.see(link)
        } else {
            Next::Go
        }
    }
}

/// Whether the link touches no vertex marked in `gone`, and is no taboo link that leaves `first`.
fn is_spared(gone: &[bool], first: u32, taboo: &[Link], link: Link) -> bool
    ensures { result ≡ spares (record { gone = gone.now; first = first; taboo = taboo.now }) link }
{
    !is_marked(gone, link.from)
        && !is_marked(gone, link.to)
        && !(link.from == first && is_among(taboo, link))
}

/// Whether the vertex is marked.
fn is_marked(gone: &[bool], v: u32) -> bool
    ensures { result ≡ slice_index_or gone.now v false }
{
    match gone.get(v as usize) {
        Some(mark) => *mark,
        None => false,
    }
}

/// Whether the link is one of the links.
fn is_among(links: &[Link], link: Link) -> bool
    ensures { result ≡ holds links.now link }
{
    links.contains(&link)
}
