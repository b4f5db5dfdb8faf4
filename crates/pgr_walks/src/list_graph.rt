ghost use Rattle.std.specs.Prelude.{◌≡◌, ◌<◌, ◌↔◌, ℕ, All, Contains, IfOk};
ghost use Rattle.std.specs.Ordering.{nat_cmp};
ghost use Rattle.std.specs.List.Sorted.{IsNonDecreasingBy};
ghost use Rattle.pgr_walks.specs.declared.link.LinkOf.{LinkOf};
ghost use Rattle.pgr_walks.specs.Link.{link_cmp};
ghost use Rattle.pgr_walks.specs.Walk.{IsWithoutRepeats};
ghost use Rattle.pgr_walks.specs.Graph.{IsStrictlyRising};
ghost use Rattle.pgr_walks.specs.LinksOf.{LinksOf};
ghost use Rattle.pgr_walks.specs.ListGraph.{links_from, links_into, arrival_cmp, HasEndsBelow, HoldTheSame};

use crate::graph::Graph;
use crate::link::Link;
use crate::showing::show;
use crate::visitor::LinkVisitor;
use pgr_outside::NoMemory;
use std::alloc::Global;

/// A graph of the links of a list.
///
/// It keeps the links twice, by where they begin and by where they lead, so that those of a vertex stand
/// together.
#[derive(Debug, Drop)]
pub struct ListGraph {
    size: u32,
    by_start: Vec<Link>,
    by_end: Vec<Link>,
    ghost ends_below: { All (HasEndsBelow size) by_start.items },
    ghost starts_rise: { IsStrictlyRising (link_cmp nat_cmp) by_start.items },
    ghost ends_rise: { IsStrictlyRising arrival_cmp by_end.items },
    ghost same: { HoldTheSame by_start.items by_end.items },
}

impl ListGraph {
    /// The graph with `size` vertices and exactly these links, which may stand in any order.
    ///
    /// Every end is below the size, and no link stands twice in the list: parallel links of one edge between
    /// the same ends differ in cost. `NoMemory` may come at any call. Work, not proved: two sorts.
    pub fn from_links(alloc: Global, size: u32, links: Vec<Link>) -> Result<ListGraph, NoMemory>
        requires ends { All (HasEndsBelow size) links.items }
        requires once { IsWithoutRepeats links.items }
        ensures size { IfOk result (λ graph. ⟦<ListGraph as Graph>⟧.count graph ≡ size) }
        ensures links { IfOk result (λ graph. (link : LinkOf ℕ) → LinksOf ⟦<ListGraph as Graph>⟧ graph link ↔ Contains links.items link) }
    {
        let mut by_start = Vec::from_slice(alloc, links.as_slice()).map_err(|_| NoMemory)?;
        by_start.sort_unstable();
        let mut by_end = links;
        by_end.sort_unstable_by_key(|link| (link.to, link.edge, link.cost, link.from));
        Ok(ListGraph {
            size,
            by_start,
            by_end,
        })
    }
}

impl Graph for ListGraph {
    ghost count = { λ graph. graph.size };

    ghost outs = { λ graph v. links_from graph.by_start.items v };

    ghost ins = { λ graph v. links_into graph.by_end.items v };

    fn size(&self) -> u32 {
        self.size
    }

    fn each_out<V: LinkVisitor>(&self, v: u32, visitor: &mut V) {
        show(run_from(&self.by_start, v), visitor);
    }

    fn each_in<V: LinkVisitor>(&self, v: u32, visitor: &mut V) {
        show(run_into(&self.by_end, v), visitor);
    }

    ghost use Rattle.pgr_walks.specs.ListGraphLaws.{list_lawful};

    ghost lawful = { λ graph. list_lawful graph.size graph.by_start.items graph.by_end.items graph.ends_below graph.starts_rise graph.ends_rise graph.same };
}

/// Of links that stand by where they begin, those that begin at `v`.
fn run_from(links: &[Link], v: u32) -> &[Link]
    requires { IsNonDecreasingBy (λ link. link.from) links.now }
    ensures { result.now ≡ links_from links.now v }
{
    let (_, rest) = links.split_at(links.partition_point(|link| link.from < v));
    let (run, _) = rest.split_at(rest.partition_point(|link| link.from <= v));
    run
}

/// Of links that stand by where they lead, those that lead to `v`.
fn run_into(links: &[Link], v: u32) -> &[Link]
    requires { IsNonDecreasingBy (λ link. link.to) links.now }
    ensures { result.now ≡ links_into links.now v }
{
    let (_, rest) = links.split_at(links.partition_point(|link| link.to < v));
    let (run, _) = rest.split_at(rest.partition_point(|link| link.to <= v));
    run
}
