ghost use Rattle.std.specs.Prelude.{◌≡◌, ◌<◌, ◌↔◌, ℕ, All, Contains, IfOk};
ghost use Rattle.std.specs.Ordering.{nat_cmp};
ghost use Rattle.pgr_walks.specs.declared.link.LinkOf.{LinkOf};
ghost use Rattle.pgr_walks.specs.Link.{link_cmp};
ghost use Rattle.pgr_walks.specs.Walk.{IsWithoutRepeats};
ghost use Rattle.pgr_walks.specs.Graph.{IsStrictlyRising};
ghost use Rattle.pgr_walks.specs.LinksOf.{LinksOf};
ghost use Rattle.pgr_walks.specs.ListGraph.{links_from, links_into, arrival_cmp, HasEndsBelow, HoldTheSame};
ghost use Rattle.pgr_walks.specs.Parts.{AreBeginnings};

use crate::chains::Chains;
use crate::distributing::in_order;
use crate::graph::Graph;
use crate::link::Link;
use crate::parts::{beginnings, part};
use crate::showing::show;
use crate::side::{ByEnd, ByStart};
use crate::visitor::LinkVisitor;
use pgr_outside::NoMemory;
use std::alloc::Global;

/// A graph that finds the links of a vertex at once.
///
/// It keeps the links by where they begin and by where they lead, and for each vertex the place where its part
/// begins in either list.
#[derive(Debug, Drop)]
pub struct RowGraph {
    size: u32,
    by_start: Vec<Link>,
    starts: Vec<usize>,
    by_end: Vec<Link>,
    ends: Vec<usize>,
    ghost ends_below: { All (HasEndsBelow size) by_start.items },
    ghost starts_rise: { IsStrictlyRising (link_cmp nat_cmp) by_start.items },
    ghost ends_rise: { IsStrictlyRising arrival_cmp by_end.items },
    ghost same: { HoldTheSame by_start.items by_end.items },
    ghost start_parts: { AreBeginnings (λ (link : LinkOf ℕ). link.from) size by_start.items starts.items },
    ghost end_parts: { AreBeginnings (λ (link : LinkOf ℕ). link.to) size by_end.items ends.items },
}

impl RowGraph {
    /// The graph with `size` vertices and exactly these links, which may stand in any order.
    ///
    /// Every end is below the size, and no link stands twice in the list: parallel links of one edge between
    /// the same ends differ in cost. `NoMemory` may come at any call. Work, not proved: for either end a few passes
    /// over the links and a short sort for each vertex; or one sort of all, where vertices stand in no order.
    pub fn from_links(alloc: Global, size: u32, links: Vec<Link>) -> Result<RowGraph, NoMemory>
        requires ends { All (HasEndsBelow size) links.items }
        requires once { IsWithoutRepeats links.items }
        ensures size { IfOk result (λ graph. ⟦<RowGraph as Graph>⟧.count graph ≡ size) }
        ensures links { IfOk result (λ graph. (link : LinkOf ℕ) → LinksOf ⟦<RowGraph as Graph>⟧ graph link ↔ Contains links.items link) }
    {
        let mut chains = Chains::new(alloc);
        let room = Vec::new(alloc);
        let by_start = in_order::<ByStart>(alloc, size, &links, room, &mut chains)?;
        // The links in the other order take the memory of those handed in: there are two lists in all.
        let by_end = in_order::<ByEnd>(alloc, size, &by_start, links, &mut chains)?;
        drop(chains);
        let starts = beginnings::<ByStart>(alloc, size, &by_start)?;
        let ends = beginnings::<ByEnd>(alloc, size, &by_end)?;
        Ok(RowGraph {
            size,
            by_start,
            starts,
            by_end,
            ends,
        })
    }
}

impl Graph for RowGraph {
    ghost count = { λ graph. graph.size };

    ghost outs = { λ graph v. links_from graph.by_start.items v };

    ghost ins = { λ graph v. links_into graph.by_end.items v };

    fn size(&self) -> u32 {
        self.size
    }

    fn each_out<V: LinkVisitor>(&self, v: u32, visitor: &mut V) {
        show(part::<ByStart>(&self.by_start, &self.starts, v), visitor);
    }

    fn each_in<V: LinkVisitor>(&self, v: u32, visitor: &mut V) {
        show(part::<ByEnd>(&self.by_end, &self.ends, v), visitor);
    }

    ghost use Rattle.pgr_walks.specs.ListGraphLaws.{list_lawful};

    ghost lawful = { λ graph. list_lawful graph.size graph.by_start.items graph.by_end.items
        graph.ends_below graph.starts_rise graph.ends_rise graph.same };
}
