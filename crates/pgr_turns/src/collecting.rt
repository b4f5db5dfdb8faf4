ghost use Rattle.std.specs.Prelude.{◌≡◌, ◌<◌, IfOk};
ghost use Rattle.pgr_turns.specs.Collecting.{HaveCollected};

use pgr_outside::NoMemory;
use pgr_walks::{Graph, Link, LinkVisitor, Next};
use std::alloc::Global;

/// Puts the links that it is shown at places, from the first on, as far as there are places.
#[derive(Drop)]
struct Collecting<'a> {
    /// The places.
    places: &'a mut [Link],
    /// The next place, whether it is there or not.
    next: usize,
}

impl LinkVisitor for Collecting<'_> {
    ghost use Rattle.pgr_walks.specs.declared.visitor.Next.TheVariants.{Go};
    ghost use Rattle.pgr_turns.specs.Collecting.{Collection, collection_after};

    ghost Meaning = { Collection };

    ghost meaning = { λ collecting. record {
      reference = collecting.places.ghost_name;
      places = collecting.places.now;
      next = collecting.next;
    } };

    ghost after = { collection_after };

    ghost answer = { λ _ _. Go };

    ghost ready = { λ _ _. Unit {0} };

    fn see(&mut self, link: Link) -> Next {
        if self.next < self.places.len() {
            self.places[self.next] = link;
        }
        self.next = self.next.saturating_add(1);
        Next::Go
    }
}

// What stands at a place before a link is put there.
const NO_LINK: Link = Link {
    from: 0,
    edge: 0,
    cost: 0,
    to: 0,
};

/// The links out of a vertex, in order.
///
/// It needs a vertex below the size. `NoMemory` may come at any call. Work, not proved: the links are shown twice.
pub(crate) fn links_out<G: Graph>(alloc: Global, g: &G, v: u32) -> Result<Vec<Link>, NoMemory>
    requires { v < G.count g.now }
    ensures { IfOk result (λ links. links.items ≡ G.outs g.now v) }
{
    let mut links = Vec::new(alloc);
    let count = collect(g, v, links.as_mut_slice());
    if count == usize::MAX {
        return Err(NoMemory);
    }
    links.resize(count, NO_LINK).map_err(|_| NoMemory)?;
    collect(g, v, links.as_mut_slice());
    Ok(links)
}

/// Puts the links out of a vertex at places, as far as there are places, and returns how many links there are.
fn collect<G: Graph>(g: &G, v: u32, places: &mut [Link]) -> usize
    requires { v < G.count g.now }
    ensures { HaveCollected (G.outs g.now v) places.old places.new result }
{
    let mut collecting = Collecting { places, next: 0 };
    g.each_out(v, &mut collecting);
    collecting.next
}
