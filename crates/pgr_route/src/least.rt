ghost use Rattle.std.specs.Prelude.{◌≡◌, ℕ, ◌<◌, ◌↔◌, List, IfOk, IfSome, IfNone, IsSome};
ghost use Rattle.pgr_walks.specs.Graph.{Fits};
ghost use Rattle.pgr_walks.specs.LinksOf.{LinksOf};
ghost use Rattle.pgr_route.specs.Least.{IsLeastFrom, LeadsNowhere};
ghost use Rattle.pgr_search.specs.FinalLabels.{label_at, HoldsLabelsFrom};

use crate::growth::push;
use crate::route::Route;
use pgr_outside::NoMemory;
use pgr_search::{Room, least_tight_link, least_walks_follow_tight_links};
use pgr_walks::Graph;
use std::alloc::Global;

/// The walk from `from` to a target that precedes every other such walk in the route order, or none where no
/// walk leads from `from` to a target.
///
/// The graph fits, `from` is a vertex number below its size, and the room holds final labels of the graph to
/// some targets, among them that of `from` where a walk leads from it to one: a search that stopped once
/// `from` had its label is enough. From a target the route is empty.
/// `NoMemory` may come at any call. Work, not proved: the links out of each vertex on the route are shown once.
pub fn least_route<G: Graph>(
    alloc: Global,
    g: &G,
    from: u32,
    room: &Room,
) -> Result<Option<Route>, NoMemory>
    requires fits { Fits (LinksOf G.Graph g.now) }
    requires from { from < G.count g.now }
    requires room { (targets : List ℕ) × HoldsLabelsFrom (G.count g.now) (LinksOf G.Graph g.now) targets room.now from }
    ensures least { IfOk result (λ found. IfSome found (IsLeastFrom (G.count g.now) (LinksOf G.Graph g.now) room.now from)) }
    ensures none { IfOk result (λ found. IfNone found (LeadsNowhere (G.count g.now) (LinksOf G.Graph g.now) room.now from)) }
    ensures label { IfOk result (λ found. IsSome found ↔ IsSome (label_at room.now from)) }
{
    least_walks_follow_tight_links(g);
    if room.label(from).is_none() {
        return Ok(None);
    }
    let mut links = Vec::new(alloc);
    let mut at = from;
    while let Some(link) = least_tight_link(g, at, room) {
        push(&mut links, link)?;
        at = link.to;
    }
    Ok(Some(Route::of(links)))
}
