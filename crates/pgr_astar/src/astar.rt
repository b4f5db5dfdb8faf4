ghost use Rattle.std.specs.Prelude.{◌≡◌, ◌≢◌, ◌<◌, ℕ, List, length, IfOk, IfSome, IfNone};
ghost use Rattle.std.specs.Ordering.{nat_cmp};
ghost use Rattle.pgr_walks.specs.declared.link.LinkOf.{LinkOf};
ghost use Rattle.pgr_walks.specs.Graph.{Fits};
ghost use Rattle.pgr_walks.specs.LinksOf.{LinksOf};
ghost use Rattle.pgr_walks.specs.RouteOrder.{IsLeast};
ghost use Rattle.pgr_walks.specs.Walk.{IsWalk};
ghost use Rattle.pgr_search.specs.Estimates.{IsConsistent};
ghost use Rattle.pgr_astar.specs.Breaking.{value_at};

use crate::potential::Potential;
use pgr_outside::NoMemory;
use pgr_route::{Route, least_route};
use pgr_search::{GuidedRoom, labels_guided};
use pgr_walks::Graph;
use std::alloc::Global;
use std::marker::Model;

/// Room for a guided search, one place for each vertex number, which contracts see as their number.
#[derive(Drop)]
pub struct AstarRoom {
    search: GuidedRoom,
}

impl Model for AstarRoom {
    ghost use Rattle.std.specs.Prelude.{ℕ, length};

    ghost Value = { ℕ };

    ghost view = { λ room. length room.search };
}

impl AstarRoom {
    /// Takes all memory of a guided search over `n` vertices.
    ///
    /// `NoMemory` may come at any call.
    pub fn for_size(alloc: Global, n: u32) -> Result<AstarRoom, NoMemory>
        ensures { IfOk result (λ room. room ≡ n) }
    {
        let search = GuidedRoom::for_size(alloc, n)?;
        Ok(AstarRoom { search })
    }
}

/// The walk from `s` to `t` that precedes every other one in the route order, or none where no walk leads from `s` to `t`.
///
/// It needs a graph that fits, two different vertices below its size, an estimate of each vertex that is consistent over
/// the links of the graph and 0 at `s`, and a room of its size, which may hold an earlier search. The estimate says nothing
/// of the route: that is the one of [`least_route`], its ties broken as everywhere; only the work is less where the estimate is
/// near to what walks from `s` cost. The search goes backwards from `t`, by cost and estimate together and then by hops,
/// until `s` has its least label.
/// `NoMemory` may come at any call. Source: Hart, Nilsson, Raphael 1968.
pub fn astar_route<G: Graph>(
    alloc: Global,
    g: &G,
    s: u32,
    t: u32,
    p: &Potential,
    room: &mut AstarRoom,
) -> Result<Option<Route>, NoMemory>
    requires fits { Fits (LinksOf G.Graph g.now) }
    requires differ { s ≢ t }
    requires start { s < G.count g.now }
    requires end { t < G.count g.now }
    requires size { length p.now ≡ G.count g.now }
    requires consistent { IsConsistent (LinksOf G.Graph g.now) (value_at p.now) }
    requires zero { value_at p.now s ≡ 0 }
    requires room { room.old ≡ G.count g.now }
    ensures least { IfOk result (λ found. IfSome found
        (IsLeast nat_cmp (λ walk. IsWalk (LinksOf G.Graph g.now) s walk t))) }
    ensures none { IfOk result (λ found. IfNone found
        ((walk : List (LinkOf ℕ)) → IsWalk (LinksOf G.Graph g.now) s walk t → ⊥)) }
    ensures size { room.new ≡ room.old }
{
    p.is_small();
    labels_guided(g, &[t], s, p, &mut room.search);
    least_route(alloc, g, s, room.search.labels())
}
