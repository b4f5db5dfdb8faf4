ghost use Rattle.std.specs.Prelude.{◌≡◌, ◌≢◌, ◌↔◌, ℕ, ◌+◌, ◌<◌, All, Contains, length, map, IfOk, IfSome, IfNone, OnOk, List};
ghost use Rattle.std.specs.Ordering.{nat_cmp};
ghost use Rattle.pgr_walks.specs.declared.link.LinkOf.{LinkOf};
ghost use Rattle.pgr_walks.specs.Graph.{Fits};
ghost use Rattle.pgr_walks.specs.LinksOf.{LinksOf};
ghost use Rattle.pgr_walks.specs.RouteOrder.{IsLeast};
ghost use Rattle.pgr_turns.specs.Restrictions.{IsAllowedWalk};
ghost use Rattle.pgr_turns.specs.Seen.{graph_of, restrictions_of, vertex_at};
ghost use Rattle.pgr_turns.specs.Turned.{beneath};
ghost use Rattle.pgr_turns.specs.Allowed.{AreTargets, HoldsAllowed};

use crate::growth::push;
use crate::turn_graph::TurnGraph;
use pgr_outside::NoMemory;
use pgr_route::{Route, least_route};
use pgr_search::{Bound, Room, labels_until};
use pgr_walks::{Graph, Link};
use std::alloc::Global;

/// The walk between two different vertices that meets no restriction and precedes every other such walk in the
/// route order, or none where there is no such walk. It may come to a vertex more than once.
///
/// The states fit, and the room has their number. The links are those of the graph beneath. `NoMemory` may come at
/// any call; the room keeps its size then.
pub fn allowed_route<'a, G: Graph, M: Graph>(
    alloc: Global,
    turned: &TurnGraph<'a, G, M>,
    from: u32,
    to: u32,
    room: &mut Room,
) -> Result<Option<Route>, NoMemory>
    requires fits { Fits (LinksOf ⟦<TurnGraph<'a, G, M> as Graph>⟧ turned.now) }
    requires differ { from ≢ to }
    requires from { from < G.count (graph_of turned.now) }
    requires to { to < G.count (graph_of turned.now) }
    requires room { length room.old ≡ ⟦<TurnGraph<'a, G, M> as Graph>⟧.count turned.now }
    ensures least { IfOk result (λ found. IfSome found (IsLeast nat_cmp (IsAllowedWalk (LinksOf G.Graph (graph_of turned.now)) (restrictions_of turned.now) from to))) }
    ensures none { IfOk result (λ found. IfNone found ((walk : List (LinkOf ℕ))
        → IsAllowedWalk (LinksOf G.Graph (graph_of turned.now)) (restrictions_of turned.now) from to walk → ⊥)) }
    ensures size { length room.new ≡ length room.old }
{
    search_allowed(alloc, turned, to, &[from], room)?;
    allowed_route_from(alloc, turned, from, to, room)
}

/// Searches the states for the walks to a vertex, until the starts have their labels: one search serves them all.
///
/// The states fit, and the room has their number. `NoMemory` may come at any call; the room keeps its size then.
pub fn search_allowed<'a, G: Graph, M: Graph>(
    alloc: Global,
    turned: &TurnGraph<'a, G, M>,
    to: u32,
    starts: &[u32],
    room: &mut Room,
) -> Result<(), NoMemory>
    requires fits { Fits (LinksOf ⟦<TurnGraph<'a, G, M> as Graph>⟧ turned.now) }
    requires to { to < G.count (graph_of turned.now) }
    requires starts { All (λ start. start < G.count (graph_of turned.now)) starts.now }
    requires room { length room.old ≡ ⟦<TurnGraph<'a, G, M> as Graph>⟧.count turned.now }
    ensures holds { OnOk result ((start : ℕ) → Contains starts.now start
        → HoldsAllowed (⟦<TurnGraph<'a, G, M> as Graph>⟧.count turned.now) (LinksOf ⟦<TurnGraph<'a, G, M> as Graph>⟧ turned.now)
        (vertex_at G.Graph turned.now) to room.new start) }
    ensures size { length room.new ≡ length room.old }
{
    let targets = targets_of(alloc, turned, to)?;
    labels_until(turned, targets.as_slice(), Bound::Wanted(starts), room);
    Ok(())
}

/// The states of a vertex.
fn targets_of<'a, G: Graph, M: Graph>(
    alloc: Global,
    turned: &TurnGraph<'a, G, M>,
    to: u32,
) -> Result<Vec<u32>, NoMemory>
    requires { to < G.count (graph_of turned.now) }
    ensures { IfOk result (λ targets. AreTargets (⟦<TurnGraph<'a, G, M> as Graph>⟧.count turned.now)
        (vertex_at G.Graph turned.now) to targets.items) }
{
    let mut targets = Vec::new(alloc);
    for x in 0..turned.size() {
        append_target(turned, x, to, &mut targets)?;
    }
    Ok(targets)
}

/// Puts a state behind the states of a vertex below it, where it is one.
fn append_target<'a, G: Graph, M: Graph>(
    turned: &TurnGraph<'a, G, M>,
    x: u32,
    to: u32,
    targets: &mut Vec<u32>,
) -> Result<(), NoMemory>
    requires x { x < ⟦<TurnGraph<'a, G, M> as Graph>⟧.count turned.now }
    requires before { AreTargets x (vertex_at G.Graph turned.now) to targets.old.items }
    ensures { OnOk result (AreTargets (x + 1) (vertex_at G.Graph turned.now) to targets.new.items) }
{
    if turned.vertex_of(x) != to {
        return Ok(());
    }
    push(targets, x)
}

/// The least walk from a start that meets no restriction, by a search for the walks to its end, or none where there
/// is no such walk.
pub fn allowed_route_from<'a, G: Graph, M: Graph>(
    alloc: Global,
    turned: &TurnGraph<'a, G, M>,
    from: u32,
    to: u32,
    room: &Room,
) -> Result<Option<Route>, NoMemory>
    requires fits { Fits (LinksOf ⟦<TurnGraph<'a, G, M> as Graph>⟧ turned.now) }
    requires from { from < G.count (graph_of turned.now) }
    requires holds { HoldsAllowed (⟦<TurnGraph<'a, G, M> as Graph>⟧.count turned.now) (LinksOf ⟦<TurnGraph<'a, G, M> as Graph>⟧ turned.now)
        (vertex_at G.Graph turned.now) to room.now from }
    ensures least { IfOk result (λ found. IfSome found (IsLeast nat_cmp (IsAllowedWalk (LinksOf G.Graph (graph_of turned.now)) (restrictions_of turned.now) from to))) }
    ensures none { IfOk result (λ found. IfNone found ((walk : List (LinkOf ℕ))
        → IsAllowedWalk (LinksOf G.Graph (graph_of turned.now)) (restrictions_of turned.now) from to walk → ⊥)) }
{
    match least_route(alloc, turned, from, room)? {
        None => Ok(None),
        Some(route) => Ok(Some(route_beneath(alloc, turned, &route)?)),
    }
}

/// The route beneath a route of states.
fn route_beneath<'a, G: Graph, M: Graph>(
    alloc: Global,
    turned: &TurnGraph<'a, G, M>,
    route: &Route,
) -> Result<Route, NoMemory>
    requires { All (λ link. (link.from < ⟦<TurnGraph<'a, G, M> as Graph>⟧.count turned.now) × (link.to < ⟦<TurnGraph<'a, G, M> as Graph>⟧.count turned.now)) route.now }
    ensures { IfOk result (λ made. made ≡ map (beneath (vertex_at G.Graph turned.now)) route.now) }
{
    let mut links = Vec::new(alloc);
    for link in route.links() {
        push(&mut links, link_beneath(turned, *link))?;
    }
    Ok(Route::of(links))
}

/// The link beneath a link of states.
fn link_beneath<'a, G: Graph, M: Graph>(turned: &TurnGraph<'a, G, M>, link: Link) -> Link
    requires { (link.from < ⟦<TurnGraph<'a, G, M> as Graph>⟧.count turned.now) × (link.to < ⟦<TurnGraph<'a, G, M> as Graph>⟧.count turned.now) }
    ensures { result ≡ beneath (vertex_at G.Graph turned.now) link }
{
    Link {
        from: turned.vertex_of(link.from),
        edge: link.edge,
        cost: link.cost,
        to: turned.vertex_of(link.to),
    }
}
