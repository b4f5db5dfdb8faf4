ghost use Rattle.std.specs.Prelude.{◌≡◌, ◌≢◌, ◌≤◌, ◌++◌, ℕ, List, All, IfOk, IfSome, IfNone, length, take};
ghost use Rattle.pgr_walks.specs.declared.link.LinkOf.{LinkOf};
ghost use Rattle.pgr_walks.specs.Graph.{greatest};
ghost use Rattle.pgr_walks.specs.LinksOf.{LinksOf};
ghost use Rattle.pgr_walks.specs.Walk.{IsWalk, IsWithoutRepeats, vertices_of, cost_of};
ghost use Rattle.pgr_ksp.specs.Classes.{MarksStarts, IsClass, IsMember};
ghost use Rattle.pgr_ksp.specs.Sound.{CanSearch};

use crate::from_start::FromStart;
use pgr_outside::NoMemory;
use pgr_route::least_route;
use pgr_search::{GuidedRoom, Room, labels_guided};
use pgr_walks::{Graph, Link, Without, one_walk_to_targets_is_least};
use std::alloc::Global;

/// Loopless routes that begin with the same links and go on with none of some links, by the first of them.
///
/// Classes are compared by their first routes, in the route order.
#[derive(PartialEq, Eq, PartialOrd, Ord, Drop)]
pub struct Class {
    /// What its first route costs.
    pub cost: u64,
    /// How many links that has.
    pub hops: usize,
    /// Its first route.
    pub links: Vec<Link>,
    /// With how many of these links each of its routes begins.
    pub kept: usize,
    /// The links with which none of them goes on.
    pub taboo: Vec<Link>,
}

/// Two vertices of a graph, and the least costs from the first.
#[derive(Drop)]
pub struct Ends<'a, G> {
    pub graph: &'a G,
    pub s: u32,
    pub t: u32,
    pub costs: &'a Room,
}

/// The links with which a class begins, where they lead and what they cost.
#[derive(Drop)]
pub struct Front<'a> {
    pub links: &'a [Link],
    pub end: u32,
    pub cost: u64,
}

/// The class of the loopless routes that begin with a front and go on with no taboo link, or none where there is
/// no such route.
///
/// It searches the graph without the vertices of the front, which are marked, and the taboo links, which leave its end.
pub fn class_of<G: Graph>(
    alloc: Global,
    ends: &Ends<'_, G>,
    front: &Front<'_>,
    taboo: Vec<Link>,
    gone: &[bool],
    room: &mut GuidedRoom,
) -> Result<Option<Class>, NoMemory>
    requires can { CanSearch (G.count ends.now.graph.now) (LinksOf G.Graph ends.now.graph.now) ends.now.s ends.now.t gone.now ends.now.costs.now room.old }
    requires walk { IsWalk (LinksOf G.Graph ends.now.graph.now) ends.now.s front.now.links.now front.now.end }
    requires apart { IsWithoutRepeats (vertices_of ends.now.s front.now.links.now) }
    requires inner { front.now.end ≢ ends.now.t }
    requires cost { front.now.cost ≡ cost_of front.now.links.now }
    requires small { front.now.cost ≤ greatest }
    requires marks { MarksStarts gone.now front.now.links.now }
    requires taboo { All (λ link. link.from ≡ front.now.end) taboo.items }
    ensures class { IfOk result (λ found. IfSome found (IsClass (LinksOf G.Graph ends.now.graph.now) ends.now.s ends.now.t)) }
    ensures kept { IfOk result (λ found. IfSome found (λ class. take class.kept class.links.items ≡ front.now.links.now)) }
    ensures taboo { IfOk result (λ found. IfSome found (λ class. class.taboo.items ≡ taboo.items)) }
    ensures none { IfOk result (λ found. IfNone found ((route : List (LinkOf ℕ))
        → IsMember (LinksOf G.Graph ends.now.graph.now) ends.now.s ends.now.t front.now.links.now taboo.items route → ⊥)) }
    ensures room { length room.new ≡ length room.old }
{
    let view = Without::view(ends.graph, gone, front.end, taboo.as_slice());
    let estimate = FromStart::beyond(ends.costs, front.end);
    labels_guided(&view, &[ends.t], front.end, &estimate, room);
    one_walk_to_targets_is_least(&view);
    let Some(tail) = least_route(alloc, &view, front.end, room.labels())? else {
        return Ok(None);
    };
    let cost = front.cost + tail.cost();
    let links = joined(alloc, front.links, tail.links())?;
    Ok(Some(Class {
        cost,
        hops: links.len(),
        links,
        kept: front.links.len(),
        taboo,
    }))
}

/// The links of a front, and then those of a tail.
fn joined(alloc: Global, front: &[Link], tail: &[Link]) -> Result<Vec<Link>, NoMemory>
    ensures { IfOk result (λ links. links.items ≡ front.now ++ tail.now) }
{
    let mut links = Vec::from_slice(alloc, front)?;
    links.extend_from_slice(tail)?;
    Ok(links)
}
