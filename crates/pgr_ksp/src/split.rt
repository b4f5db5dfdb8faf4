ghost use Rattle.std.specs.Prelude.{◌≡◌, ◌≢◌, ◌+◌, ◌<◌, ◌≤◌, ◌++◌, ◌∷◌, [], ℕ, List, All, IfOk, OnOk, length, take, count_by, slice_index_or};
ghost use Rattle.std.specs.BinaryHeap.{IsHeap, heap_items};
ghost use Rattle.pgr_walks.specs.declared.link.LinkOf.{LinkOf};
ghost use Rattle.pgr_walks.specs.Graph.{greatest};
ghost use Rattle.pgr_walks.specs.LinksOf.{LinksOf};
ghost use Rattle.pgr_walks.specs.Walk.{IsWalk, IsWithoutRepeats, IsLooplessRoute, vertices_of, cost_of as cost_of_walk};
ghost use Rattle.pgr_ksp.specs.Classes.{MarksStarts, IsClass, ArePartition, later_cmp, has, goes_on, one, is_same, taboo_at as taboo_links_at};
ghost use Rattle.pgr_ksp.specs.Sound.{CanSearch};

use crate::class::{Class, Ends, Front, class_of};
use pgr_outside::NoMemory;
use pgr_search::GuidedRoom;
use pgr_walks::{Graph, Link};
use std::alloc::Global;
use std::cmp::Reverse;
use std::collections::BinaryHeap;

/// All loopless routes between two vertices as one class, or no class where there is none; no vertex is marked.
pub fn whole<G: Graph>(
    alloc: Global,
    ends: &Ends<'_, G>,
    gone: &[bool],
    room: &mut GuidedRoom,
) -> Result<BinaryHeap<Reverse<Class>>, NoMemory>
    requires can { CanSearch (G.count ends.now.graph.now) (LinksOf G.Graph ends.now.graph.now) ends.now.s ends.now.t gone.now ends.now.costs.now room.old }
    requires none { MarksStarts gone.now [] }
    ensures heap { IfOk result (λ classes. IsHeap later_cmp (heap_items classes)) }
    ensures classes { IfOk result (λ classes. All (λ item. IsClass (LinksOf G.Graph ends.now.graph.now) ends.now.s ends.now.t item.0) (heap_items classes)) }
    ensures partition { IfOk result (λ classes. ArePartition (LinksOf G.Graph ends.now.graph.now) ends.now.s ends.now.t [] (heap_items classes)) }
    ensures room { length room.new ≡ length room.old }
{
    let mut classes = BinaryHeap::new(alloc);
    let front = Front {
        links: &[],
        end: ends.s,
        cost: 0,
    };
    add_class(
        alloc,
        ends,
        &front,
        Vec::new(alloc),
        gone,
        room,
        &mut classes,
    )?;
    Ok(classes)
}

/// The classes into which the routes of a class fall without its first route: for each place from its kept links
/// on, the routes that leave the first one there.
pub fn split<G: Graph>(
    alloc: Global,
    ends: &Ends<'_, G>,
    class: &Class,
    gone: &mut [bool],
    room: &mut GuidedRoom,
) -> Result<BinaryHeap<Reverse<Class>>, NoMemory>
    requires can { CanSearch (G.count ends.now.graph.now) (LinksOf G.Graph ends.now.graph.now) ends.now.s ends.now.t gone.old ends.now.costs.now room.old }
    requires class { IsClass (LinksOf G.Graph ends.now.graph.now) ends.now.s ends.now.t class.now }
    ensures heap { IfOk result (λ parts. IsHeap later_cmp (heap_items parts)) }
    ensures classes { IfOk result (λ parts. All (λ item. IsClass (LinksOf G.Graph ends.now.graph.now) ends.now.s ends.now.t item.0) (heap_items parts)) }
    ensures parts { IfOk result (λ parts. (route : List (LinkOf ℕ)) → IsLooplessRoute (LinksOf G.Graph ends.now.graph.now) ends.now.s route ends.now.t
        → count_by (has route) (heap_items parts) + one (is_same route class.now.links.items)
        ≡ one (goes_on (take class.now.kept class.now.links.items) class.now.taboo.items route)) }
    ensures marks { length gone.new ≡ length gone.old }
    ensures room { length room.new ≡ length room.old }
{
    let mut cost = mark(&class.links[..class.kept], gone);
    let mut parts = BinaryHeap::new(alloc);
    for place in class.kept..class.links.len() {
        let link = class.links[place];
        let front = Front {
            links: &class.links[..place],
            end: link.from,
            cost,
        };
        let taboo = taboo_at(alloc, class, place)?;
        add_class(alloc, ends, &front, taboo, gone, room, &mut parts)?;
        gone[link.from as usize] = true;
        cost += link.cost;
    }
    Ok(parts)
}

/// Marks exactly the vertices at which links begin, and answers what the links cost.
fn mark(links: &[Link], gone: &mut [bool]) -> u64
    requires below { All (λ link. link.from < length gone.old) links.now }
    requires small { cost_of_walk links.now ≤ greatest }
    ensures marks { MarksStarts gone.new links.now }
    ensures size { length gone.new ≡ length gone.old }
    ensures cost { result ≡ cost_of_walk links.now }
{
    gone.fill(false);
    let mut cost = 0;
    for passed in links {
        gone[passed.from as usize] = true;
        cost += passed.cost;
    }
    cost
}

/// The links with which no route of the class that leaves the first one at a place goes on: the link there, and at
/// the end of the kept links the taboo links of the class.
fn taboo_at(alloc: Global, class: &Class, place: usize) -> Result<Vec<Link>, NoMemory>
    requires { place < length class.now.links.items }
    ensures { IfOk result (λ taboo. (d : LinkOf ℕ)
        → taboo.items ≡ taboo_links_at class.now.kept class.now.taboo.items place ++ slice_index_or class.now.links.items place d ∷ []) }
{
    let mut taboo = Vec::new(alloc);
    if place == class.kept {
        taboo.extend_from_slice(class.taboo.as_slice())?;
    }
    taboo.push(class.links[place])?;
    Ok(taboo)
}

/// Adds the class of a front and taboo links to some classes, where it has a route.
fn add_class<G: Graph>(
    alloc: Global,
    ends: &Ends<'_, G>,
    front: &Front<'_>,
    taboo: Vec<Link>,
    gone: &[bool],
    room: &mut GuidedRoom,
    classes: &mut BinaryHeap<Reverse<Class>>,
) -> Result<(), NoMemory>
    requires can { CanSearch (G.count ends.now.graph.now) (LinksOf G.Graph ends.now.graph.now) ends.now.s ends.now.t gone.now ends.now.costs.now room.old }
    requires walk { IsWalk (LinksOf G.Graph ends.now.graph.now) ends.now.s front.now.links.now front.now.end }
    requires apart { IsWithoutRepeats (vertices_of ends.now.s front.now.links.now) }
    requires inner { front.now.end ≢ ends.now.t }
    requires cost { front.now.cost ≡ cost_of_walk front.now.links.now }
    requires small { front.now.cost ≤ greatest }
    requires marks { MarksStarts gone.now front.now.links.now }
    requires taboo { All (λ link. link.from ≡ front.now.end) taboo.items }
    requires heap { IsHeap later_cmp (heap_items classes.old) }
    requires classes { All (λ item. IsClass (LinksOf G.Graph ends.now.graph.now) ends.now.s ends.now.t item.0) (heap_items classes.old) }
    ensures heap { OnOk result (IsHeap later_cmp (heap_items classes.new)) }
    ensures classes { OnOk result (All (λ item. IsClass (LinksOf G.Graph ends.now.graph.now) ends.now.s ends.now.t item.0) (heap_items classes.new)) }
    ensures more { OnOk result ((route : List (LinkOf ℕ)) → IsLooplessRoute (LinksOf G.Graph ends.now.graph.now) ends.now.s route ends.now.t
        → count_by (has route) (heap_items classes.new) ≡ count_by (has route) (heap_items classes.old) + one (goes_on front.now.links.now taboo.items route)) }
    ensures room { length room.new ≡ length room.old }
{
    match class_of(alloc, ends, front, taboo, gone, room)? {
        None => Ok(()),
        Some(class) => {
            classes.push(Reverse(class))?;
            Ok(())
        }
    }
}
