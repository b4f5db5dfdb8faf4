ghost use Rattle.std.specs.Prelude.{◌≡◌, ◌≢◌, ◌<◌, ◌++◌, ◌∷◌, [], ℕ, List, IfOk, IfSome, OnErr, IsNone, IfNone, ◌↔◌};
ghost use Rattle.std.specs.Ordering.{nat_cmp};
ghost use Rattle.pgr_walks.specs.declared.link.LinkOf.{LinkOf};
ghost use Rattle.pgr_walks.specs.Graph.{Fits};
ghost use Rattle.pgr_walks.specs.LinksOf.{LinksOf};
ghost use Rattle.pgr_walks.specs.RouteOrder.{IsLeast};
ghost use Rattle.pgr_ksp.specs.Routes.{AreFirst, AreAll, IsLeft};

use crate::class::{Class, Ends};
use crate::split::{split, whole};
use pgr_outside::NoMemory;
use pgr_route::Route;
use pgr_search::{GuidedRoom, Room, labels_to};
use pgr_walks::{Graph, Reversed, least_labels_are_small};
use std::alloc::Global;
use std::cmp::Reverse;
use std::collections::BinaryHeap;
use std::marker::Model;

/// The loopless routes between two vertices of a graph, from the least on, as far as they were asked for.
///
/// It is seen as its graph, the two vertices and the routes given so far, in order.
#[derive(Drop)]
pub struct Paths<'a, G: Graph> {
    alloc: Global,
    graph: &'a G,
    s: u32,
    t: u32,
    given: Vec<Route>,
    classes: BinaryHeap<Reverse<Class>>,
    gone: Vec<bool>,
    costs: Room,
    room: GuidedRoom,
}

impl<'a, G: Graph> Model for Paths<'a, G> {
    ghost use Rattle.pgr_ksp.specs.Enumeration.{Enumeration, enumeration_code};
    ghost use Rattle.std.specs.BinaryHeap.{heap_items};
    ghost use Rattle.pgr_walks.specs.LinksOf.{LinksOf};
    ghost use Rattle.pgr_ksp.specs.Sound.{CanSearch, IsSound};

    ghost Value = { Enumeration G };

    ghost coded = { enumeration_code G.code };

    ghost view = { λ paths. record { graph = paths.graph.now; s = paths.s; t = paths.t; given = paths.given.items } };

    ghost invariant = { λ paths. CanSearch (G.count paths.graph.now) (LinksOf G.Graph paths.graph.now) paths.s paths.t paths.gone.items paths.costs paths.room
        × IsSound (LinksOf G.Graph paths.graph.now) paths.s paths.t paths.given.items (heap_items paths.classes) };
}

impl<'a, G: Graph> Paths<'a, G> {
    /// Begins with the loopless routes from `s` to `t`; none of them was given.
    ///
    /// The graph fits, and `s` and `t` are different vertex numbers below its size; there may be no walk between them.
    /// `NoMemory` may come at any call. Work, not proved: a search of the whole graph, and one for the first route.
    pub fn start(alloc: Global, g: &'a G, s: u32, t: u32) -> Result<Paths<'a, G>, NoMemory>
        requires fits { Fits (LinksOf G.Graph g.now) }
        requires differ { s ≢ t }
        requires s { s < G.count g.now }
        requires t { t < G.count g.now }
        ensures graph { IfOk result (λ paths. paths.graph ≡ g.now) }
        ensures s { IfOk result (λ paths. paths.s ≡ s) }
        ensures t { IfOk result (λ paths. paths.t ≡ t) }
        ensures given { IfOk result (λ paths. paths.given ≡ []) }
    {
        let size = g.size();
        let gone = vec![in alloc; false; size as usize]?;
        let mut costs = Room::for_size(alloc, size)?;
        let turned = Reversed::view(g);
        labels_to(&turned, &[s], &mut costs);
        least_labels_are_small(&turned);
        let mut room = GuidedRoom::for_size(alloc, size)?;
        let classes = whole(
            alloc,
            &Ends {
                graph: g,
                s,
                t,
                costs: &costs,
            },
            gone.as_slice(),
            &mut room,
        )?;
        Ok(Paths {
            alloc,
            graph: g,
            s,
            t,
            given: Vec::new(alloc),
            classes,
            gone,
            costs,
            room,
        })
    }

    /// The least loopless route from `s` to `t` that was not given yet, or none where all were given.
    ///
    /// Routes come in the route order: those of equal cost by the number of links, and then by their links; two
    /// parallel links of one edge give two routes. A route that comes is given from then on, and none comes again
    /// and again. `NoMemory` may come at any call, and leaves the object as it was.
    /// Source: Yen 1971, as a partition of the remaining routes by their first links. Work, not proved: a guided
    /// search for each link of the route behind those with which its class begins.
    pub fn next(&mut self) -> Result<Option<Route>, NoMemory>
        ensures graph { self.new.graph ≡ self.old.graph }
        ensures s { self.new.s ≡ self.old.s }
        ensures t { self.new.t ≡ self.old.t }
        ensures least { IfOk result (λ found. IfSome found (IsLeast nat_cmp (IsLeft (LinksOf G.Graph self.old.graph) self.old.s self.old.t self.old.given))) }
        ensures none { IfOk result (λ found. IsNone found ↔ AreAll (LinksOf G.Graph self.old.graph) self.old.s self.old.t self.old.given) }
        ensures more { IfOk result (λ found. IfSome found (λ route. self.new.given ≡ self.old.given ++ route ∷ [])) }
        ensures same { IfOk result (λ found. IfNone found (self.new ≡ self.old)) }
        ensures unchanged { OnErr result (self.new ≡ self.old) }
    {
        let Some(first) = self.classes.peek() else {
            return Ok(None);
        };
        let ends = Ends {
            graph: self.graph,
            s: self.s,
            t: self.t,
            costs: &self.costs,
        };
        let mut parts = split(
            self.alloc,
            &ends,
            &first.0,
            self.gone.as_mut_slice(),
            &mut self.room,
        )?;
        let copy = Vec::from_slice(self.alloc, first.0.links.as_slice())?;
        self.given.reserve(1)?;
        self.classes.reserve(parts.len())?;
        let Some(Reverse(class)) = self.classes.pop() else {
            unreachable!()
        };
        match self.classes.append(&mut parts) {
            Ok(()) => {}
            Err(_) => unreachable!(),
        }
        match self.given.push(Route::of(copy)) {
            Ok(()) => {}
            Err(_) => unreachable!(),
        }
        Ok(Some(Route::of(class.links)))
    }

    /// The routes that were given are the first.
    pub(crate) fn open(&self)
        ensures { AreFirst nat_cmp (LinksOf G.Graph self.now.graph) self.now.s self.now.t self.now.given }
    {
        let _ = &self.graph;
    }
}
