ghost use Rattle.std.specs.Prelude.{◌≡◌, ◌<◌, ◌≤◌, ◌-◌, ◌^◌, ℕ, Some, None, All, IsNone, IfOk, length, slice_set, slice_index_or};
ghost use Rattle.pgr_walks.specs.Graph.{Fits};
ghost use Rattle.pgr_walks.specs.LinksOf.{LinksOf};
ghost use Rattle.pgr_search.specs.FinalLabels.{HoldsLabelsFrom};
ghost use Rattle.pgr_search.specs.Estimates.{IsConsistent, NoneBeyond};
ghost use Rattle.pgr_search.specs.Guiding.{CanGuide, StartsGuided, all_guided, label_of_key};

use crate::estimate::Estimate;
use crate::guiding::{Guiding, Key};
use crate::heap::{Heap, Waiting};
use crate::room::Room;
use crate::settled::Settled;
use pgr_outside::NoMemory;
use pgr_walks::{Graph, Label, least_labels_are_small};
use std::alloc::Global;
use std::marker::Model;

/// Room for the labels of a guided search, one place for each vertex number.
#[derive(Drop)]
pub struct GuidedRoom {
    room: Room,
    keys: Heap<Key>,
}

impl Model for GuidedRoom {
    ghost use Rattle.std.specs.Prelude.{◌≡◌, All, IsNone, List, Option, length};
    ghost use Rattle.pgr_walks.specs.declared.label.Label.{Label};

    ghost Value = { List (Option Label) };

    ghost view = { λ guided. guided.room };

    ghost invariant = { λ guided. (length guided.keys ≡ length guided.room) × All IsNone guided.keys };
}

impl GuidedRoom {
    /// Takes all memory of a guided search over `n` vertices; none of them has a label.
    ///
    /// `NoMemory` may come at any call.
    pub fn for_size(alloc: Global, n: u32) -> Result<GuidedRoom, NoMemory>
        ensures size { IfOk result (λ room. length room ≡ n) }
        ensures empty { IfOk result (All IsNone) }
    {
        let room = Room::for_size(alloc, n)?;
        let keys = Heap::for_size(alloc, n)?;
        Ok(GuidedRoom { room, keys })
    }

    /// The labels, as a room of a search.
    pub fn labels(&self) -> &Room
        ensures { result.now ≡ self.now }
    {
        &self.room
    }
}

/// Gives vertices their least labels over all walks to a target, those of least cost and estimate together first,
/// until a start has its label or none is left.
///
/// It needs a graph that fits, targets and a start below its size, a room of that size, and an estimate of each
/// vertex that is below 2^127 and consistent: along no link it rises by more than the link costs. The label of
/// the start is its least, or none exactly where no walk leads from it to a target; each other label is the least of its
/// vertex, and with a vertex each one that a least walk from it comes to has its own. So `least_tight_link` finds the
/// least walk from the start. Where the start has a label, no vertex has one whose cost and estimate together, and
/// then its hops, come after those of the start. It takes no memory.
/// Source: Hart, Nilsson, Raphael 1968.
pub fn labels_guided<G: Graph, E: Estimate>(
    g: &G,
    targets: &[u32],
    start: u32,
    estimate: &E,
    room: &mut GuidedRoom,
)
    requires fits { Fits (LinksOf G.Graph g.now) }
    requires targets { All (λ t. t < G.count g.now) targets.now }
    requires start { start < G.count g.now }
    requires size { E.count estimate.now ≡ G.count g.now }
    requires small { (v : ℕ) → v < G.count g.now → E.values estimate.now v < 2 ^ 127 }
    requires consistent { IsConsistent (LinksOf G.Graph g.now) (E.values estimate.now) }
    requires room { length room.old ≡ G.count g.now }
    ensures labels { HoldsLabelsFrom (G.count g.now) (LinksOf G.Graph g.now) targets.now room.new start }
    ensures guided { NoneBeyond (E.values estimate.now) room.new start }
    ensures size { length room.new ≡ length room.old }
{
    let settled = &mut room.room.settled;
    guide(g, targets, start, estimate, settled, &mut room.keys);
    room.keys.clear();
}

/// Settles vertices, those of least key first, until the start is settled or none waits.
fn guide<G: Graph, E: Estimate>(
    g: &G,
    targets: &[u32],
    start: u32,
    estimate: &E,
    settled: &mut Settled,
    keys: &mut Heap<Key>,
)
    requires fits { Fits (LinksOf G.Graph g.now) }
    requires targets { All (λ t. t < G.count g.now) targets.now }
    requires start { start < G.count g.now }
    requires size { E.count estimate.now ≡ G.count g.now }
    requires small { (v : ℕ) → v < G.count g.now → E.values estimate.now v < 2 ^ 127 }
    requires consistent { IsConsistent (LinksOf G.Graph g.now) (E.values estimate.now) }
    requires settled { length settled.old ≡ G.count g.now }
    requires keys { length keys.old ≡ G.count g.now }
    requires none { All IsNone keys.old }
    requires few { G.count g.now < 2 ^ 32 }
    ensures labels { HoldsLabelsFrom (G.count g.now) (LinksOf G.Graph g.now) targets.now settled.new start }
    ensures guided { NoneBeyond (E.values estimate.now) settled.new start }
    ensures keys { length keys.new ≡ length keys.old }
{
    least_labels_are_small(g);
    settled.clear();
    mark_with_estimates(targets, estimate, keys);
    while settled.label(start).is_none() {
        match keys.least() {
            None => return,
            Some(nearest) => settle_guided(g, nearest, estimate, settled, keys),
        }
    }
}

/// Gives each target the key of the walk without links; no other vertex waits.
fn mark_with_estimates<E: Estimate>(targets: &[u32], estimate: &E, keys: &mut Heap<Key>)
    requires targets { All (λ t. t < length keys.old) targets.now }
    requires size { E.count estimate.now ≡ length keys.old }
    requires none { All IsNone keys.old }
    ensures marks { StartsGuided (E.values estimate.now) targets.now keys.new }
    ensures size { length keys.new ≡ length keys.old }
{
    for t in targets {
        let cost = estimate.value(*t);
        keys.lower(*t, Key { cost, hops: 0 });
    }
}

/// Settles a vertex: its label is final, and the links into it are relaxed.
fn settle_guided<G: Graph, E: Estimate>(
    g: &G,
    nearest: Waiting<Key>,
    estimate: &E,
    settled: &mut Settled,
    keys: &mut Heap<Key>,
)
    requires vertex { nearest.vertex < G.count g.now }
    requires size { E.count estimate.now ≡ G.count g.now }
    requires settled { length settled.old ≡ G.count g.now }
    requires keys { length keys.old ≡ G.count g.now }
    requires waits { slice_index_or settled.old nearest.vertex None ≡ None }
    requires estimated { E.values estimate.now nearest.vertex ≤ nearest.key.cost }
    requires fits { nearest.key.cost - E.values estimate.now nearest.vertex < 2 ^ 64 }
    requires links { All (CanGuide (G.count g.now) (E.values estimate.now) (label_of_key (E.values estimate.now) nearest.vertex nearest.key))
        (G.ins g.now nearest.vertex) }
    ensures settled { settled.new
        ≡ slice_set settled.old nearest.vertex (Some (label_of_key (E.values estimate.now) nearest.vertex nearest.key)) }
    ensures keys { keys.new
        ≡ all_guided (E.values estimate.now) settled.new (slice_set keys.old nearest.vertex None)
        (label_of_key (E.values estimate.now) nearest.vertex nearest.key) (G.ins g.now nearest.vertex) }
{
    let label = Label {
        cost: (nearest.key.cost - estimate.value(nearest.vertex)) as u64,
        hops: nearest.key.hops,
    };
    settled.settle(nearest.vertex, label);
    keys.remove(nearest.vertex);
    let mut guiding = Guiding {
        settled,
        keys,
        estimate,
        label,
    };
    g.each_in(nearest.vertex, &mut guiding);
}
