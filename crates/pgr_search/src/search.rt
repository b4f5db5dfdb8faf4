ghost use Rattle.std.specs.Prelude.{◌≡◌, ◌<◌, ◌≤◌, ◌^◌, Some, None, All, IsNone, IfSome, IfNone, length, slice_set, slice_index_or, Contains};
ghost use Rattle.pgr_walks.specs.Graph.{Fits};
ghost use Rattle.pgr_walks.specs.LinksOf.{LinksOf};
ghost use Rattle.pgr_walks.specs.Label.{HoldsLabels};
ghost use Rattle.pgr_search.specs.FinalLabels.{HoldsLabelsUpTo, MeetsBound, IsBoundOf};
ghost use Rattle.pgr_search.specs.Relaxing.{label_cmp, CanRelax, all_relaxed};
ghost use Rattle.pgr_search.specs.Heap.{IsLeast};
ghost use Rattle.pgr_search.specs.Turn.{AreReached, HasReached, IsBefore, IsOver};
ghost use Rattle.pgr_search.specs.Start.{StartsAt};

use crate::bound::Bound;
use crate::heap::{Heap, Waiting};
use crate::relaxing::Relaxing;
use crate::room::Room;
use crate::settled::Settled;
use pgr_walks::{Graph, Label, least_labels_are_small};

/// Gives each vertex the least cost and hops over all walks from it to a target, and none where there is no such walk.
///
/// It needs a graph that fits, targets below its size and a room of that size. A target has cost 0 and
/// no hops. There may be no targets, and they may repeat; what the room held before has no part in the
/// answer. It takes no memory.
/// Source: Dijkstra 1959. Work, not proved: for each link and each vertex the steps of a heap of the waiting vertices.
pub fn labels_to<G: Graph>(g: &G, targets: &[u32], room: &mut Room)
    requires fits { Fits (LinksOf G.Graph g.now) }
    requires targets { All (λ t. t < G.count g.now) targets.now }
    requires room { length room.old ≡ G.count g.now }
    ensures labels { HoldsLabels (G.count g.now) (LinksOf G.Graph g.now) targets.now room.new }
    ensures size { length room.new ≡ length room.old }
{
    labels_until(g, targets, Bound::Everywhere, room);
}

/// Gives vertices their least cost and hops over all walks to a target, the least labels first, up to a bound.
///
/// It needs what `labels_to` does, and wanted vertices below the graph's size. Each label is the least of its
/// vertex, and a vertex has none where no walk leads from it to a target, or where its least label is not
/// less than any that the room holds.
/// With wanted vertices each of them has its least label, or none where no walk leads from it to a target,
/// and no label is beyond those of all of them; they may repeat, and where there are none no vertex has a label.
/// With a limit the vertices that have a label are exactly those whose least cost is at most the limit.
/// It takes no memory.
/// Source: Dijkstra 1959. Work, not proved: for each vertex with a label and each link into it the steps of a heap of
/// the waiting vertices, and no other link is shown.
pub fn labels_until<G: Graph>(g: &G, targets: &[u32], bound: Bound<'_>, room: &mut Room)
    requires fits { Fits (LinksOf G.Graph g.now) }
    requires targets { All (λ t. t < G.count g.now) targets.now }
    requires bound { IsBoundOf (G.count g.now) bound }
    requires room { length room.old ≡ G.count g.now }
    ensures labels { HoldsLabelsUpTo (G.count g.now) (LinksOf G.Graph g.now) targets.now room.new }
    ensures bound { MeetsBound (G.count g.now) (LinksOf G.Graph g.now) targets.now bound.entry room.new }
    ensures size { length room.new ≡ length room.old }
{
    search(g, targets, bound, &mut room.settled, &mut room.waiting);
    room.waiting.clear();
}

/// Settles vertices, the least labels first, up to a bound, whatever was settled before.
fn search<G: Graph>(
    g: &G,
    targets: &[u32],
    bound: Bound<'_>,
    settled: &mut Settled,
    waiting: &mut Heap<Label>,
)
    requires fits { Fits (LinksOf G.Graph g.now) }
    requires targets { All (λ t. t < G.count g.now) targets.now }
    requires bound { IsBoundOf (G.count g.now) bound }
    requires settled { length settled.old ≡ G.count g.now }
    requires waiting { length waiting.old ≡ G.count g.now }
    requires none { All IsNone waiting.old }
    requires small { G.count g.now < 2 ^ 32 }
    ensures labels { HoldsLabelsUpTo (G.count g.now) (LinksOf G.Graph g.now) targets.now settled.new }
    ensures bound { MeetsBound (G.count g.now) (LinksOf G.Graph g.now) targets.now bound.entry settled.new }
    ensures waiting { length waiting.new ≡ length waiting.old }
{
    least_labels_are_small(g);
    settled.clear();
    mark_targets(targets, waiting);
    let mut reached = 0;
    while let Some(nearest) = next(bound, settled, waiting, &mut reached) {
        settle(g, nearest, settled, waiting);
    }
}

/// Gives each target the label of the walk without links; no other vertex waits.
fn mark_targets(targets: &[u32], waiting: &mut Heap<Label>)
    requires targets { All (λ t. t < length waiting.old) targets.now }
    requires none { All IsNone waiting.old }
    ensures marks { StartsAt targets.now waiting.new }
    ensures size { length waiting.new ≡ length waiting.old }
{
    for t in targets {
        waiting.lower(*t, Label { cost: 0, hops: 0 });
    }
}

/// The next vertex to settle, one of least label, or none at the bound.
///
/// It counts in `reached` how many of the wanted vertices, from the first, are settled.
fn next(
    bound: Bound<'_>,
    settled: &Settled,
    waiting: &Heap<Label>,
    reached: &mut usize,
) -> Option<Waiting<Label>>
    requires bound { IsBoundOf (length settled.now) bound }
    requires reached { HasReached bound settled.now reached.old }
    ensures least { IfSome result (IsLeast label_cmp waiting.now) }
    ensures before { IfSome result (λ nearest. IsBefore bound.entry settled.now nearest.key) }
    ensures over { IfNone result (IsOver bound.entry settled.now waiting.now) }
    ensures reached { HasReached bound.entry settled.now reached.new }
{
    let nearest = waiting.least()?;
    match bound {
        Bound::Everywhere => Some(nearest),
        Bound::Wanted(wanted) => {
            *reached = skip_settled(wanted, settled, *reached);
            if *reached < wanted.len() {
                Some(nearest)
            } else {
                None
            }
        }
        Bound::Limit(limit) => {
            if nearest.key.cost <= limit {
                Some(nearest)
            } else {
                None
            }
        }
    }
}

/// How many of the wanted vertices, from the first, are settled, where so many are.
fn skip_settled(wanted: &[u32], settled: &Settled, reached: usize) -> usize
    requires wanted { All (λ w. w < length settled.now) wanted.now }
    requires reached { AreReached wanted.now settled.now reached }
    ensures reached { AreReached wanted.now settled.now result }
    ensures next { result < length wanted.now → slice_index_or settled.now (slice_index_or wanted.now result 0) None ≡ None }
{
    let mut reached = reached;
    while reached < wanted.len() && settled.label(wanted[reached]).is_some() {
        reached += 1;
    }
    reached
}

/// Settles a vertex: its label is final, and the links into it are relaxed.
fn settle<G: Graph>(
    g: &G,
    nearest: Waiting<Label>,
    settled: &mut Settled,
    waiting: &mut Heap<Label>,
)
    requires vertex { nearest.vertex < G.count g.now }
    requires settled { length settled.old ≡ G.count g.now }
    requires waiting { length waiting.old ≡ G.count g.now }
    requires waits { slice_index_or settled.old nearest.vertex None ≡ None }
    requires links { All (CanRelax (G.count g.now) nearest.key) (G.ins g.now nearest.vertex) }
    ensures settled { settled.new ≡ slice_set settled.old nearest.vertex (Some nearest.key) }
    ensures waiting { waiting.new
        ≡ all_relaxed settled.new (slice_set waiting.old nearest.vertex None) nearest.key (G.ins g.now nearest.vertex) }
{
    settled.settle(nearest.vertex, nearest.key);
    waiting.remove(nearest.vertex);
    let mut relaxing = Relaxing {
        settled,
        waiting,
        label: nearest.key,
    };
    g.each_in(nearest.vertex, &mut relaxing);
}
