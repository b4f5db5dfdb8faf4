ghost use Rattle.std.specs.Prelude.{◌≡◌, ◌<◌, length, IfOk};
ghost use Rattle.std.specs.Ordering.{nat_cmp};
ghost use Rattle.pgr_walks.specs.Graph.{Fits};
ghost use Rattle.pgr_walks.specs.LinksOf.{LinksOf};
ghost use Rattle.pgr_reach.specs.Within.{AreWithin};
ghost use Rattle.pgr_reach.specs.LabelRows.{IsLinkRow, AreRowsBelow};

use crate::reach::{Reach, Reached};
use pgr_outside::NoMemory;
use pgr_search::{Bound, Room, labels_until, least_tight_link, least_walks_follow_tight_links};
use pgr_walks::{Graph, Label, Reversed};
use std::alloc::Global;

/// The vertices whose least cost from a root is at most a limit, by rising cost and then number.
///
/// The graph fits, and the root is a vertex number below its size. A vertex exactly at the limit is within it. Each
/// vertex has its least cost and hops over all walks from the root, and its tree link; the root has itself, edge -1
/// and cost 0. `NoMemory` may come at any call.
/// Source: Dijkstra 1959. Work, not proved: that of a search of the vertices within the limit, and a sort of these.
pub fn within<G: Graph>(alloc: Global, g: &G, root: u32, limit: u64) -> Result<Reach, NoMemory>
    requires fits { Fits (LinksOf G.Graph g.now) }
    requires root { root < G.count g.now }
    ensures root { IfOk result (λ reach. reach.root ≡ root) }
    ensures within { IfOk result (λ reach. AreWithin nat_cmp (LinksOf G.Graph g.now) root limit reach.rows.items) }
{
    let turned = Reversed::view(g);
    let mut room = Room::for_size(alloc, g.size())?;
    labels_until(&turned, &[root], Bound::Limit(limit), &mut room);
    least_walks_follow_tight_links(&turned);
    let mut rows = rows_of_labels(alloc, &turned, root, &room)?;
    rows.sort_unstable_by_key(|row| (row.label.cost, row.node));
    Ok(Reach { root, rows })
}

/// A row for each vertex that has a label, by rising number.
fn rows_of_labels<G: Graph>(
    alloc: Global,
    turned: &G,
    root: u32,
    room: &Room,
) -> Result<Vec<Reached>, NoMemory>
    requires { length room.now ≡ G.count turned.now }
    ensures { IfOk result (λ rows. AreRowsBelow (G.outs turned.now) room.now root (G.count turned.now) rows.items) }
{
    let mut rows = Vec::new(alloc);
    for v in 0..turned.size() {
        if let Some(label) = room.label(v) {
            rows.push(row_of(turned, v, label, root, room))?;
        }
    }
    Ok(rows)
}

/// The row of a vertex with its label: its least tight link in the graph turned round is its tree link.
fn row_of<G: Graph>(turned: &G, v: u32, label: Label, root: u32, room: &Room) -> Reached
    requires vertex { v < G.count turned.now }
    requires room { length room.now ≡ G.count turned.now }
    ensures node { result.node ≡ v }
    ensures label { result.label ≡ label }
    ensures link { IsLinkRow (G.outs turned.now v) room.now root result }
{
    match least_tight_link(turned, v, room) {
        Some(link) => Reached {
            node: v,
            label,
            pred: link.to,
            edge: link.edge,
            cost: link.cost,
        },
        None => Reached {
            node: v,
            label,
            pred: root,
            edge: -1,
            cost: 0,
        },
    }
}
