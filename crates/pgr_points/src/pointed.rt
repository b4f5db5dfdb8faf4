ghost use Rattle.std.specs.Prelude.{◌≡◌, ◌↔◌, ◌++◌, ◌*◌, ◌<◌, ◌≤◌, [], ◌∷◌, ℤ, List, map, All, AllPairs, Contains, IfOk, OnOk};
ghost use Rattle.std.specs.Ordering.{int_cmp};
ghost use Rattle.pgr_walks.specs.declared.link.LinkOf.{LinkOf};
ghost use Rattle.pgr_walks.specs.Link.{link_cmp};
ghost use Rattle.pgr_walks.specs.Graph.{IsStrictlyRising};
ghost use Rattle.pgr_table.specs.Points.{IsPoint};
ghost use Rattle.pgr_points.specs.Pointed.{IsPointed};
ghost use Rattle.pgr_points.specs.Places.{place_cmp};
ghost use Rattle.pgr_points.specs.Senses.{parts_of_row, parts_of_sense, points_of, seen_of, AreInOrder};
ghost use Rattle.pgr_points.specs.declared.stop.Stop.{Stop as AStop};
ghost use Rattle.pgr_points.specs.Stops.{offset_of, part, parts, stop_at, stops};

use crate::places::{points_by_place, points_of, product};
use crate::sight::Sight;
use crate::stop::Stop;
use pgr_graph::Direction;
use pgr_outside::{NoMemory, Side};
use pgr_table::{EdgeRow, EdgeTable, PointRow, PointTable};
use pgr_walks::NamedLink;
use std::alloc::Global;

/// The links of a table of edges with points along them, each once, rising by where they begin, then by edge, cost and
/// where they lead.
///
/// A point is the vertex of its id with a minus sign. It lies `over / under` of the way along its edge: on a link of cost
/// c at `c * over / under`, rounded down, from the edge's source, whichever way the link leads. In the directed graph a
/// link from source to target sees the points of both sides and those of the driving side, and a link from target to
/// source those of both sides and those of the other one; where one drives on both sides, and in the undirected graph, every
/// link sees all points of its edge. A link is replaced by its parts between the points that it sees, by rising fraction and,
/// at equal fractions, by rising id. Each part costs the difference of its two ends, 0 included, and keeps the edge's id.
/// A point that no link sees is no vertex. `NoMemory` may come at any call.
/// Source: the withPoints functions of pgRouting; rounding and ties are this project's.
pub fn with_points(
    alloc: Global,
    edges: &EdgeTable,
    points: &PointTable,
    driving: Side,
    directed: bool,
) -> Result<Vec<NamedLink>, NoMemory>
    ensures links { IfOk result
        (λ links. (link : LinkOf ℤ) → Contains links.items link ↔ IsPointed edges.now points.now driving directed link) }
    ensures rising { IfOk result (λ links. IsStrictlyRising (link_cmp int_cmp) links.items) }
{
    let sight = Sight { driving, directed };
    // From this call it is known what holds of all points.
    let _count = points.len();
    let placed = points_by_place(alloc, points)?;
    let mut links = Vec::new(alloc);
    for i in 0..edges.len() {
        push_row(&mut links, edges.row(i), sight, placed.as_slice())?;
    }
    links.sort_unstable();
    links.dedup();
    Ok(links)
}

/// Appends the parts of the links that the row gives.
fn push_row(
    links: &mut Vec<NamedLink>,
    row: EdgeRow,
    sight: Sight,
    placed: &[PointRow],
) -> Result<(), NoMemory>
    requires points { All IsPoint placed.now }
    requires rising { IsStrictlyRising place_cmp placed.now }
    ensures { OnOk result
        (links.new.items ≡ links.old.items ++ parts_of_row sight.driving sight.directed row (points_of row.id placed.now)) }
{
    let points = points_of(placed, row.id);
    push_sense(links, row, Direction::Forward, row.cost, sight, points)?;
    push_sense(
        links,
        row,
        Direction::Backward,
        row.reverse_cost,
        sight,
        points,
    )?;
    if !sight.directed {
        push_sense(links, row, Direction::Backward, row.cost, sight, points)?;
        push_sense(
            links,
            row,
            Direction::Forward,
            row.reverse_cost,
            sight,
            points,
        )?;
    }
    Ok(())
}

/// Appends the parts of the link along the row in the direction with the cost; none where the cost is negative.
fn push_sense(
    links: &mut Vec<NamedLink>,
    row: EdgeRow,
    direction: Direction,
    cost: i64,
    sight: Sight,
    points: &[PointRow],
) -> Result<(), NoMemory>
    requires points { All IsPoint points.now }
    requires rise { AllPairs AreInOrder points.now }
    ensures { OnOk result (links.new.items ≡ links.old.items ++ parts_of_sense row direction cost (seen_of sight.driving sight.directed direction points.now)) }
{
    match u64::try_from(cost) {
        Ok(cost) => push_parts(links, row, direction, cost, sight, points),
        Err(_) => Ok(()),
    }
}

/// Appends the parts of the link along the row in the direction with the cost.
fn push_parts(
    links: &mut Vec<NamedLink>,
    row: EdgeRow,
    direction: Direction,
    cost: u64,
    sight: Sight,
    points: &[PointRow],
) -> Result<(), NoMemory>
    requires points { All IsPoint points.now }
    requires rise { AllPairs AreInOrder points.now }
    ensures { OnOk result
        (links.new.items ≡ links.old.items ++ parts row.id direction (stops row cost (seen_of sight.driving sight.directed direction points.now))) }
{
    let mut stop = Stop {
        vertex: row.source,
        offset: 0,
    };
    for point in points {
        stop = pass(links, row.id, direction, cost, sight, stop, *point)?;
    }
    let end = Stop {
        vertex: row.target,
        offset: cost,
    };
    push_part(links, row.id, direction, stop, end)
}

/// Passes a point: where the link sees it, appends the part up to it and stops there.
fn pass(
    links: &mut Vec<NamedLink>,
    edge: i64,
    direction: Direction,
    cost: u64,
    sight: Sight,
    stop: Stop,
    point: PointRow,
) -> Result<Stop, NoMemory>
    requires point { IsPoint point }
    requires ahead { stop.offset ≤ offset_of cost point }
    ensures parts { IfOk result (λ next. (rest : List AStop)
        → links.new.items ++ parts edge direction (next ∷ rest)
        ≡ links.old.items ++ parts edge direction (stop ∷ (map (stop_at cost) (seen_of sight.driving sight.directed direction (point ∷ [])) ++ rest))) }
    ensures behind { IfOk result (λ next. next.offset ≤ offset_of cost point) }
{
    if !sight.sees(direction, point.side) {
        return Ok(stop);
    }
    let next = stop_at(cost, point);
    push_part(links, edge, direction, stop, next)?;
    Ok(next)
}

/// The stop at a point on a link of the cost.
fn stop_at(cost: u64, point: PointRow) -> Stop
    requires { IsPoint point }
    ensures { result ≡ stop_at cost point }
{
    Stop {
        vertex: -point.pid,
        offset: offset_of(cost, point),
    }
}

/// How far from the edge's source a point lies on a link of the cost.
fn offset_of(cost: u64, point: PointRow) -> u64
    requires { IsPoint point }
    ensures { result ≡ offset_of cost point }
{
    let whole = product(cost, point.over) / u128::from(point.under);
    whole as u64
}

/// Appends the part between a stop and the next one.
fn push_part(
    links: &mut Vec<NamedLink>,
    edge: i64,
    direction: Direction,
    stop: Stop,
    next: Stop,
) -> Result<(), NoMemory>
    requires { stop.offset ≤ next.offset }
    ensures { OnOk result (links.new.items ≡ links.old.items ++ part edge direction stop next ∷ []) }
{
    links.push(part(edge, direction, stop, next))?;
    Ok(())
}

/// The part between a stop and the next one.
fn part(edge: i64, direction: Direction, stop: Stop, next: Stop) -> NamedLink
    requires { stop.offset ≤ next.offset }
    ensures { result ≡ part edge direction stop next }
{
    let (from, to) = match direction {
        Direction::Forward => (stop.vertex, next.vertex),
        Direction::Backward => (next.vertex, stop.vertex),
    };
    NamedLink {
        from,
        edge,
        cost: next.offset - stop.offset,
        to,
    }
}
