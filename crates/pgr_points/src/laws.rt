ghost use Rattle.std.specs.Prelude.{◌≡◌, ◌^◌, ◌<◌, ℕ, ℤ, Bool, List, Contains, length};
ghost use Rattle.pgr_outside.specs.declared.side.Side.{Side as ASide};
ghost use Rattle.pgr_walks.specs.declared.link.LinkOf.{LinkOf};
ghost use Rattle.pgr_walks.specs.Graph.{Fits};
ghost use Rattle.pgr_walks.specs.Walk.{cost_of};
ghost use Rattle.pgr_table.specs.declared.row.EdgeRow.{EdgeRow as AnEdge};
ghost use Rattle.pgr_table.specs.declared.row.PointRow.{PointRow as APoint};
ghost use Rattle.pgr_graph.specs.declared.links.Direction.{Direction as ADirection};
ghost use Rattle.pgr_numbers.specs.Names.{AreEnds};
ghost use Rattle.pgr_points.specs.Pointed.{AreSeen, IsPointed};
ghost use Rattle.pgr_points.specs.Stops.{parts, stops};

use pgr_table::{EdgeTable, PointTable};

/// Pointed links fit: every one of them and every loopless route over them costs at most 2^63 - 1.
///
/// A law of the directed graph and of the undirected one, wherever one drives; the call changes nothing. The parts of
/// a link add up to its cost, and a loopless route takes each part at most once, either way round, so it costs at most
/// the sum of the table's costs.
pub fn pointed_links_fit(edges: &EdgeTable, points: &PointTable)
    ensures { (driving : ASide) (directed : Bool) → Fits (IsPointed edges.now points.now driving directed) }
{
    let _rows = edges.len();
    let _points = points.len();
}

/// The ends of pointed links are fewer than 2^32.
///
/// They are ends of edges and points. A law; the call changes nothing.
pub fn pointed_ends_are_few(edges: &EdgeTable, points: &PointTable)
    ensures { (driving : ASide) (directed : Bool) (links : List (LinkOf ℤ)) (names : List ℤ)
        → ((link : LinkOf ℤ) → Contains links link → IsPointed edges.now points.now driving directed link)
        → AreEnds links names
        → length names < 2 ^ 32 }
{
    let _rows = edges.len();
    let _points = points.len();
}

/// The points that a link sees stand in one order, and only one.
///
/// A law; the call changes nothing.
pub fn points_are_seen_in_one_order(points: &PointTable)
    ensures order { (driving : ASide) (directed : Bool) (row : AnEdge) (direction : ADirection)
        → (seen : List APoint) × AreSeen points.now driving directed row direction seen }
    ensures one { (driving : ASide) (directed : Bool) (row : AnEdge) (direction : ADirection) (seen other : List APoint)
        → AreSeen points.now driving directed row direction seen
        → AreSeen points.now driving directed row direction other
        → seen ≡ other }
{
    let _points = points.len();
}

/// The parts of a link cost together what the link does.
///
/// A law; the call changes nothing.
pub fn parts_add_up(points: &PointTable)
    ensures { (driving : ASide) (directed : Bool) (row : AnEdge) (direction : ADirection) (cost : ℕ) (seen : List APoint)
        → AreSeen points.now driving directed row direction seen
        → cost_of (parts row.id direction (stops row cost seen)) ≡ cost }
{
    let _points = points.len();
}
