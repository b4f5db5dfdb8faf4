use pgr_outside::Side;

/// The coordinates of an edge's two ends, each from -10^15 to 10^15.
#[derive(Clone, Copy, Debug, PartialEq, Eq)]
pub struct Place {
    /// The first coordinate of the source.
    pub x1: i64,
    /// The second coordinate of the source.
    pub y1: i64,
    /// The first coordinate of the target.
    pub x2: i64,
    /// The second coordinate of the target.
    pub y2: i64,
}

/// A row of a table of combinations: two names, each of them in the range of `i64`.
#[derive(Clone, Copy, Debug, PartialEq, Eq)]
pub struct PairRow {
    /// The vertex where a route is to begin.
    pub source: i64,
    /// The vertex where it is to end.
    pub target: i64,
}

/// A row of an edge table.
///
/// A negative cost gives no link, and is kept as it was read. In the directed graph `cost` gives the link from
/// source to target and `reverse_cost` the one back; in the undirected graph each gives both.
#[derive(Clone, Copy, Debug, PartialEq, Eq)]
pub struct EdgeRow {
    /// The edge's id, from 0 to 2^63 - 1.
    pub id: i64,
    /// The vertex where the edge begins, from 0 to 2^63 - 1.
    pub source: i64,
    /// The vertex where the edge ends, from 0 to 2^63 - 1.
    pub target: i64,
    /// The cost of the link from source to target, where it isn't negative.
    pub cost: i64,
    /// The cost of the link from target to source, where it isn't negative.
    pub reverse_cost: i64,
    /// The coordinates of both ends, where the table was read with them.
    pub place: Option<Place>,
}

/// A row of a table of capacities.
///
/// Where it is positive, `capacity` is that of an arc from source to target, and `reverse_capacity` that of the arc back. A
/// capacity that isn't positive gives no arc, and is kept as it was read.
#[derive(Clone, Copy, Debug, PartialEq, Eq)]
pub struct CapacityRow {
    /// The row's id, from 0 to 2^63 - 1.
    pub id: i64,
    /// The vertex where the edge begins, from 0 to 2^63 - 1.
    pub source: i64,
    /// The vertex where the edge ends, from 0 to 2^63 - 1.
    pub target: i64,
    /// The capacity from source to target.
    pub capacity: i64,
    /// The capacity from target to source.
    pub reverse_capacity: i64,
}

/// A row of a table of points: a place on an edge.
#[derive(Clone, Copy, Debug, PartialEq, Eq)]
pub struct PointRow {
    /// The point's id, from 1 to 2^63 - 1.
    pub pid: i64,
    /// The id of the edge that it lies on, from 0 to 2^63 - 1. There may be no such edge.
    pub edge_id: i64,
    /// How far along the edge from its source the point lies, as a fraction that isn't reduced: what stands over the line, at
    /// least 1.
    pub over: u64,
    /// What stands under the line, greater than `over` and at most 10^19.
    pub under: u64,
    /// The side of the edge, as it leads from source to target, that the point lies on.
    pub side: Side,
}
