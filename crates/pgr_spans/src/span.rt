/// A row of a table of edges that has at least one direction, as an edge between its two ends.
///
/// The ends may be equal, and several spans may have the same ends. Spans are compared by edge first.
#[derive(Clone, Copy, Debug, PartialEq, Eq, PartialOrd, Ord)]
pub struct Span {
    /// The id of its edge.
    pub edge: i64,
    /// The one end: the source of the row.
    pub a: i64,
    /// The other end: its target.
    pub b: i64,
}
