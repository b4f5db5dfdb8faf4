/// A stop along an edge: a vertex, and how far it lies from the edge's source on a link of some cost.
#[derive(Clone, Copy, Debug, PartialEq, Eq)]
pub(crate) struct Stop {
    /// The vertex: an end of the edge, or a point's id with a minus sign.
    pub(crate) vertex: i64,
    /// How far it lies from the edge's source.
    pub(crate) offset: u64,
}
