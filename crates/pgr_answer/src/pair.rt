/// A pair of vertices, by their numbers: pairs are in order by end, and those of one end by start.
#[derive(Clone, Copy, Debug, PartialEq, Eq, PartialOrd, Ord)]
pub(crate) struct Pair {
    /// The number of the vertex where routes are to end.
    pub end: u32,
    /// The number of the vertex where they are to start.
    pub start: u32,
}
