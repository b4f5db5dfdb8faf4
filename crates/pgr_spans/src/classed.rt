/// An edge with the name of its block, the least edge id in it.
///
/// Classes are compared by component and then by edge.
#[derive(Clone, Copy, Debug, PartialEq, Eq, PartialOrd, Ord)]
pub struct Classed {
    /// The least edge id of the block.
    pub component: i64,
    /// The id of the edge.
    pub edge: i64,
}
