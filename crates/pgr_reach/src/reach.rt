use pgr_walks::Label;

/// A vertex that is reached from a root, with its tree link, by vertex number or by vertex id.
///
/// The tree link is the least link by edge, then cost, then where it begins, of those that end a least walk to the
/// vertex: those whose start has the label that, with the link, makes the vertex's label.
#[derive(Clone, Copy, Debug, PartialEq, Eq)]
pub struct ReachedOf<V> {
    /// The vertex.
    pub node: V,
    /// The least cost of a walk from the root, and the fewest links of a walk of that cost.
    pub label: Label,
    /// Where the tree link begins; the root itself at the root.
    pub pred: V,
    /// The edge of the tree link; -1 at the root.
    pub edge: i64,
    /// The cost of the tree link; 0 at the root.
    pub cost: u64,
}

/// A vertex that is reached from a root, by vertex number.
pub type Reached = ReachedOf<u32>;

/// The vertices that are reached from a root.
#[derive(Debug, Drop)]
pub struct Reach {
    /// The root.
    pub root: u32,
    /// A row for each vertex that is reached.
    pub rows: Vec<Reached>,
}
