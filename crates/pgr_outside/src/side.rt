/// A side of an edge, or of the road: both, the right or the left.
#[derive(Clone, Copy, Debug, PartialEq, Eq)]
pub enum Side {
    /// Both sides, written `b`.
    B,
    /// The right side, written `r`.
    R,
    /// The left side, written `l`.
    L,
}
