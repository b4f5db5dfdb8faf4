/// A method of contraction.
#[derive(Clone, Copy, Debug, PartialEq, Eq)]
pub enum Method {
    /// Takes away vertices with one neighbour, written `1`.
    DeadEnd,
    /// Joins the two links of a vertex between two neighbours, written `2`.
    Linear,
}
