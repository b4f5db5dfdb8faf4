/// How the cost from a start is estimated, by the distances in x and in y.
#[derive(Clone, Copy, Debug, PartialEq, Eq)]
pub enum Heuristic {
    /// None: the estimate is 0.
    H0,
    /// The greater of the two distances.
    H1,
    /// The lesser of the two distances.
    H2,
    /// The sum of the two squared distances.
    H3,
    /// The length of the straight line, rounded down.
    H4,
    /// The sum of the two distances.
    H5,
}

/// What an estimate is multiplied by: `over` divided by `under`, both from 1 to 1,000,000.
#[derive(Clone, Copy, Debug, PartialEq, Eq)]
pub struct Factor {
    /// The numerator.
    pub over: u32,
    /// The denominator.
    pub under: u32,
}
