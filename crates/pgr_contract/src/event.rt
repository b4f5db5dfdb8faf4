/// A dead end that went, and its neighbour.
#[derive(Clone, Copy, Debug)]
pub(crate) struct Folded {
    /// The vertex that went.
    pub vertex: i64,
    /// Its one neighbour.
    pub into: i64,
}

/// A linear vertex that went, its two neighbours, and what the ways between them over it cost.
#[derive(Clone, Copy, Debug)]
pub(crate) struct Bypassed {
    /// The vertex that went.
    pub vertex: i64,
    /// The lesser neighbour.
    pub low: i64,
    /// The greater neighbour.
    pub high: i64,
    /// The cost of the way from the lesser to the greater, if there is one.
    pub there: Option<u64>,
    /// The cost of the way from the greater to the lesser, if there is one.
    pub back: Option<u64>,
}

/// A step of a contraction.
#[derive(Clone, Copy, Debug)]
pub(crate) enum Event {
    /// A dead end went.
    End(Folded),
    /// A linear vertex went.
    Pass(Bypassed),
}
