/// What the shortcuts between two vertices are known by.
#[derive(Clone, Copy, Debug)]
pub(crate) struct Span {
    /// The vertex whose place they took.
    pub vertex: i64,
    /// Their lesser end.
    pub low: i64,
    /// Their greater end.
    pub high: i64,
}

/// What holds what is left of a vertex.
#[derive(Clone, Copy, Debug)]
pub(crate) enum Holder {
    /// A vertex.
    At(i64),
    /// The shortcuts that took a vertex's place.
    Over(Span),
}

/// A vertex that went.
#[derive(Clone, Copy, Debug)]
pub(crate) struct Gone {
    /// The place of the step at which it went.
    pub place: usize,
    /// What holds it in the end.
    pub holder: Holder,
}
