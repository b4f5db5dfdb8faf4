use pgr_outside::Listed;
use pgr_walks::NamedLink;

/// A vertex that is left, with the vertices that it holds.
#[derive(Debug, Drop)]
pub struct Kept {
    /// The vertex.
    pub node: i64,
    /// The vertices that it holds, rising, each once.
    pub inside: Listed<i64>,
}

/// A shortcut that is left, with the vertices that it holds.
#[derive(Debug, Drop)]
pub struct Shortcut {
    /// Its id: -1 for the first of those that are left, -2 for the second, and so on.
    pub id: i64,
    /// Where it leads from; in the undirected graph its lesser end.
    pub from: i64,
    /// Where it leads to.
    pub to: i64,
    /// What it costs.
    pub cost: u64,
    /// The vertices that it holds, rising, each once.
    pub inside: Listed<i64>,
}

/// What a contraction leaves.
#[derive(Debug, Drop)]
pub struct Contracted {
    /// Every vertex that is left, rising, also one that holds nothing or has no link.
    pub vertices: Vec<Kept>,
    /// The shortcuts that are left, in the order in which they were made.
    pub shortcuts: Vec<Shortcut>,
    /// The links that are left, with those of the shortcuts under their ids among them, rising by where they begin, then
    /// by edge, cost and where they lead.
    pub links: Vec<NamedLink>,
}
