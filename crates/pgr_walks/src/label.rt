/// The cost and the number of links of a walk, compared by cost and then by hops.
#[derive(Clone, Copy, Debug, PartialEq, Eq, PartialOrd, Ord)]
pub struct Label {
    /// The sum of the costs of its links.
    pub cost: u64,
    /// The number of its links.
    pub hops: u32,
}
