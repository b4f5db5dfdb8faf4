/// Where a search ends.
#[derive(Clone, Copy)]
pub enum Bound<'a> {
    /// Where no vertex is left from which a walk leads to a target.
    Everywhere,
    /// As soon as each of these vertices has its label, or none is left from which a walk leads to a target.
    Wanted(&'a [u32]),
    /// At the first label that costs more.
    Limit(u64),
}
