/// A vertex that another leads to, where that was not followed yet.
#[derive(Clone, Copy)]
pub(crate) struct Lead {
    /// The place on the path of the vertex that leads to it.
    pub(crate) from: u32,
    /// The vertex that it leads to.
    pub(crate) to: u32,
}
