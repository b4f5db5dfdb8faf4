/// An edge taken from one of its ends to the other, by the places of its ends.
#[derive(Clone, Copy, Debug, PartialEq, Eq)]
pub(crate) struct Arrow {
    /// The place of the end that it leads from.
    pub from: u32,
    /// The place of the end that it leads to.
    pub to: u32,
}
