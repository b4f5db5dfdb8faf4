/// A part of a text.
#[derive(Clone, Copy, Debug, Drop)]
pub enum Part<'a> {
    /// Words, as they stand.
    Words(&'a str),
    /// A number, in decimal.
    Number(u64),
    /// A number in decimal, with a hyphen before it where it is negative.
    Signed(i64),
}
