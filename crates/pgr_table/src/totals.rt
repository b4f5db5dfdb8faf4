ghost use Rattle.std.specs.Prelude.{◌≡◌};

/// What is counted over the rows of a table so far.
#[derive(Clone, Copy, Debug)]
pub(crate) struct Totals {
    /// The elements of all lists.
    pub(crate) elements: usize,
    /// The values that are summed and aren't negative.
    pub(crate) sum: u64,
}

impl Totals {
    /// Those of no rows.
    pub(crate) fn zero() -> Totals
        ensures elements { result.elements ≡ 0 }
        ensures sum { result.sum ≡ 0 }
    {
        Totals {
            elements: 0,
            sum: 0,
        }
    }
}
