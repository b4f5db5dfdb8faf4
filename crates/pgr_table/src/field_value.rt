ghost use Rattle.std.specs.Prelude.{◌≡◌, ◌<◌, length};
ghost use Rattle.pgr_table.specs.Values.{number_of, part_of, side_of, numbers_in, number_at};

use pgr_numerals::Fraction;
use pgr_outside::{Listed, Side};

/// What a field writes.
#[derive(Debug, Drop)]
pub(crate) enum FieldValue {
    /// A number.
    Number(i64),
    /// A number between 0 and 1.
    Part(Fraction),
    /// A side.
    Along(Side),
    /// A list of numbers.
    Numbers(Listed<i64>),
}

impl FieldValue {
    /// The number that the value is, and 0 where it is none.
    pub(crate) fn number(&self) -> i64
        ensures { result ≡ number_of self.now }
    {
        match self {
            FieldValue::Number(number) => *number,
            FieldValue::Part(_) | FieldValue::Along(_) | FieldValue::Numbers(_) => 0,
        }
    }

    /// The fraction that the value is, and 0/0 where it is none.
    pub(crate) fn part(&self) -> Fraction
        ensures { result ≡ part_of self.now }
    {
        match self {
            FieldValue::Part(fraction) => *fraction,
            FieldValue::Number(_) | FieldValue::Along(_) | FieldValue::Numbers(_) => {
                Fraction { over: 0, under: 0 }
            }
        }
    }

    /// The side that the value is, and both sides where it is none.
    pub(crate) fn side(&self) -> Side
        ensures { result ≡ side_of self.now }
    {
        match self {
            FieldValue::Along(side) => *side,
            FieldValue::Number(_) | FieldValue::Part(_) | FieldValue::Numbers(_) => Side::B,
        }
    }

    /// How many numbers the value lists, and 0 where it is no list.
    pub(crate) fn elements(&self) -> usize
        ensures { result ≡ length (numbers_in self.now) }
    {
        match self {
            FieldValue::Numbers(numbers) => numbers.len(),
            FieldValue::Number(_) | FieldValue::Part(_) | FieldValue::Along(_) => 0,
        }
    }
}

/// The number of a row in the column with this place.
pub(crate) fn number_in(values: &[FieldValue], place: usize) -> i64
    requires { place < length values.now }
    ensures { result ≡ number_at values.now place }
{
    values[place].number()
}
