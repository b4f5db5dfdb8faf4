ghost use Rattle.std.specs.Prelude.{◌≡◌, option_map, IfOk};
ghost use Rattle.pgr_table.specs.Kinds.{value_of, side_of_field};
ghost use Rattle.pgr_table.specs.declared.field_value.FieldValue.TheVariants.{Number, Part, Along, Numbers};

use crate::column::Column;
use crate::field_value::FieldValue;
use pgr_numerals::{
    Fraction, read_braced_list, read_fraction, read_i64, read_id, read_positive, read_whole,
    read_whole_or_empty, read_whole_within,
};
use pgr_outside::{Listed, NoMemory, Side};
use std::alloc::Global;

/// The greatest absolute value of a coordinate, 10^15.
const MOST_COORDINATE: u64 = 1_000_000_000_000_000;

/// What the field of a column may be.
#[derive(Clone, Copy, Debug)]
pub(crate) enum Grammar {
    /// Digits, from 0 to 2^63 - 1.
    Id,
    /// Digits, from 1 to 2^63 - 1.
    Positive,
    /// An optional hyphen and digits, in the range of `i64`.
    Integer,
    /// A whole number, zeros behind a full stop included.
    Whole,
    /// A whole number, or the empty field, which is -1.
    WholeOrEmpty,
    /// A whole number from -10^15 to 10^15.
    Coordinate,
    /// A number between 0 and 1, decimal or with a slash.
    Fraction,
    /// `b`, `r` or `l`, or the empty field, which is `b`.
    Side,
    /// Numbers between braces, joined by commas, or the empty field, which is none.
    Numbers,
}

/// What the values of a column are judged for, beside their grammar.
#[derive(Clone, Copy, Debug)]
pub(crate) enum Check {
    /// Nothing.
    Free,
    /// No value stands twice.
    Distinct,
    /// The values that aren't negative count in the sum of the table.
    Summed,
}

/// A column of a kind of table: its name, what its fields may be, and whether a header has to have it. Where it hasn't, each
/// row has what an empty field of it writes.
#[derive(Clone, Copy, Debug)]
pub(crate) struct Rule {
    pub(crate) column: Column,
    pub(crate) grammar: Grammar,
    pub(crate) required: bool,
    pub(crate) check: Check,
}

impl Grammar {
    /// The value that a field writes, or none where it isn't in the grammar.
    pub(crate) fn read(self, alloc: Global, field: &[u8]) -> Result<Option<FieldValue>, NoMemory>
        ensures { IfOk result (λ value. value ≡ value_of self field.now) }
    {
        Ok(match self {
            Grammar::Id => number(read_id(field)),
            Grammar::Positive => number(read_positive(field)),
            Grammar::Integer => number(read_i64(field)),
            Grammar::Whole => number(read_whole(field)),
            Grammar::WholeOrEmpty => number(read_whole_or_empty(field)),
            Grammar::Coordinate => number(read_whole_within(field, MOST_COORDINATE)),
            Grammar::Fraction => part(read_fraction(field)),
            Grammar::Side => along(read_side(field)),
            Grammar::Numbers => numbers(read_braced_list(alloc, field)?),
        })
    }
}

/// A number as a value, if there is one.
fn number(number: Option<i64>) -> Option<FieldValue>
    ensures { result ≡ option_map Number number }
{
    Some(FieldValue::Number(number?))
}

/// A fraction as a value, if there is one.
fn part(fraction: Option<Fraction>) -> Option<FieldValue>
    ensures { result ≡ option_map Part fraction }
{
    Some(FieldValue::Part(fraction?))
}

/// A side as a value, if there is one.
fn along(side: Option<Side>) -> Option<FieldValue>
    ensures { result ≡ option_map Along side }
{
    Some(FieldValue::Along(side?))
}

/// A list of numbers as a value, if there is one.
fn numbers(list: Option<Vec<i64>>) -> Option<FieldValue>
    ensures { result ≡ option_map (λ numbers. Numbers numbers.items) list }
{
    match list {
        None => None,
        Some(list) => Some(FieldValue::Numbers(Listed::from_vec(list))),
    }
}

/// The side that a field writes, both sides where it is empty.
fn read_side(field: &[u8]) -> Option<Side>
    ensures { result ≡ side_of_field field.now }
{
    if field.is_empty() {
        return Some(Side::B);
    }
    if field.len() != 1 {
        return None;
    }
    match field[0] {
        b'b' => Some(Side::B),
        b'r' => Some(Side::R),
        b'l' => Some(Side::L),
        _ => None,
    }
}
