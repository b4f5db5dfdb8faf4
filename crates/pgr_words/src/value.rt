ghost use Rattle.std.specs.Prelude.{◌≡◌, IfOk, option_map};
ghost use Rattle.pgr_words.specs.Forms.{Reads, file_name, ids, flag, side, distance, count, method, order};
ghost use Rattle.pgr_words.specs.Forms.{heuristic, factor, parts_round, is_slash};
ghost use Rattle.pgr_words.specs.Forms as forms;
ghost use Rattle.pgr_words.specs.Rising.{rising};

use crate::estimate::{Factor, Heuristic};
use crate::method::Method;
use pgr_numerals::{read_digits, read_i64_list};
use pgr_outside::{Listed, Side, Text};
use std::alloc::{AllocError, Global};

/// The most bytes of a file name.
const MOST_NAME_BYTES: usize = 4096;

/// The most ids in a list.
const MOST_IDS: usize = 65536;

/// The greatest distance.
const MOST_DISTANCE: u64 = 9_223_372_036_854_775_807;

/// The greatest count.
const MOST_COUNT: u64 = 1_000_000;

/// The most methods in an order.
const MOST_METHODS: usize = 64;

/// The greatest part of a factor.
const MOST_OF_FACTOR: u64 = 1_000_000;

/// Why a value wasn't read.
#[derive(Clone, Copy, Debug, PartialEq, Eq, Drop)]
pub(crate) enum ValueRefused {
    /// It isn't in the form.
    Form,
    /// Memory was wanting.
    Memory,
}

impl From<AllocError> for ValueRefused {
    ghost use Rattle.std.specs.Prelude.{◌≡◌};
    ghost use Rattle.pgr_words.specs.declared.value.ValueRefused.TheVariants.{Memory};

    ghost from_gives = { λ _ refused. refused ≡ Memory };

    fn from(_: AllocError) -> ValueRefused {
        ValueRefused::Memory
    }
}

/// A file name: 1 to 4,096 bytes, as they stand.
pub(crate) fn read_file_name(alloc: Global, value: &str) -> Result<Text, ValueRefused>
    ensures { Reads (λ name. name) (file_name value.now) result }
{
    if value.is_empty() || value.len() > MOST_NAME_BYTES {
        return Err(ValueRefused::Form);
    }
    let name = String::from_str(alloc, value)?;
    Ok(Text::from_string(name))
}

/// A list of ids: 1 to 65,536 numbers joined by commas. They come strictly rising, each once.
pub(crate) fn read_ids(alloc: Global, value: &str) -> Result<Listed<i64>, ValueRefused>
    ensures { Reads (λ list. list) (ids value.now) result }
{
    let Some(mut list) = read_i64_list(alloc, value.as_bytes(), MOST_IDS)? else {
        return Err(ValueRefused::Form);
    };
    make_rising(&mut list);
    Ok(Listed::from_vec(list))
}

/// A flag: `true` or `false`.
pub(crate) fn read_flag(value: &str) -> Result<bool, ValueRefused>
    ensures { Reads (λ is_set. is_set) (flag value.now) result }
{
    match value {
        "true" => Ok(true),
        "false" => Ok(false),
        _ => Err(ValueRefused::Form),
    }
}

/// A side: `b`, `r` or `l`.
pub(crate) fn read_side(value: &str) -> Result<Side, ValueRefused>
    ensures { Reads (λ on_side. on_side) (side value.now) result }
{
    match value {
        "b" => Ok(Side::B),
        "r" => Ok(Side::R),
        "l" => Ok(Side::L),
        _ => Err(ValueRefused::Form),
    }
}

/// A distance: digits alone, from 0 to 2^63 - 1.
pub(crate) fn read_distance(value: &str) -> Result<u64, ValueRefused>
    ensures { Reads (λ number. number) (distance value.now) result }
{
    read_digits(value.as_bytes(), MOST_DISTANCE).ok_or(ValueRefused::Form)
}

/// A count: digits alone, from 1 to 1,000,000.
pub(crate) fn read_count(value: &str) -> Result<u32, ValueRefused>
    ensures { Reads (λ number. number) (count value.now) result }
{
    match read_digits(value.as_bytes(), MOST_COUNT) {
        Some(number) if number > 0 => Ok(number as u32),
        _ => Err(ValueRefused::Form),
    }
}

/// An order: 1 to 64 methods joined by commas. They come as they stand, repeats too.
pub(crate) fn read_order(alloc: Global, value: &str) -> Result<Listed<Method>, ValueRefused>
    ensures { Reads (λ methods. methods) (order value.now) result }
{
    match read_methods(alloc, value.as_bytes())? {
        Some(methods) => Ok(Listed::from_vec(methods)),
        None => Err(ValueRefused::Form),
    }
}

/// The methods of an order, or none where the bytes aren't one.
fn read_methods(alloc: Global, bytes: &[u8]) -> Result<Option<Vec<Method>>, AllocError>
    ensures { IfOk result (λ list. option_map (λ methods. methods.items) list ≡ order bytes.now) }
{
    let mut methods = Vec::new(alloc);
    for part in bytes.split(|byte| *byte == b',') {
        if methods.len() == MOST_METHODS {
            return Ok(None);
        }
        let Some(method) = method_of(part) else {
            return Ok(None);
        };
        methods.push(method)?;
    }
    Ok(Some(methods))
}

/// A method: `1` for dead ends, `2` for linear vertices.
fn method_of(text: &[u8]) -> Option<Method>
    ensures { result ≡ method text.now }
{
    match text {
        b"1" => Some(Method::DeadEnd),
        b"2" => Some(Method::Linear),
        _ => None,
    }
}

/// A heuristic: one digit from 0 to 5.
pub(crate) fn read_heuristic(value: &str) -> Result<Heuristic, ValueRefused>
    ensures { Reads (λ heuristic. heuristic) (heuristic value.now) result }
{
    match value {
        "0" => Ok(Heuristic::H0),
        "1" => Ok(Heuristic::H1),
        "2" => Ok(Heuristic::H2),
        "3" => Ok(Heuristic::H3),
        "4" => Ok(Heuristic::H4),
        "5" => Ok(Heuristic::H5),
        _ => Err(ValueRefused::Form),
    }
}

/// A factor: a numerator, or a numerator, a slash and a denominator, each from 1 to 1,000,000.
pub(crate) fn read_factor(value: &str) -> Result<Factor, ValueRefused>
    ensures { Reads (λ factor. factor) (factor value.now) result }
{
    factor_in(value).ok_or(ValueRefused::Form)
}

/// The factor that a text stands for, if it is in the form.
fn factor_in(value: &str) -> Option<Factor>
    ensures { result ≡ factor value.now }
{
    match parts_round_slash(value) {
        None => factor_of(part_of_factor(value), Some(1)),
        Some((over, under)) => factor_of(part_of_factor(over), part_of_factor(under)),
    }
}

/// The factor of two parts, if both are there.
fn factor_of(over: Option<u32>, under: Option<u32>) -> Option<Factor>
    ensures { result ≡ forms.factor_of over under }
{
    match (over, under) {
        (Some(over), Some(under)) => Some(Factor { over, under }),
        _ => None,
    }
}

/// What stands before the first slash of a text, and what behind it, if it has one.
fn parts_round_slash(value: &str) -> Option<(&str, &str)>
    ensures { option_map (λ parts. (parts.0.now, parts.1.now)) result ≡ parts_round is_slash value.now }
{
    value.split_once('/')
}

/// A part of a factor: digits alone, from 1 to 1,000,000.
fn part_of_factor(value: &str) -> Option<u32>
    ensures { result ≡ forms.part_of_factor value.now }
{
    let part = read_digits(value.as_bytes(), MOST_OF_FACTOR)?;
    if part > 0 { Some(part as u32) } else { None }
}

/// Puts the numbers in order and takes repeats out.
fn make_rising(list: &mut Vec<i64>)
    ensures { list.new.items ≡ rising list.old.items }
{
    list.sort_unstable();
    list.dedup();
}
