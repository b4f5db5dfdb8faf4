ghost use Rattle.std.specs.Prelude.{◌≡◌, ◌==◌, ◌<◌, ◌≤◌, ◌^◌, length, position, IfSome};
ghost use Rattle.std.specs.List.{list_all};
ghost use Rattle.pgr_numerals.specs.Numeral.{is_digit};
ghost use Rattle.pgr_numerals.specs.Fraction.{fraction_of, decimal_of, slashed_of, proper};

use crate::numeral::read_digits;
use crate::whole::{are_only_zeros, full_stop};

/// A number between 0 and 1 as it is written, not reduced: `over / under`.
#[derive(Clone, Copy, Debug, PartialEq, Eq)]
pub struct Fraction {
    /// What stands over the line, at least 1.
    pub over: u64,
    /// What stands under it, greater than `over` and at most 10^19.
    pub under: u64,
}

/// The greatest number under the line, 10^19.
const MOST: u64 = 10_000_000_000_000_000_000;

/// How many digits behind a full stop are read.
const MOST_DIGITS: usize = 19;

/// The fraction that the bytes write: a decimal one, as `0.5`, or one with a slash, as `1/2`; in both it is above 0 and below 1.
///
/// The decimal form is one zero or more, a full stop, and one digit or more. Of these digits the first nineteen are read,
/// zeros counted, and later ones are dropped: with m digits left, `over` is what they write and `under` is 10^m. With a slash
/// both numbers are digits, with a value of at most 10^19. Nothing is reduced. None for no bytes, and for a sign, a blank or
/// an exponent.
pub fn read_fraction(bytes: &[u8]) -> Option<Fraction>
    ensures { result ≡ fraction_of bytes.now }
{
    if let Some(stop) = full_stop(bytes) {
        return read_decimal(&bytes[..stop], &bytes[stop + 1..]);
    }
    let slash = first_slash(bytes)?;
    read_slashed(&bytes[..slash], &bytes[slash + 1..])
}

/// The fraction that is written as zeros, a full stop and digits.
fn read_decimal(zeros: &[u8], digits: &[u8]) -> Option<Fraction>
    ensures { result ≡ decimal_of zeros.now digits.now }
{
    if !are_only_zeros(zeros) || !are_only_digits(digits) {
        return None;
    }
    let kept = &digits[..digits.len().min(MOST_DIGITS)];
    let over = read_digits(kept, MOST)?;
    below_one(over, ten_to(kept.len()))
}

/// The fraction that is written as digits, a slash and digits.
fn read_slashed(over: &[u8], under: &[u8]) -> Option<Fraction>
    ensures { result ≡ slashed_of over.now under.now }
{
    let over = read_digits(over, MOST)?;
    let under = read_digits(under, MOST)?;
    below_one(over, under)
}

/// The fraction of two numbers, or none where it isn't above 0 and below 1.
fn below_one(over: u64, under: u64) -> Option<Fraction>
    ensures { result ≡ proper over under }
{
    if over == 0 || over >= under {
        return None;
    }
    Some(Fraction { over, under })
}

/// The power of ten with this exponent.
fn ten_to(exponent: usize) -> u64
    requires { exponent ≤ 19 }
    ensures { result ≡ 10 ^ exponent }
{
    10u64.pow(exponent as u32)
}

/// The place of the first slash.
fn first_slash(bytes: &[u8]) -> Option<usize>
    ensures place { result ≡ position (λ b. b == 47) bytes.now }
    ensures within { IfSome result (λ slash. slash < length bytes.now) }
{
    bytes.iter().position(|byte| *byte == b'/')
}

/// Whether no byte is other than a digit.
fn are_only_digits(bytes: &[u8]) -> bool
    ensures { result ≡ list_all is_digit bytes.now }
{
    bytes.iter().all(|byte| byte.is_ascii_digit())
}

#[cfg(test)]
mod tests {
    use super::*;

    #[test]
    fn both_forms_are_read_as_they_are_written(rt: HostRuntime) {
        for (bytes, parts) in [
            (b"0.5".as_slice(), Some((5, 10))),
            (b"00.250", Some((250, 1000))),
            (b"2/4", Some((2, 4))),
            (b"01/02", Some((1, 2))),
            (b"0.00000000000000000019", Some((1, 10000000000000000000))),
            (b"0.00000000000000000005", None),
            (
                b"0.12345678901234567899",
                Some((1234567890123456789, 10000000000000000000)),
            ),
            (
                b"9999999999999999999/10000000000000000000",
                Some((9999999999999999999, 10000000000000000000)),
            ),
            (b"1/10000000000000000001", None),
            (b"0.0", None),
            (b"1.0", None),
            (b".5", None),
            (b"0.", None),
            (b"0.5x", None),
            (b"0.12345678901234567890x", None),
            (b"1/1", None),
            (b"0/2", None),
            (b"1/2/3", None),
            (b"-0.5", None),
            (b"", None),
        ] {
            let fraction = parts.map(|(over, under)| Fraction { over, under });
            assert_eq!(rt; read_fraction(bytes), fraction);
        }
    }
}
