ghost use Rattle.std.specs.Prelude.{◌≡◌, ◌==◌, ◌<◌, length, position, IfSome};
ghost use Rattle.std.specs.List.{list_all};
ghost use Rattle.pgr_numerals.specs.Numeral.{are_zeros, whole_of, whole_or_empty, whole_within};

use crate::numeral::read_i64;

/// The whole number that the bytes write: an optional hyphen and decimal digits, and if wanted a full stop and one zero
/// or more behind them; none where it isn't in the range of `i64`.
///
/// `7` and `7.0` are both 7, and `-0` and `-0.0` are 0. None for no bytes, for `7.`, `.0` and `7.5`, and for a plus sign,
/// a blank or an exponent.
pub fn read_whole(bytes: &[u8]) -> Option<i64>
    ensures { result ≡ whole_of bytes.now }
{
    // What reads as a number has no full stop, so the bytes of most are gone over once.
    if let Some(number) = read_i64(bytes) {
        return Some(number);
    }
    let stop = full_stop(bytes)?;
    if !are_only_zeros(&bytes[stop + 1..]) {
        return None;
    }
    read_i64(&bytes[..stop])
}

/// The whole number that the bytes write, as [`read_whole`] reads it, or -1 where there are no bytes.
pub fn read_whole_or_empty(bytes: &[u8]) -> Option<i64>
    ensures { result ≡ whole_or_empty bytes.now }
{
    if bytes.is_empty() {
        return Some(-1);
    }
    read_whole(bytes)
}

/// The whole number that the bytes write, as [`read_whole`] reads it, or none where its absolute value is above `most`.
pub fn read_whole_within(bytes: &[u8], most: u64) -> Option<i64>
    ensures { result ≡ whole_within most bytes.now }
{
    let whole = read_whole(bytes)?;
    if whole.unsigned_abs() > most {
        return None;
    }
    Some(whole)
}

/// The place of the first full stop.
pub(crate) fn full_stop(bytes: &[u8]) -> Option<usize>
    ensures place { result ≡ position (λ b. b == 46) bytes.now }
    ensures within { IfSome result (λ stop. stop < length bytes.now) }
{
    bytes.iter().position(|byte| *byte == b'.')
}

/// Whether the bytes are zeros, and at least one.
pub(crate) fn are_only_zeros(bytes: &[u8]) -> bool
    ensures { result ≡ are_zeros bytes.now }
{
    !bytes.is_empty() && have_no_other(bytes)
}

/// Whether no byte is another than `0`.
fn have_no_other(bytes: &[u8]) -> bool
    ensures { result ≡ list_all (λ b. b == 48) bytes.now }
{
    bytes.iter().all(|byte| *byte == b'0')
}

#[cfg(test)]
mod tests {
    use super::*;

    #[test]
    fn zeros_behind_a_full_stop_change_nothing(rt: HostRuntime) {
        for (bytes, number) in [
            (b"7".as_slice(), Some(7)),
            (b"-7.000", Some(-7)),
            (b"-0.0", Some(0)),
            (b"7.", None),
            (b".0", None),
            (b"7.5", None),
            (b"7.0.0", None),
            (b"7.0x", None),
            (b"7x", None),
            (b"-", None),
            (b"-.0", None),
            (b"", None),
            (b"9223372036854775807.0", Some(i64::MAX)),
            (b"9223372036854775808", None),
            (b"9223372036854775808.0", None),
            (b"0000000000000000000000000000042.0", Some(42)),
        ] {
            assert_eq!(rt; read_whole(bytes), number);
        }
        assert_eq!(rt; read_whole_or_empty(b""), Some(-1));
        assert_eq!(rt; read_whole_or_empty(b"7.0"), Some(7));
        assert_eq!(rt; read_whole_within(b"-7.0", 7), Some(-7));
        assert_eq!(rt; read_whole_within(b"-8", 7), None);
        assert_eq!(rt;
            read_whole_within(b"-9223372036854775808", u64::MAX),
            Some(i64::MIN)
        );
    }
}
