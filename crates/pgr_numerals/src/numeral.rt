ghost use Rattle.std.specs.Prelude.{◌≡◌, ◌+◌, ◌*◌, ◌-◌, ◌<◌, ◌≤◌, ◌&&◌, length, nat_le, if◌then◌else◌};
ghost use Rattle.std.specs.List.{list_all};
ghost use Rattle.std.specs.Str.Parse.{digits_value};
ghost use Rattle.pgr_numerals.specs.Numeral.{is_digit, digits_up_to, i64_of, id_of, positive_of};

/// How many digits always fit: the number that eighteen of them write is below 10^18, and so below 2^63.
const FITTING_DIGITS: usize = 18;

/// The number that the bytes write in decimal digits, or none where it is above `most`.
///
/// One digit or more and nothing else: no sign, no blank, no separator. Zeros may stand in front, as many as wanted.
/// None for no bytes.
pub fn read_digits(bytes: &[u8], most: u64) -> Option<u64>
    ensures { result ≡ digits_up_to most bytes.now }
{
    if bytes.is_empty() {
        return None;
    }
    if bytes.len() > FITTING_DIGITS {
        return read_long(bytes, most);
    }
    let value = read_short(bytes)?;
    if value > most {
        return None;
    }
    Some(value)
}

/// The number that the bytes write as an optional hyphen and decimal digits, or none where it isn't in the range of `i64`.
///
/// No plus sign and no blank is read, and a hyphen needs a digit behind it. Zeros may stand in front, and `-0` is 0.
/// None for no bytes.
pub fn read_i64(bytes: &[u8]) -> Option<i64>
    ensures { result ≡ i64_of bytes.now }
{
    if let Some((b'-', digits)) = bytes.split_first() {
        let value = read_digits(digits, i64::MIN.unsigned_abs())?;
        return 0i64.checked_sub_unsigned(value);
    }
    let value = read_digits(bytes, i64::MAX.unsigned_abs())?;
    i64::try_from(value).ok()
}

/// The id or vertex that the bytes write in decimal digits, from 0 to 2^63 - 1.
///
/// No sign and no blank is read, and zeros may stand in front. None for no bytes.
pub fn read_id(bytes: &[u8]) -> Option<i64>
    ensures { result ≡ id_of bytes.now }
{
    let id = read_digits(bytes, i64::MAX.unsigned_abs())?;
    i64::try_from(id).ok()
}

/// The id that the bytes write in decimal digits, from 1 to 2^63 - 1.
///
/// It is read as [`read_id`] reads one, but that 0 is none.
pub fn read_positive(bytes: &[u8]) -> Option<i64>
    ensures { result ≡ positive_of bytes.now }
{
    let id = read_digits(bytes, i64::MAX.unsigned_abs())?;
    if id == 0 {
        return None;
    }
    i64::try_from(id).ok()
}

/// The number that at most [`FITTING_DIGITS`] bytes write in decimal digits. No bytes are 0.
///
/// No step is checked, since k digits write a number below 10^k.
fn read_short(bytes: &[u8]) -> Option<u64>
    requires { length bytes.now ≤ 18 }
    ensures { result ≡ (if list_all is_digit bytes.now then Some (digits_value 10 bytes.now) else None) }
{
    let mut value = 0;
    for byte in bytes {
        if !byte.is_ascii_digit() {
            return None;
        }
        value = value * 10 + u64::from(byte - b'0');
    }
    Some(value)
}

/// The number that the bytes write in decimal digits, however many but at least one, or none where it is above `most`.
///
/// Each step is checked, and it ends at the first number above `most`.
fn read_long(bytes: &[u8], most: u64) -> Option<u64>
    requires { 0 < length bytes.now }
    ensures { result ≡ digits_up_to most bytes.now }
{
    let mut value = 0;
    for byte in bytes {
        value = with_digit(value, *byte, most)?;
    }
    Some(value)
}

/// The number with one more digit behind it, or none where the byte is no digit or the number is above `most`.
fn with_digit(value: u64, byte: u8, most: u64) -> Option<u64>
    ensures { let grown = value * 10 + (byte - 48) in
        result ≡ (if is_digit byte && nat_le grown most then Some grown else None) }
{
    if !byte.is_ascii_digit() {
        return None;
    }
    let grown = value.checked_mul(10)?.checked_add(u64::from(byte - b'0'))?;
    if grown > most {
        return None;
    }
    Some(grown)
}

#[cfg(test)]
mod tests {
    use super::*;

    #[test]
    fn digits_are_read_up_to_the_limit(rt: HostRuntime) {
        assert_eq!(rt; read_digits(b"00042", 42), Some(42));
        assert_eq!(rt; read_digits(b"43", 42), None);
        assert_eq!(rt;
            read_digits(b"18446744073709551615", u64::MAX),
            Some(u64::MAX)
        );
        assert_eq!(rt; read_digits(b"18446744073709551616", u64::MAX), None);
    }

    #[test]
    fn digits_are_read_alike_however_many_they_are(rt: HostRuntime) {
        for (bytes, most, number) in [
            (
                b"999999999999999999".as_slice(),
                u64::MAX,
                Some(999999999999999999),
            ),
            (
                b"999999999999999999",
                999999999999999999,
                Some(999999999999999999),
            ),
            (b"999999999999999999", 999999999999999998, None),
            (b"1000000000000000000", u64::MAX, Some(1000000000000000000)),
            (b"1000000000000000000", 999999999999999999, None),
            (b"9999999999999999999", u64::MAX, Some(9999999999999999999)),
            (b"9999999999999999999", 9999999999999999998, None),
            (
                b"10000000000000000000",
                u64::MAX,
                Some(10000000000000000000),
            ),
            (b"10000000000000000000", 9999999999999999999, None),
            (b"99999999999999999999", u64::MAX, None),
            (b"000000000000000042", 42, Some(42)),
            (b"000000000000000043", 42, None),
            (b"0000000000000000042", 42, Some(42)),
            (b"0000000000000000043", 42, None),
            (b"0000000000000000000000000000042", 42, Some(42)),
            (b"0000000000000000000000000000043", 42, None),
            (b"", u64::MAX, None),
        ] {
            assert_eq!(rt; read_digits(bytes, most), number);
        }
    }

    #[test]
    fn a_byte_that_is_no_digit_may_stand_nowhere(rt: HostRuntime) {
        for bytes in [
            b"/".as_slice(),
            b":",
            b"/12",
            b"1/2",
            b"12/",
            b":12",
            b"1:2",
            b"12:",
            b"x00000000000000042",
            b"00000000x000000042",
            b"00000000000000004x",
            b"x000000000000000042",
            b"000000000x000000042",
            b"000000000000000004x",
        ] {
            assert_eq!(rt; read_digits(bytes, u64::MAX), None);
        }
    }

    #[test]
    fn a_hyphen_makes_the_number_negative(rt: HostRuntime) {
        assert_eq!(rt; read_i64(b"-12"), Some(-12));
        assert_eq!(rt; read_i64(b"-9223372036854775808"), Some(i64::MIN));
        assert_eq!(rt; read_i64(b"12-"), None);
    }

    #[test]
    fn zero_is_an_id_and_not_a_positive_one(rt: HostRuntime) {
        assert_eq!(rt; read_id(b"00"), Some(0));
        assert_eq!(rt; read_positive(b"00"), None);
        assert_eq!(rt; read_positive(b"01"), Some(1));
        assert_eq!(rt; read_positive(b"9223372036854775807"), Some(i64::MAX));
        assert_eq!(rt; read_positive(b"9223372036854775808"), None);
    }
}
