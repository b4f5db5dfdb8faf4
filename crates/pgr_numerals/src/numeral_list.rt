ghost use Rattle.std.specs.Prelude.{◌≡◌, IfOk, option_map};
ghost use Rattle.pgr_numerals.specs.NumeralList.{i64_list_of, is_braced, numbers_of, braced_list_of};

use crate::numeral::read_i64;
use std::alloc::{AllocError, Global};

/// The numbers that the bytes write, joined by commas, or none where there are more than `most` of them.
///
/// Each is an optional hyphen and decimal digits in the range of `i64`, as [`read_i64`] has it, and none
/// comes where one isn't. No blank stands anywhere, and no comma at either end; no bytes are no list.
/// The numbers come in the order in which they are written, repeats too.
/// The only error is want of memory, which may come at any call.
pub fn read_i64_list(
    alloc: Global,
    bytes: &[u8],
    most: usize,
) -> Result<Option<Vec<i64>>, AllocError>
    ensures { IfOk result (λ list.
        option_map (λ numbers. numbers.items) list ≡ i64_list_of most bytes.now) }
{
    let mut numbers = Vec::new(alloc);
    for part in bytes.split(|byte| *byte == b',') {
        if numbers.len() == most {
            return Ok(None);
        }
        let Some(number) = read_i64(part) else {
            return Ok(None);
        };
        numbers.push(number)?;
    }
    Ok(Some(numbers))
}

/// The numbers that the bytes write between braces, joined by commas, as in `{1,-2,3}`.
///
/// Each is an optional hyphen and decimal digits in the range of `i64`, as [`read_i64`] has it. No bytes and `{}` are the
/// list of no numbers. No blank stands anywhere, and no comma beside a brace. The numbers come in the order in which they
/// are written, repeats too, however many there are. The only error is want of memory, which may come at any call.
pub fn read_braced_list(alloc: Global, bytes: &[u8]) -> Result<Option<Vec<i64>>, AllocError>
    ensures { IfOk result (λ list.
        option_map (λ numbers. numbers.items) list ≡ braced_list_of bytes.now) }
{
    if bytes.is_empty() {
        return Ok(Some(Vec::new(alloc)));
    }
    if !have_braces(bytes) {
        return Ok(None);
    }
    read_numbers(alloc, &bytes[1..bytes.len() - 1])
}

/// The numbers that the bytes write, joined by commas, or no numbers where there are no bytes.
fn read_numbers(alloc: Global, bytes: &[u8]) -> Result<Option<Vec<i64>>, AllocError>
    ensures { IfOk result (λ list.
        option_map (λ numbers. numbers.items) list ≡ numbers_of bytes.now) }
{
    if bytes.is_empty() {
        return Ok(Some(Vec::new(alloc)));
    }
    read_i64_list(alloc, bytes, bytes.len() + 1)
}

/// Whether the bytes begin with an opening brace and end with a closing one behind it.
fn have_braces(bytes: &[u8]) -> bool
    ensures { result ≡ is_braced bytes.now }
{
    bytes.len() >= 2 && bytes[0] == b'{' && bytes[bytes.len() - 1] == b'}'
}

#[cfg(test)]
mod tests {
    use super::*;
    use std::test::Fail;

    #[test]
    fn numbers_are_read_in_the_order_in_which_they_are_written(
        rt: HostRuntime,
    ) -> Result<(), Fail> {
        let numbers = read_i64_list(rt.alloc(), b"7,-007,7", 3)?.ok_or("no list")?;
        assert_eq!(rt; numbers.as_slice(), [7, -7, 7].as_slice());
        Ok(())
    }

    #[test]
    fn a_list_in_braces_is_read_whole(rt: HostRuntime) -> Result<(), Fail> {
        let numbers = read_braced_list(rt.alloc(), b"{7,-007,7}")?.ok_or("no list")?;
        assert_eq!(rt; numbers.as_slice(), [7, -7, 7].as_slice());
        for (bytes, count) in [
            (b"".as_slice(), Some(0)),
            (b"{}", Some(0)),
            (b"{1}", Some(1)),
            (b"{", None),
            (b"}", None),
            (b"1,2", None),
            (b"{1,}", None),
            (b"{,1}", None),
            (b"{1, 2}", None),
            (b"{{1}", None),
        ] {
            let numbers = read_braced_list(rt.alloc(), bytes)?;
            assert_eq!(rt; numbers.map(|numbers| numbers.len()), count);
        }
        Ok(())
    }
}
