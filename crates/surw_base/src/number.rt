ghost use Rattle.std.specs.Prelude.{◌≡◌, ◌<◌, ◌≤◌, ◌++◌, ℕ, Some, length, take, slice_index, IfSome, OnOk, OnErr, MatchOption};
ghost use Rattle.std.specs.Int.{IsInRange};
ghost use Rattle.std.specs.Fmt.{decimal};
ghost use Rattle.surw_base.specs.Prefix.{IsLongestPrefix, HasNoPrefix};
ghost use Rattle.surw_base.specs.Number.{IsNumberText};

use crate::OutOfMemory;
use itoa::Buffer;

/// The longest prefix of a text that is a decimal number below 2^64 without leading zeros, and how many
/// bytes it has. None exactly where no prefix is one.
pub fn read_number(text: &[u8]) -> Option<(u64, usize)>
    ensures { MatchOption result
        (HasNoPrefix IsNumberText text.now)
        (λ found. IsLongestPrefix IsNumberText text.now found.0 found.1) }
{
    if text.is_empty() || !text[0].is_ascii_digit() {
        return None;
    }
    if text[0] == b'0' {
        return Some((0, 1));
    }
    Some(read_digits(text))
}

// The number at the front of a text that begins with a digit other than 0.
fn read_digits(text: &[u8]) -> (u64, usize)
    requires some { 0 < length text.now }
    requires first { IsInRange 49 57 (slice_index text.now 0) }
    ensures { IsLongestPrefix IsNumberText text.now result.0 result.1 }
{
    let mut value = 0u64;
    for (len, byte) in text.iter().enumerate() {
        if !byte.is_ascii_digit() {
            return (value, len);
        }
        let digit = u64::from(*byte - b'0');
        if value > (u64::MAX - digit) / 10 {
            return (value, len);
        }
        value = value * 10 + digit;
    }
    (value, text.len())
}

/// The number below 2^64 that a whole text writes in decimal digits, without leading zeros. None exactly where it
/// writes none.
pub fn read_whole_number(text: &[u8]) -> Option<u64>
    ensures found { IfSome result (IsNumberText text.now) }
    ensures only { (n : ℕ) → IsNumberText text.now n → result ≡ Some n }
{
    let (number, len) = read_number(text)?;
    (len == text.len()).then_some(number)
}

/// Appends the decimal digits of a number. After a refusal the vector is unchanged.
pub fn push_number(out: &mut Vec<u8>, n: u64) -> Result<(), OutOfMemory>
    ensures ok { OnOk result (out.new.items ≡ out.old.items ++ decimal n) }
    ensures err { OnErr result (out.new.items ≡ out.old.items) }
{
    let mut buffer = Buffer::new();
    out.extend_from_slice(buffer.format(n).as_bytes())?;
    Ok(())
}

/// The decimal digits of a number, at the front of the array, and how many there are. It takes no memory.
pub fn digits_of(n: u64) -> ([u8; 20], usize)
    ensures digits { take result.1 result.0 ≡ decimal n }
    ensures within { result.1 ≤ 20 }
{
    let mut buffer = Buffer::new();
    let text = buffer.format(n).as_bytes();
    let mut digits = [0; 20];
    digits[..text.len()].copy_from_slice(text);
    (digits, text.len())
}

#[cfg(test)]
mod tests {
    use super::*;
    use std::test::Fail;

    #[test]
    fn numbers_are_printed(rt: HostRuntime) -> Result<(), Fail> {
        for (number, text) in [(0, "0"), (907, "907"), (u64::MAX, "18446744073709551615")] {
            let mut out = Vec::new(rt.alloc());
            push_number(&mut out, number)?;
            assert_eq!(rt; out.as_slice(), text.as_bytes(), "{text}");
        }
        Ok(())
    }

    #[test]
    fn the_longest_prefix_is_read(rt: HostRuntime) {
        for (text, number, len) in [
            ("12x", 12, 2),
            ("01", 0, 1),
            ("7 8", 7, 1),
            ("18446744073709551615", u64::MAX, 20),
            ("18446744073709551616", 1_844_674_407_370_955_161, 19),
        ] {
            assert_eq!(rt; read_number(text.as_bytes()), Some((number, len)), "{text}");
        }
        for text in ["", "x1", "-1", " 1"] {
            assert_eq!(rt; read_number(text.as_bytes()), None, "{text}");
        }
    }
}
