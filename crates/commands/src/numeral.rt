//! The numbers that words write.
ghost use Rattle.std.specs.Prelude.{◌≡◌, ◌≤◌, MatchOption};
ghost use Rattle.commands.specs.Numerals.{numeral_of, signed_of};

use numbers::word::split_sign;

/// The number that the digits of a word write, `None` where the word is no digits or the number is more than `most`.
pub(crate) fn numeral(word: &[u8], most: u64) -> Option<u64>
    ensures is { result ≡ numeral_of most word.now }
    ensures bound { MatchOption result (0 ≤ 0) (λ n. n ≤ most) }
{
    if word.is_empty() {
        return None;
    }
    let mut value: u64 = 0;
    for byte in word {
        if !byte.is_ascii_digit() {
            return None;
        }
        value = value.checked_mul(10)?.checked_add(u64::from(*byte - b'0'))?;
    }
    (value <= most).then_some(value)
}

/// The number that an optional sign and digits write, `None` where the word is none or the number does not fit.
pub(crate) fn signed_numeral(word: &[u8]) -> Option<i64>
    ensures { result ≡ signed_of word.now }
{
    let (negative, digits) = split_sign(word);
    let size = numeral(digits, u64::MAX)?;
    if negative {
        0i64.checked_sub_unsigned(size)
    } else {
        0i64.checked_add_unsigned(size)
    }
}
