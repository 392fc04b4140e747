//! The words of a line by their form.

ghost use Rattle.std.specs.Prelude.{◌≡◌, ◌≤◌, length};
ghost use Rattle.numbers.specs.Shapes.{digit_run, has_minus, without_sign, word_of};
ghost use Rattle.numbers.specs.Forms.{shape_of};

use crate::parts::{Digits, MOST_DIGITS, Whole};

/// A word, sorted by its form; the cases hold parts of the line.
#[derive(Clone, Copy)]
pub enum Word<'l> {
    Whole(Whole<'l>),
    /// The same, a point, and the digits after it.
    Decimal {
        whole: Whole<'l>,
        fraction: Digits<'l>,
    },
    /// Any other word.
    Text {
        bytes: &'l [u8],
    },
}

/// How many digits stand at the front.
fn digit_run(bytes: &[u8]) -> usize
    ensures is { result ≡ digit_run bytes.now }
    ensures inside { result ≤ length bytes.now }
{
    bytes
        .iter()
        .position(|byte| !byte.is_ascii_digit())
        .unwrap_or(bytes.len())
}

/// Whether the word has a minus sign, and what follows its sign.
// Kept: a bool, since the only question of a sign is whether the number is negative; an enum of two signs asks it at each use.
pub fn split_sign<'l>(bytes: &'l [u8]) -> (bool, &'l [u8])
    ensures negative { result.0 ≡ has_minus bytes.now }
    ensures rest { result.1.now ≡ without_sign bytes.now }
{
    match bytes {
        [b'-', rest @ ..] => (true, rest),
        [b'+', rest @ ..] => (false, rest),
        _ => (false, bytes),
    }
}

/// The word that the bytes are.
impl<'l> From<&'l [u8]> for Word<'l> {
    ghost from_gives = { λ bytes r. shape_of r ≡ word_of bytes.now };

    fn from(bytes: &'l [u8]) -> Word<'l> {
        let (negative, body) = split_sign(bytes);
        let (front, rest) = body.split_at(digit_run(body));
        if front.is_empty() || front.len() > MOST_DIGITS {
            return Word::Text { bytes };
        }
        let digits = Digits { bytes: front };
        let whole = Whole { negative, digits };
        match rest {
            [] => Word::Whole(whole),
            [b'.', back @ ..] if digit_run(back) == back.len() => Word::Decimal {
                whole,
                fraction: Digits { bytes: back },
            },
            _ => Word::Text { bytes },
        }
    }
}
