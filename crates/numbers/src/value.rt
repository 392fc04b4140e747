//! The values of words.

ghost use Rattle.std.specs.Prelude.{◌≡◌, ◌+◌, ◌*◌, ◌^◌, ◌<◌, ◌≤◌, length, cond, Some, None, IfSome};
ghost use Rattle.numbers.specs.Values.{digits_value, takes_fraction, fraction_units, signed_value, whole_of, decimal_of};

use crate::parts::{Digits, Whole};
use crate::word::Word;

/// How many digits after the point a field has.
#[derive(Clone, Copy)]
struct Places {
    count: u8,
    ghost few: { count ≤ 6 },
}

impl Whole<'_> {
    /// The number of this size with the sign that is written.
    fn signed(&self, size: u64) -> i64
        requires { size < 10 ^ 18 }
        ensures { result ≡ signed_value self.now.negative size }
    {
        if self.negative {
            -(size as i64)
        } else {
            size as i64
        }
    }
}

impl Places {
    /// The digits before the point in units of the last place.
    fn whole_units(self, whole: &Whole) -> u64
        ensures is { result ≡ digits_value whole.now.digits.bytes.now * 10 ^ self.count }
        ensures room { result + 10 ^ self.count ≤ 10 ^ 18 }
    {
        whole.digits.value() * 10u64.pow(u32::from(self.count))
    }

    /// The digits after the point in units of the last place; `None` where they are more than the places.
    fn fraction_units(self, fraction: &Digits) -> Option<u64>
        ensures is { result ≡ cond (takes_fraction fraction.now.bytes.now self.count) (Some (fraction_units fraction.now.bytes.now self.count)) None }
        ensures small { IfSome result (λ n. n < 10 ^ self.count) }
    {
        let left = usize::from(self.count).checked_sub(fraction.bytes.len())?;
        Some(fraction.value() * 10u64.pow(left as u32))
    }
}

/// The value of a whole word, `None` where the word is not whole.
pub fn whole_value(bytes: &[u8]) -> Option<i64>
    ensures { result ≡ whole_of bytes.now }
{
    match Word::from(bytes) {
        Word::Whole(whole) => Some(whole.signed(whole.digits.value())),
        _ => None,
    }
}

/// The value of the word in a field of this many places, in units of the last place; `None` where the field does not take
/// the word. For callers within this library: at most 6 places.
pub fn decimal_value(bytes: &[u8], places: u8) -> Option<i64>
    requires { places ≤ 6 }
    ensures { result ≡ decimal_of bytes.now places }
{
    let places = Places { count: places };
    match Word::from(bytes) {
        Word::Whole(whole) => Some(whole.signed(places.whole_units(&whole))),
        Word::Decimal { whole, fraction } => {
            let units = places.whole_units(&whole) + places.fraction_units(&fraction)?;
            Some(whole.signed(units))
        }
        Word::Text { .. } => None,
    }
}
