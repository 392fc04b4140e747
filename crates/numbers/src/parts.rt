//! The parts of a number as it is written.

ghost use Rattle.std.specs.Prelude.{◌≡◌, ◌^◌, ◌<◌, ◌≤◌, length};
ghost use Rattle.numbers.specs.Shapes.{digit_run};
ghost use Rattle.numbers.specs.Values.{digits_value};

/// The most digits before the point: with six places after it, the value fits an `i64`.
pub(crate) const MOST_DIGITS: usize = 12;

/// Bytes that are all digits.
#[derive(Clone, Copy)]
pub struct Digits<'l> {
    pub bytes: &'l [u8],
    ghost all: { digit_run bytes.now ≡ length bytes.now },
}

/// An optional sign, then 1 to 12 digits.
#[derive(Clone, Copy)]
pub struct Whole<'l> {
    pub negative: bool,
    pub digits: Digits<'l>,
    ghost few: { length digits.bytes.now ≤ 12 },
}

impl Digits<'_> {
    /// The number that the digits write. For callers within this library: at most 12 digits.
    pub(crate) fn value(&self) -> u64
        requires { length self.now.bytes.now ≤ 12 }
        ensures is { result ≡ digits_value self.now.bytes.now }
        ensures small { result < 10 ^ length self.now.bytes.now }
    {
        let mut value = 0;
        for digit in self.bytes {
            value = value * 10 + u64::from(*digit - b'0');
        }
        value
    }
}
