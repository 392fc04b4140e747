//! Where a line ends.
ghost use Rattle.std.specs.Prelude.{◌≡◌, length};
ghost use Rattle.std.specs.List.{position};
ghost use Rattle.lines.specs.Lines.{ended as endedAt, fault_at, line_end, unprintable as isUnprintable, Inside};

use refusal::Refusal;

/// The byte that ends a line.
pub const LINE_END: u8 = b'\n';

/// The most bytes of a line, its end not counted.
pub const LONGEST_LINE: usize = 128;

/// Why no line begins a text.
#[derive(Clone, Copy, PartialEq, Eq, Debug)]
pub enum LineFault {
    /// A byte comes that no line may have, or the text stops before the line's end.
    Forbidden,
    /// The line ends, and is too long.
    TooLong,
}

impl LineFault {
    /// The refusal of the line of this number.
    pub fn at(self, line: usize) -> Refusal
        ensures { result ≡ fault_at line self }
    {
        match self {
            LineFault::Forbidden => Refusal::ForbiddenByte { line },
            LineFault::TooLong => Refusal::TooLong { line },
        }
    }
}

/// How many bytes the first line has. A forbidden byte counts even past the greatest length, so the whole line is looked at.
pub fn scan(text: &[u8]) -> Result<usize, LineFault>
    ensures is { result ≡ line_end 0 text.now }
    ensures inside { Inside result (length text.now) }
{
    match unprintable(text) {
        Some(n) if text[n] == LINE_END => ended(n),
        _ => Err(LineFault::Forbidden),
    }
}

/// Where the first byte stands that does not belong to a line.
fn unprintable(text: &[u8]) -> Option<usize>
    ensures { result ≡ position isUnprintable text.now }
{
    text.iter().position(|b| !matches!(b, b' '..=b'~'))
}

fn ended(n: usize) -> Result<usize, LineFault>
    ensures { result ≡ endedAt n }
{
    if n <= LONGEST_LINE {
        Ok(n)
    } else {
        Err(LineFault::TooLong)
    }
}
