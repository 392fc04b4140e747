//! A whole text checked, from its first line to its end.
ghost use Rattle.std.specs.Prelude.{◌≡◌};
ghost use Rattle.reading.specs.Texts.{scan_of};

use crate::scan::Scan;
use crate::stage::Part;
use lines::reader::Lines;
use refusal::Refusal;

/// The longest file or block, in bytes.
pub const LONGEST_TEXT: usize = 2_097_152;

/// Checks a file or a block without storing a row: its length, its lines in turn, its end. The room is the most rows that a file may
/// have; a block is checked without a bound.
pub fn scan_text(text: &[u8], part: Part, room: Option<usize>) -> Result<Scan, Refusal>
    ensures { result ≡ scan_of part room text.now }
{
    if text.len() > LONGEST_TEXT {
        return Err(Refusal::TooLong { line: 0 });
    }
    let mut lines = Lines::new(text);
    let mut scan = Scan::start(part, room);
    while let Some(line) = lines.next()? {
        scan.line(lines.number(), line)?;
    }
    scan.finish(lines.number())?;
    Ok(scan)
}
