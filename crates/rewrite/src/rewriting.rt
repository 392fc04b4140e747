//! A file in, its canonical form out.
ghost use Rattle.std.specs.Prelude.{◌≡◌, length};
ghost use Rattle.rewrite.specs.Rewriting.{rewritten, rewritten_output};

use format::open::open_file;
use model::Row;
use refusal::Refusal;
use sheet::sheet::Sheet;

/// The longest input, in bytes.
pub const LONGEST_INPUT: usize = 65_536;

/// The output space: the canonical file of an accepted input is never longer.
pub const LONGEST_OUTPUT: usize = 65_536;

/// The memory for rows, in rows.
pub const ROW_MEMORY: usize = 256;

/// Opens the input in a sheet over the memory given, and writes its canonical file to the output: its length, or the refusal.
/// Longer input than 65,536 bytes is 12 with line 0.
pub fn rewrite(input: &[u8], rows: &mut [Row], out: &mut [u8]) -> Result<usize, Refusal>
    ensures answer { result ≡ rewritten (length rows.old) input.now out.old }
    ensures output { out.new ≡ rewritten_output (length rows.old) input.now out.old }
{
    if input.len() > LONGEST_INPUT {
        return Err(Refusal::TooLong { line: 0 });
    }
    let mut sheet = Sheet::new(rows, &mut []);
    open_file(&mut sheet, input)?;
    sheet.write(out)
}
