//! Opening a file, said in the words of the format.
ghost use Rattle.std.specs.Prelude.{◌≡◌, length};
ghost use Rattle.sheet.specs.Sheets.{row_memory};
ghost use Rattle.format.specs.Openings.{OpenedAsFile};

use refusal::Refusal;
use sheet::sheet::Sheet;

/// Opens a file in a sheet. It is accepted exactly when the bytes are a file of the format whose rows fit the memory and a sheet's 8,192; the
/// sheet then has the header and the rows of the file. Else the refusal is the first in the order of checks, and nothing changes.
pub fn open_file(sheet: &mut Sheet, file: &[u8]) -> Result<(), Refusal>
    ensures { OpenedAsFile result (length (row_memory sheet.old)) file.now sheet.old sheet.new }
{
    sheet.open(file)
}
