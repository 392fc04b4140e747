//! The canonical file, its length, and the lines of one row.
ghost use Rattle.std.specs.Prelude.{◌≡◌, ◌+◌, ◌*◌, ◌≤◌, length, Some};
ghost use Rattle.writing.specs.Places.{write_answer, after_write};
ghost use Rattle.writing.specs.Files.{row_text, file_text, canonical};

use crate::output::Output;
use crate::text::{Text, measure, write};
use cells::summary::Cells;
use cells::summary::running::cells_of;
use model::Row;
use model::header::Header;
use records::record::Record;
use refusal::Refusal;

/// What a file is written of.
#[derive(Drop)]
struct File<'f> {
    header: &'f Header,
    cells: Cells,
    rows: &'f [Row],
}

impl Text for File<'_> {
    ghost text = { λ f. file_text (Some f.cells) f.header.now f.rows.now };

    ghost most = { λ f. 42000 + 14000 * length f.rows.now };

    fn put(&self, out: &mut Output) {
        out.put_header(self.header, &self.cells);
        out.put_rows(self.rows);
        out.put_record(Record::Trailer, &[]);
    }
}

/// The file of these rows; none without rows.
fn file_of<'f>(header: &'f Header, rows: &'f [Row]) -> Option<File<'f>>
    ensures text { ⟦<Option<File<'static>> as Text>⟧.text result ≡ canonical header.now rows.now }
    ensures most { ⟦<Option<File<'static>> as Text>⟧.most result ≤ 42000 + 14000 * length rows.now }
{
    let cells = cells_of(rows)?;
    Some(File {
        header,
        cells,
        rows,
    })
}

/// How long the canonical file is; 0 without rows. A `u128`, since the file of as many rows as a slice may have need not fit
/// a `usize`.
pub fn file_len(header: &Header, rows: &[Row]) -> u128
    ensures { result ≡ length (canonical header.now rows.now) }
{
    measure(&file_of(header, rows))
}

/// Writes the canonical file at the start of the output, and answers its length; 33 where the output is shorter, which is
/// then left as it was. Without rows there is no file, and nothing is written.
pub fn write_file(header: &Header, rows: &[Row], out: &mut [u8]) -> Result<usize, Refusal>
    ensures answer { result ≡ write_answer (canonical header.now rows.now) out.old }
    ensures after { out.new ≡ after_write (canonical header.now rows.now) out.old }
{
    write(&file_of(header, rows), out)
}

/// Writes the lines of a row at the start of the output, and answers their length; 33 where the output is shorter, which is
/// then left as it was.
pub fn write_row(row: &Row, out: &mut [u8]) -> Result<usize, Refusal>
    ensures answer { result ≡ write_answer (row_text row.now) out.old }
    ensures after { out.new ≡ after_write (row_text row.now) out.old }
{
    write(row, out)
}
