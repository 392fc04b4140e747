//! What a closed sheet tells.
ghost use Rattle.std.specs.Prelude.{◌≡◌};
ghost use Rattle.tables.specs.Lines.{place};
ghost use Rattle.closed_sheet.specs.Answers.{cells_answer, header_answer, file_answer, after_file};

use crate::closed::ClosedSheet;
use cells::summary::Cells;
use cells::summary::running::cells_of;
use model::Row;
use model::header::Header;
use refusal::Refusal;
use tables::lines::PredictionTable;
use tables::row_table::RowTable;
use writing::file::write_file;

impl<'r> ClosedSheet<'r> {
    /// The closed sheet with this header and these rows.
    pub fn new(header: Option<Header>, rows: RowTable<'r>) -> ClosedSheet<'r>
        ensures header { result.header ≡ header }
        ensures rows { result.rows.rows.now ≡ rows.entry.rows.now }
    {
        ClosedSheet { header, rows }
    }

    /// The row count, start, end and interval; 24 when no file was open.
    pub fn cells(&self) -> Result<Cells, Refusal>
        ensures { result ≡ cells_answer self.now.header self.now.rows.rows.now }
    {
        self.header()?;
        cells_of(self.rows.rows()).ok_or(Refusal::NoFileOpen)
    }

    /// The header; 24 when no file was open.
    pub fn header(&self) -> Result<Header, Refusal>
        ensures { result ≡ header_answer self.now.header }
    {
        self.header.ok_or(Refusal::NoFileOpen)
    }

    /// The row of a number counted from 0; 28 where there is none.
    pub fn row(&self, i: usize) -> Result<Row, Refusal>
        ensures { result ≡ place self.now.rows.rows.now i }
    {
        self.rows.row(i)
    }

    /// Writes the canonical file at the start of the output, and answers its length. Refusals: 24, 33, which leave the output as it
    /// was.
    pub fn write(&self, out: &mut [u8]) -> Result<usize, Refusal>
        ensures answer { result ≡ file_answer self.now.header self.now.rows.rows.now out.old }
        ensures after { out.new ≡ after_file self.now.header self.now.rows.rows.now out.old }
    {
        write_file(&self.header()?, self.rows.rows(), out)
    }
}
