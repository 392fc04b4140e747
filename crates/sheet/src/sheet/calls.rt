//! The calls of a sheet that make, open, read and close it.
ghost use Rattle.std.specs.Prelude.{◌≡◌, [], length, None};
ghost use Rattle.tables.specs.Lines.{place};
ghost use Rattle.closed_sheet.specs.Answers.{cells_answer, header_answer, file_answer, after_file};
ghost use Rattle.journal.specs.Journals.{entries_of};
ghost use Rattle.sheet.specs.States.{empty_view};
ghost use Rattle.sheet.specs.Calls.{FileOpened};
ghost use Rattle.sheet.specs.Openings.{opened_from};
ghost use Rattle.sheet.specs.Sheets.{rows_of, row_memory, taken_memory, Opened, view, KeptIfRefused};

use crate::sheet::{MOST_ROWS, Sheet};
use cells::summary::Cells;
use closed_sheet::closed::ClosedSheet;
use journal::journal::Journal;
use memory::lent::{Lent, load_rows};
use model::Row;
use model::header::Header;
use reading::stage::Part;
use reading::text::scan_text;
use refusal::Refusal;
use tables::row_table::RowTable;

impl<'m> Sheet<'m> {
    /// An empty sheet, with no file open, over memory for rows and for rows taken out.
    pub fn new(rows: &'m mut [Row], taken: &'m mut [Row]) -> Sheet<'m>
        ensures empty { (rows_of result ≡ []) × (result.header ≡ None) × (entries_of result.journal ≡ []) × (result.changes ≡ 0) }
        ensures made { view result ≡ empty_view (length rows.old) (length taken.old) }
        ensures memory { (row_memory result ≡ rows.old) × (taken_memory result ≡ taken.old) }
        ensures lent { (result.rows.cells.ghost_name ≡ rows.entry.ghost_name) × (result.taken.cells.ghost_name ≡ taken.entry.ghost_name) }
    {
        Sheet {
            rows: Lent::new(rows),
            taken: Lent::new(taken),
            len: 0,
            held: 0,
            header: None,
            journal: Journal::new(),
            changes: 0,
        }
    }

    /// Opens a file in place of what was open, and empties the journal. The whole file is checked before a row is stored: a refusal changes
    /// nothing.
    pub fn open(&mut self, file: &[u8]) -> Result<(), Refusal>
        ensures holds { Opened result (opened_from (length (row_memory self.old)) file.now) self.old self.new }
        ensures opened { FileOpened (view self.old) file.now result (view self.new) }
        ensures refused { KeptIfRefused result self.old self.new }
    {
        let room = self.rows.len().min(MOST_ROWS);
        let scan = scan_text(file, Part::File, Some(room))?;
        self.len = load_rows(&mut self.rows, file);
        self.held = 0;
        self.header = Some(scan.header);
        self.journal = Journal::new();
        self.changes = 0;
        Ok(())
    }

    /// The row count, start, end and interval, which follow from the rows; 24 when no file is open.
    pub fn cells(&self) -> Result<Cells, Refusal>
        ensures { result ≡ cells_answer self.now.header (rows_of self.now) }
    {
        self.as_closed().cells()
    }

    /// The header; 24 when no file is open.
    pub fn header(&self) -> Result<Header, Refusal>
        ensures { result ≡ header_answer self.now.header }
    {
        self.as_closed().header()
    }

    /// The row of a number counted from 0; 28 where there is none.
    pub fn row(&self, i: usize) -> Result<Row, Refusal>
        ensures { result ≡ place (rows_of self.now) i }
    {
        self.as_closed().row(i)
    }

    /// Writes the canonical file at the start of the output, and answers its length. Refusals: 24, 33, which leave the output as it
    /// was.
    pub fn write(&self, out: &mut [u8]) -> Result<usize, Refusal>
        ensures answer { result ≡ file_answer self.now.header (rows_of self.now) out.old }
        ensures after { out.new ≡ after_file self.now.header (rows_of self.now) out.old }
    {
        self.as_closed().write(out)
    }

    /// The rows in use, as a table.
    pub(crate) fn table(&self) -> RowTable<'_>
        ensures { result.rows.now ≡ rows_of self.now }
    {
        RowTable::new(self.rows.first(self.len))
    }

    /// What the sheet would be closed to now.
    fn as_closed(&self) -> ClosedSheet<'_>
        ensures header { result.header ≡ self.now.header }
        ensures rows { result.rows.rows.now ≡ rows_of self.now }
    {
        ClosedSheet::new(self.header, self.table())
    }

    /// Closes the sheet: it is used up, and what is left is its header and rows, for reading.
    pub fn close(self) -> ClosedSheet<'m>
        ensures header { result.header ≡ self.entry.header }
        ensures rows { result.rows.rows.now ≡ rows_of self.entry }
    {
        let Sheet {
            rows,
            header,
            len,
            ..
        } = self;
        ClosedSheet::new(header, RowTable::new(&rows.close()[..len]))
    }
}
