use model::header::Header;
use tables::row_table::RowTable;

pub mod calls;
pub mod table;

/// A header and rows that nobody edits while this stands.
#[derive(Clone, Copy)]
pub struct ClosedSheet<'r> {
    /// None when no file was open.
    header: Option<Header>,
    rows: RowTable<'r>,
}
