ghost use Rattle.std.specs.Prelude.{◌≡◌, ◌≤◌, true, length, take};
ghost use Rattle.journal.specs.Journals.{entries_of, taken_by};
ghost use Rattle.sheet.specs.Sound.{is_sound, pasts_of};

use journal::journal::Journal;
use memory::lent::Lent;
use model::Row;
use model::header::Header;

pub mod calls;
pub mod editing;
pub mod history;
pub mod table;

pub use tables::lines::MOST_ROWS;

/// A prediction sheet over memory that the caller lends: its rows, and the rows that edits took out, those of the oldest edit first.
// Kept: `len` and `held` stand beside memory that the caller lends and that cannot grow.
#[derive(Drop)]
pub struct Sheet<'m> {
    rows: Lent<'m, Row>,
    taken: Lent<'m, Row>,
    /// How many rows are in use.
    len: usize,
    /// How many rows taken out are kept.
    held: usize,
    /// None while no file is open.
    header: Option<Header>,
    journal: Journal,
    /// How many edits and undos were accepted since the opening.
    changes: u32,
    ghost inside: { len ≤ length rows.cells.now },
    ghost kept: { held ≤ length taken.cells.now },
    ghost counted: { held ≡ taken_by (entries_of journal) },
    ghost sound: { is_sound (length rows.cells.now) (take len rows.cells.now) (pasts_of (entries_of journal) (take held taken.cells.now)) ≡ true },
}
