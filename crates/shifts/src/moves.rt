//! Rows moved in time.
ghost use Rattle.std.specs.Prelude.{◌≡◌, ℕ, List, Err, MatchResult};
ghost use Rattle.model.specs.declared.Row.{Row};
ghost use Rattle.tables.specs.Ends.{EndsRead};
ghost use Rattle.tables.specs.Lines.{place};
ghost use Rattle.shifts.specs.Shifts.{move_row_if, move_read_if, all_stay, accepts, shift_rows};

use calendar::instant::Instant;
use model::Row;
use refusal::Refusal;
use tables::lines::{PredictionTable, RowAndEnds};

/// The largest shift in either direction: a day.
const LARGEST_SHIFT: u64 = 86_400_000_000;

/// The row so many microseconds later; `OutsideCalendar` where it would leave the calendar.
fn move_row(row: Row, shift: i64) -> Result<Row, Refusal>
    ensures { result ≡ move_row_if shift row }
{
    let at = Instant::split(row.at.joined().saturating_add_signed(shift))?;
    Ok(Row { at, ..row })
}

/// The three rows so many microseconds later, where all of them stay in the calendar.
fn move_read(read: RowAndEnds, shift: i64) -> Result<RowAndEnds, Refusal>
    ensures { result ≡ move_read_if shift read }
{
    let row = move_row(read.row, shift)?;
    let first = move_row(read.first, shift)?;
    let last = move_row(read.last, shift)?;
    Ok(RowAndEnds { row, first, last })
}

/// Whether every row stays in the calendar: in a table in order the first and the last decide.
fn all_stay<T: PredictionTable>(below: &T, shift: i64) -> bool
    ensures { result ≡ all_stay shift (T.PredictionTable.rows below.now) }
{
    let Ok(read) = below.row_and_ends(0) else {
        return true;
    };
    move_read(read, shift).is_ok()
}

/// Whether a table takes the shift: one of at most a day that keeps every row in the calendar.
pub fn accepts<T: PredictionTable>(below: &T, shift: i64) -> bool
    ensures { result ≡ accepts shift (T.PredictionTable.rows below.now) }
{
    shift.unsigned_abs() <= LARGEST_SHIFT && all_stay(below, shift)
}

/// What a table under a shift reads where the table below reads this.
pub fn moved_read(read: RowAndEnds, shift: i64) -> RowAndEnds
    ensures { (rows : List Row) (i : ℕ) → EndsRead rows i read → EndsRead (shift_rows shift rows) i result }
{
    // Kept: a match. `unwrap_or` hands the three rows on once more.
    match move_read(read, shift) {
        Ok(moved) => moved,
        Err(_) => read,
    }
}

/// What a shifted table reads: one call of the table below.
// Kept: matches, and not `moved_read` after a `?`, with which a window under one shift took ten times as long.
pub fn shifted_read<T: PredictionTable>(
    below: &T,
    shift: i64,
    i: usize,
) -> Result<RowAndEnds, Refusal>
    ensures { MatchResult result (λ read. EndsRead (shift_rows shift (T.PredictionTable.rows below.now)) i read) (λ e. Err e ≡ place (shift_rows shift (T.PredictionTable.rows below.now)) i) }
{
    match below.row_and_ends(i) {
        Ok(read) => match move_read(read, shift) {
            Ok(moved) => Ok(moved),
            Err(_) => Ok(read),
        },
        Err(e) => Err(e),
    }
}
