//! The table of even steps, as a time line and as a prediction table.
ghost use Rattle.std.specs.Prelude.{◌≡◌, ◌+◌, ◌*◌, ◌/◌, ◌%◌, ◌≤◌, [], ◌∷◌, map, Ok, Err, MatchResult};
ghost use Rattle.calendar.specs.Instants.{moment, instant_of, instant_if};
ghost use Rattle.tables.specs.Lines.{time_of};
ghost use Rattle.tables.specs.Windows.{window_if};
ghost use Rattle.shifts.specs.Stacks.{window_under};
ghost use Rattle.other_table.specs.EvenRows.{even_answer};
ghost use Rattle.other_table.specs.Meaning.{even_rows};

use crate::even_table::EvenTable;
use calendar::instant::{Instant, Timestamp};
use model::Row;
use refusal::Refusal;
use shifts::stacks::window_under;
use tables::lines::{MOST_ROWS, PredictionTable, TimeLine};
use tables::windows::window;

/// The instant `i` steps of so many seconds after the first; 29 outside the calendar. (Inner: a table has so many rows.)
fn instant_at(first: Instant, seconds: u16, i: usize) -> Result<Instant, Refusal>
    requires { i ≤ 8192 }
    ensures { result ≡ instant_if ((moment first + i * (seconds * 1000000)) / 86400000000) ((moment first + i * (seconds * 1000000)) % 86400000000) }
{
    Instant::split(first.joined() + i as u64 * (u64::from(seconds) * 1_000_000))
}

impl EvenTable {
    /// So many rows, so many seconds apart, from an instant on.
    pub fn new(from: Timestamp, seconds: u16, count: usize) -> Result<EvenTable, Refusal>
        ensures { MatchResult result (λ t. (Ok tt ≡ even_answer from.day from.micros seconds count) × (t.first ≡ instant_of from.day from.micros) × (t.seconds ≡ seconds) × (t.count ≡ count)) (λ e. Err e ≡ even_answer from.day from.micros seconds count) }
    {
        let first = Instant::try_from(from)?;
        if seconds == 0 {
            return Err(Refusal::NotAfter { line: 0 });
        }
        if count > MOST_ROWS {
            return Err(Refusal::TooManyRows { line: 0 });
        }
        instant_at(first, seconds, count)?;
        Ok(EvenTable {
            first,
            seconds,
            count,
        })
    }
}

impl TimeLine for EvenTable {
    ghost instants = { λ t. map time_of (even_rows t) };

    fn in_order(&self) {}

    fn count(&self) -> usize {
        self.count
    }

    fn instant(&self, i: usize) -> Result<Instant, Refusal> {
        Ok(self.row(i)?.at)
    }
}

impl PredictionTable for EvenTable {
    ghost rows = { even_rows };

    fn by_rows(&self) {}

    fn row(&self, i: usize) -> Result<Row, Refusal> {
        if i >= self.count {
            return Err(Refusal::NoSuchNumber);
        }
        let at = instant_at(self.first, self.seconds, i)?;
        Ok(Row { at, ..Row::blank() })
    }
}

/// The window in such a table.
pub fn even_window(t: &EvenTable, at: Timestamp) -> Result<usize, Refusal>
    ensures { result ≡ window_if (even_rows t.now) at.day at.micros }
{
    window(t, at)
}

/// The window in such a table under a shift.
pub fn even_window_under(t: &EvenTable, shift: i64, at: Timestamp) -> Result<usize, Refusal>
    ensures { result ≡ window_under (shift ∷ []) (even_rows t.now) at.day at.micros }
{
    window_under(t, shift, at)
}
