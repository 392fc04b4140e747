//! Shifts over shifts.
ghost use Rattle.std.specs.Prelude.{◌≡◌, true, [], ◌∷◌, map, Err, MatchResult};
ghost use Rattle.tables.specs.Ends.{EndsRead};
ghost use Rattle.tables.specs.Lines.{place, time_of};
ghost use Rattle.tables.specs.Windows.{window_if};
ghost use Rattle.shifts.specs.Stacks.{piled, total, sum_of, all_accepted, StackedShifts, AnswersAsBelow, window_under};

use crate::moves::{accepts, moved_read};
use crate::shifted::Shifted;
use calendar::instant::{Instant, Timestamp};
use model::Row;
use refusal::Refusal;
use tables::lines::{PredictionTable, RowAndEnds, TimeLine};
use tables::windows::window;

/// The law of stacked shifts, for every list of shifts and every list of rows: `Shifted` has the rows of the table
/// below under its shift, so a stack of any height over any table has the rows that the law speaks of.
pub fn stacked_shifts_hold()
    ensures { StackedShifts }
{}

/// The window of a stack of two over any table, whatever its shifts are.
pub fn window_of_two<T: PredictionTable>(
    t: &Shifted<'_, Shifted<'_, T>>,
    at: Timestamp,
) -> Result<usize, Refusal>
    ensures answer { result ≡ window_if (piled (t.now.shift ∷ (t.now.below.now.shift ∷ [])) (T.PredictionTable.rows t.now.below.now.below.now)) at.day at.micros }
    ensures law { AnswersAsBelow (total (t.now.shift ∷ (t.now.below.now.shift ∷ [])) (T.PredictionTable.rows t.now.below.now.below.now)) (T.PredictionTable.rows t.now.below.now.below.now) at.day at.micros result }
{
    window(t, at)
}

/// A table under a stack of shifts, the topmost first.
#[derive(Drop)]
struct Stack<'t, T: PredictionTable> {
    below: &'t T,
    shifts: &'t [i64],
}

/// What such a table reads: one call of the table below, then each shift, the lowest first.
fn stacked_read<T: PredictionTable>(
    below: &T,
    shifts: &[i64],
    i: usize,
) -> Result<RowAndEnds, Refusal>
    ensures { MatchResult result (λ read. EndsRead (piled shifts.now (T.PredictionTable.rows below.now)) i read) (λ e. Err e ≡ place (piled shifts.now (T.PredictionTable.rows below.now)) i) }
{
    let mut read = below.row_and_ends(i)?;
    for n in (0..shifts.len()).rev() {
        read = moved_read(read, shifts[n]);
    }
    Ok(read)
}

impl<'t, T: PredictionTable> TimeLine for Stack<'t, T> {
    ghost instants = { λ s. map time_of (piled s.shifts.now (T.PredictionTable.rows s.below.now)) };

    fn in_order(&self) {
        self.below.in_order();
        self.below.by_rows();
    }

    fn count(&self) -> usize {
        self.below.by_rows();
        self.below.count()
    }

    fn instant(&self, i: usize) -> Result<Instant, Refusal> {
        Ok(stacked_read(self.below, self.shifts, i)?.row.at)
    }
}

impl<'t, T: PredictionTable> PredictionTable for Stack<'t, T> {
    ghost rows = { λ s. piled s.shifts.now (T.PredictionTable.rows s.below.now) };

    fn by_rows(&self) {}

    fn row(&self, i: usize) -> Result<Row, Refusal> {
        Ok(stacked_read(self.below, self.shifts, i)?.row)
    }

    fn row_and_ends(&self, i: usize) -> Result<RowAndEnds, Refusal> {
        stacked_read(self.below, self.shifts, i)
    }
}

/// Whether each shift is taken by the table under those below it.
fn all_accepted<T: PredictionTable>(below: &T, shifts: &[i64]) -> bool
    ensures { result ≡ all_accepted shifts.now (T.PredictionTable.rows below.now) }
{
    for n in (0..shifts.len()).rev() {
        let under = Stack {
            below,
            shifts: &shifts[n + 1..],
        };
        if !accepts(&under, shifts[n]) {
            return false;
        }
    }
    true
}

/// The window of a table under a stack of shifts, the topmost first. The table may be any prediction table, also a
/// shifted one.
pub fn window_under_all<T: PredictionTable>(
    t: &T,
    shifts: &[i64],
    at: Timestamp,
) -> Result<usize, Refusal>
    ensures answer { result ≡ window_under shifts.now (T.PredictionTable.rows t.now) at.day at.micros }
    ensures law { all_accepted shifts.now (T.PredictionTable.rows t.now) ≡ true → AnswersAsBelow (sum_of shifts.now) (T.PredictionTable.rows t.now) at.day at.micros result }
{
    if !all_accepted(t, shifts) {
        return Err(Refusal::ShiftTooLarge);
    }
    window(&Stack { below: t, shifts }, at)
}

/// The window of a table under a shift.
// Kept: a table of its own, and not `window_under_all(t, &[shift], at)`, which answers the same and took twenty times as long: here
// the compiler sees one shift over the table.
pub fn window_under<T: PredictionTable>(t: &T, shift: i64, at: Timestamp) -> Result<usize, Refusal>
    ensures answer { result ≡ window_under (shift ∷ []) (T.PredictionTable.rows t.now) at.day at.micros }
    ensures law { all_accepted (shift ∷ []) (T.PredictionTable.rows t.now) ≡ true → AnswersAsBelow (sum_of (shift ∷ [])) (T.PredictionTable.rows t.now) at.day at.micros result }
{
    let mut shifted = Shifted::new(t);
    shifted.set_shift(shift)?;
    window(&shifted, at)
}

/// The window of a table under two shifts, one over the other.
// Kept: this and the next stay as public calls of their own, each a line over window_under_all.
pub fn window_under_two<T: PredictionTable>(
    t: &T,
    low: i64,
    high: i64,
    at: Timestamp,
) -> Result<usize, Refusal>
    ensures answer { result ≡ window_under (high ∷ (low ∷ [])) (T.PredictionTable.rows t.now) at.day at.micros }
    ensures law { all_accepted (high ∷ (low ∷ [])) (T.PredictionTable.rows t.now) ≡ true → AnswersAsBelow (sum_of (high ∷ (low ∷ []))) (T.PredictionTable.rows t.now) at.day at.micros result }
{
    window_under_all(t, &[high, low], at)
}

/// The window of a table under three shifts, each over the one before.
pub fn window_under_three<T: PredictionTable>(
    t: &T,
    low: i64,
    middle: i64,
    high: i64,
    at: Timestamp,
) -> Result<usize, Refusal>
    ensures answer { result ≡ window_under (high ∷ (middle ∷ (low ∷ []))) (T.PredictionTable.rows t.now) at.day at.micros }
    ensures law { all_accepted (high ∷ (middle ∷ (low ∷ []))) (T.PredictionTable.rows t.now) ≡ true → AnswersAsBelow (sum_of (high ∷ (middle ∷ (low ∷ [])))) (T.PredictionTable.rows t.now) at.day at.micros result }
{
    window_under_all(t, &[high, middle, low], at)
}
