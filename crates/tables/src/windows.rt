//! The window of ten rows around an instant.
ghost use Rattle.std.specs.Prelude.{◌≡◌, ◌+◌, ◌<◌, ◌≤◌, map, length, take, drop, Ok};
ghost use Rattle.tables.specs.Lines.{place};
ghost use Rattle.tables.specs.Windows.{flag_of, same_flags, window_of, window_if};

use crate::lines::PredictionTable;
use crate::search::count_not_after;
use calendar::instant::{Instant, Timestamp};
use model::LeapFlag;
use refusal::Refusal;

/// The leap flag of row `i`, which the table has.
fn flag_at<T: PredictionTable>(t: &T, i: usize) -> LeapFlag
    requires { i < length (T.PredictionTable.rows t.now) }
    ensures { Ok result ≡ place (map flag_of (T.PredictionTable.rows t.now)) i }
{
    t.row(i).unwrap().flag
}

/// Whether the ten rows from `from` on, which the table has, have the same leap flag.
fn same_flags<T: PredictionTable>(t: &T, from: usize) -> bool
    requires { from + 10 ≤ length (T.PredictionTable.rows t.now) }
    ensures { result ≡ same_flags (take 10 (drop from (map flag_of (T.PredictionTable.rows t.now)))) }
{
    t.in_order();
    t.by_rows();
    let first = flag_at(t, from);
    (from + 1..from + 10).all(|i| flag_at(t, i) == first)
}

/// The window around an instant of the calendar.
pub fn window_at<T: PredictionTable>(t: &T, at: Instant) -> Result<usize, Refusal>
    ensures { result ≡ window_of (T.PredictionTable.rows t.now) at }
{
    t.in_order();
    t.by_rows();
    let before = count_not_after(t, at);
    if before < 5 {
        return Err(Refusal::WindowTooEarly);
    }
    if t.count() < before + 5 {
        return Err(Refusal::WindowTooLate);
    }
    if same_flags(t, before - 5) {
        Ok(before - 5)
    } else {
        Err(Refusal::WindowFlagsDiffer)
    }
}

/// The number of the first row of the window around an instant as it was handed in: the last five rows not after it and
/// the next five.
pub fn window<T: PredictionTable>(t: &T, at: Timestamp) -> Result<usize, Refusal>
    ensures { result ≡ window_if (T.PredictionTable.rows t.now) at.day at.micros }
{
    window_at(t, at.try_into()?)
}
