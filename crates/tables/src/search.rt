//! The search for an instant, by halving.
ghost use Rattle.std.specs.Prelude.{◌≡◌};
ghost use Rattle.calendar.specs.Instants.{moment};
ghost use Rattle.tables.specs.Lines.{not_after, earlier};

use crate::lines::TimeLine;
use calendar::instant::Instant;

/// How many entries are not after `at`.
pub fn count_not_after<T: TimeLine>(t: &T, at: Instant) -> usize
    ensures { result ≡ not_after (T.TimeLine.instants t.now) (moment at) }
{
    // Kept: the halving by hand. A time line may compute its instants, so there is no slice to search; no other search is here.
    t.in_order();
    // Kept: moments are compared, not instants: one number for each, where the derived order asks for the day first. The search
    // took half as long again with it.
    let limit = at.joined();
    let mut low = 0;
    let mut high = t.count();
    while low < high {
        let middle = low + (high - low) / 2;
        let here = t.instant(middle).unwrap();
        if here.joined() <= limit {
            low = middle + 1;
        } else {
            high = middle;
        }
    }
    low
}

/// How many entries are before `at`: those not after the microsecond before it.
pub fn count_before<T: TimeLine>(t: &T, at: Instant) -> usize
    ensures { result ≡ earlier (T.TimeLine.instants t.now) (moment at) }
{
    // Kept: a match. `map_or` was tried, and leaves one goal for both cases, which the check does not close.
    match Instant::split(at.joined() - 1) {
        Ok(previous) => count_not_after(t, previous),
        // nothing is before the first instant of the calendar
        Err(_) => 0,
    }
}
