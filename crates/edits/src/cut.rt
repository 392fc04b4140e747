//! Where a cut acts.
ghost use Rattle.std.specs.Prelude.{◌≡◌, true, [], length};
ghost use Rattle.calendar.specs.Instants.{moment};
ghost use Rattle.journal.specs.declared.journal.Edit.TheVariants.{Cut};
ghost use Rattle.edits.specs.Checks.{rules, in_order, cut_rules, cut_of, cut_checks, joined};
ghost use Rattle.edits.specs.Places.{Decided};

use crate::place::{Place, find};
use calendar::instant::{Instant, Timestamp};
use refusal::Refusal;
use tables::row_table::RowTable;

/// The rows from one instant to another, both included: 25, 26, 23.
fn place_between(
    rows: RowTable<'_>,
    hold: usize,
    from: Instant,
    to: Instant,
) -> Result<Place, Refusal>
    requires { in_order rows.rows.now ≡ true }
    ensures { Decided (rules (cut_rules hold true (cut_of (moment from) (moment to) rows.entry.rows.now))) (length rows.entry.rows.now) hold Cut [] rows.entry.rows.now (cut_of (moment from) (moment to) rows.entry.rows.now) result }
{
    if to < from {
        return Err(Refusal::NothingToCut);
    }
    let place = find(rows, from, to, 0);
    let taken = place.taken();
    if taken == 0 {
        return Err(Refusal::NothingToCut);
    }
    if taken == rows.rows().len() {
        return Err(Refusal::CutTakesAll);
    }
    if taken > hold {
        return Err(Refusal::TakenRowsExceed);
    }
    Ok(place)
}

/// Where a cut acts on rows, between two instants as they were handed in: 29, 25, 26, 23. (Inner: the rows are those of a
/// sheet with memory for `hold` rows taken out.)
// Kept: the three that place an edit ask `in_order`; a struct for it would ask the same of the sheet, which makes it for each call.
pub fn place_cut(
    rows: RowTable<'_>,
    hold: usize,
    from: Timestamp,
    to: Timestamp,
) -> Result<Place, Refusal>
    requires { in_order rows.rows.now ≡ true }
    ensures { Decided (cut_checks hold rows.entry.rows.now from.day from.micros to.day to.micros) (length rows.entry.rows.now) hold Cut [] rows.entry.rows.now (cut_of (joined from.day from.micros) (joined to.day to.micros) rows.entry.rows.now) result }
{
    let from = Instant::try_from(from)?;
    let to = Instant::try_from(to)?;
    place_between(rows, hold, from, to)
}
