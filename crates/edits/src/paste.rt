//! Where a paste acts.
ghost use Rattle.std.specs.Prelude.{◌≡◌, min, true};
ghost use Rattle.reading.specs.Stores.{rows_in};
ghost use Rattle.journal.specs.declared.journal.Edit.TheVariants.{Paste};
ghost use Rattle.edits.specs.Checks.{in_order, differ, moving, paste_of, paste_checks};
ghost use Rattle.edits.specs.Places.{Decided};
ghost use Rattle.edits.specs.Stages.{moving_at};

use crate::flags::{allows_first, last_allows};
use crate::place::{Place, find};
use reading::stage::{Part, Stage};
use reading::store::first_flag;
use reading::text::scan_text;
use refusal::Refusal;
pub use tables::lines::MOST_ROWS;
use tables::row_table::RowTable;

/// Whether only the rows or only the block, read up to its last stage, has velocities.
fn velocities_differ(rows: RowTable<'_>, stage: Stage) -> bool
    ensures { result ≡ differ (moving_at stage) (moving rows.entry.rows.now) }
{
    let sheet = rows
        .rows()
        .first()
        .is_some_and(|row| row.velocity.is_some());
    (stage == Stage::Velocity) != sheet
}

/// Where the rows of a block go among the rows of a sheet: the refusals of the block itself, then 22, 21, 19, 23. (Inner: the rows are those
/// of a sheet with memory for `room` rows, and for `hold` rows taken out.)
pub fn place_paste(
    rows: RowTable<'_>,
    room: usize,
    hold: usize,
    block: &[u8],
) -> Result<Place, Refusal>
    requires { in_order rows.rows.now ≡ true }
    ensures { Decided (paste_checks room hold rows.entry.rows.now block.now) (min room 8192) hold Paste (rows_in block.now) rows.entry.rows.now (paste_of (rows_in block.now) rows.entry.rows.now) result }
{
    let scan = scan_text(block, Part::Block, None)?;
    let summary = scan.summary.unwrap();
    if velocities_differ(rows, scan.stage) {
        return Err(Refusal::VelocitiesDiffer);
    }
    let place = find(rows, summary.first, summary.last, summary.count);
    let taken = place.taken();
    if (rows.rows().len() - taken).saturating_add(summary.count) > room.min(MOST_ROWS) {
        return Err(Refusal::TooManyRows { line: 0 });
    }
    let flag = first_flag(block).unwrap();
    if !last_allows(rows, place.first, flag) || !allows_first(summary.flag, rows, place.end) {
        return Err(Refusal::FlagChanges { line: 0 });
    }
    if taken > hold {
        return Err(Refusal::TakenRowsExceed);
    }
    Ok(place)
}
