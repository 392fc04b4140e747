//! The place of an edit.
ghost use Rattle.std.specs.Prelude.{◌≡◌, ◌-◌, ◌≤◌, map};
ghost use Rattle.calendar.specs.Instants.{moment};
ghost use Rattle.tables.specs.Lines.{time_of, earlier, not_after};

use calendar::instant::Instant;
use tables::row_table::RowTable;
use tables::search::{count_before, count_not_after};

/// Where an edit acts: the rows from `first` up to `end` go out, and `put` rows come in.
#[derive(Clone, Copy)]
pub struct Place {
    pub first: usize,
    pub end: usize,
    pub put: usize,
}

impl Place {
    /// How many rows go out. (Inner: the place does not end before it begins.)
    pub fn taken(self) -> usize
        requires { self.first ≤ self.end }
        ensures { result ≡ self.end - self.first }
    {
        self.end - self.first
    }
}

/// The rows from one instant to another, both included.
pub(crate) fn find(rows: RowTable<'_>, from: Instant, to: Instant, put: usize) -> Place
    ensures first { result.first ≡ earlier (map time_of rows.entry.rows.now) (moment from) }
    ensures end { result.end ≡ not_after (map time_of rows.entry.rows.now) (moment to) }
    ensures put { result.put ≡ put }
{
    Place {
        first: count_before(&rows, from),
        end: count_not_after(&rows, to),
        put,
    }
}
