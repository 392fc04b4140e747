ghost use Rattle.std.specs.Prelude.{◌≡◌, ◌+◌, ◌^◌, ◌<◌};
ghost use Rattle.cells.specs.Cells.{day_second, step_seconds, started, extended, cells_by, cells_if};

use crate::summary::{Cells, DaySecond, Summary};
use calendar::instant::Instant;
use model::Row;

/// The greatest interval in seconds.
const GREATEST_INTERVAL: u64 = 99_999;

/// The whole seconds from one instant to a later one; 0 where they are not a whole number from 1 to 99,999.
fn step_seconds(from: Instant, to: Instant) -> u32
    ensures { result ≡ step_seconds from to }
{
    let micros = to.joined().saturating_sub(from.joined());
    let seconds = micros / 1_000_000;
    if micros % 1_000_000 == 0 && seconds <= GREATEST_INTERVAL {
        seconds as u32
    } else {
        0
    }
}

/// An instant without its fraction of a second.
impl From<Instant> for DaySecond {
    ghost from_gives = { λ at r. r ≡ day_second at };

    fn from(at: Instant) -> DaySecond {
        DaySecond {
            day: at.day,
            second: at.second(),
        }
    }
}

impl Summary {
    /// The summary of a single row.
    pub fn start(row: Row) -> Summary
        ensures { result ≡ started row }
    {
        Summary {
            count: 1,
            first: row.at,
            last: row.at,
            flag: row.flag,
            interval: 0,
        }
    }

    /// The summary with one row more. (Inner: the count must not pass the greatest `usize`.)
    pub fn add(&mut self, row: Row)
        requires { self.old.count + 1 < 2 ^ 64 }
        ensures { self.new ≡ extended self.old row }
    {
        let step = step_seconds(self.last, row.at);
        let steady = self.count == 1 || self.interval == step;
        *self = Summary {
            count: self.count + 1,
            last: row.at,
            flag: row.flag,
            interval: if steady { step } else { 0 },
            ..*self
        };
    }

    pub fn cells(&self) -> Cells
        ensures { result ≡ cells_by self.now }
    {
        Cells {
            count: self.count,
            start: self.first.into(),
            end: self.last.into(),
            interval: self.interval,
        }
    }
}

/// The cells of rows; None where there is no row.
pub fn cells_of(rows: &[Row]) -> Option<Cells>
    ensures { result ≡ cells_if rows.now }
{
    let (first, rest) = rows.split_first()?;
    let mut summary = Summary::start(*first);
    for row in rest {
        summary.add(*row);
    }
    Some(summary.cells())
}
