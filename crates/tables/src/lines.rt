//! What an author of a time line or of a prediction table writes.
ghost use Rattle.std.specs.Prelude.{◌≡◌, ◌≤◌, List, map, length, Err, MatchResult};
ghost use Rattle.calendar.specs.declared.instant.Instant.{Instant};
ghost use Rattle.model.specs.declared.Row.{Row};
ghost use Rattle.tables.specs.Ends.{EndsRead};
ghost use Rattle.tables.specs.Lines.{time_of, Ascending, place};

use calendar::instant::Instant;
use model::Row;
use refusal::Refusal;

/// The most entries of a time line, and so the most rows of a table.
pub use model::rows::MOST_ROWS;

/// A row with the first and the last row of its table.
#[derive(Clone, Copy)]
pub struct RowAndEnds {
    pub row: Row,
    pub first: Row,
    pub last: Row,
}

/// At most 8,192 entries, each with an instant of the calendar, strictly ascending.
pub trait TimeLine {
    ghost instants: { Self → List Instant };

    /// Does nothing. Code calls it to learn that the instants ascend and are few, which the author shows here.
    fn in_order(&self)
        ensures ascending { Ascending (instants self.now) }
        ensures short { length (instants self.now) ≤ 8192 };

    /// How many entries there are.
    fn count(&self) -> usize
        ensures { result ≡ length (instants self.now) };

    /// The instant of entry `i`, counted from 0; `NoSuchNumber` where `i` is not below the count.
    fn instant(&self, i: usize) -> Result<Instant, Refusal>
        ensures { result ≡ place (instants self.now) i };
}

/// A time line with a row at each instant.
pub trait PredictionTable: TimeLine {
    ghost rows: { Self → List Row };

    /// Does nothing. Code calls it to learn that the instants are those of the rows, which the author shows here.
    fn by_rows(&self)
        ensures { Self.TimeLine.instants self.now ≡ map time_of (rows self.now) };

    /// Row `i`, counted from 0; `NoSuchNumber` where `i` is not below the count.
    fn row(&self, i: usize) -> Result<Row, Refusal>
        ensures { result ≡ place (rows self.now) i };

    /// Row `i` with the first and the last row: what a table over this one needs, in one call. A table that holds or
    /// computes its rows keeps this body.
    fn row_and_ends(&self, i: usize) -> Result<RowAndEnds, Refusal>
        ensures { MatchResult result (λ read. EndsRead (rows self.now) i read) (λ e. Err e ≡ place (rows self.now) i) }
    {
        self.in_order();
        self.by_rows();
        let row = self.row(i)?;
        let first = self.row(0).unwrap();
        let last = self.row(self.count() - 1).unwrap();
        Ok(RowAndEnds { row, first, last })
    }
}
