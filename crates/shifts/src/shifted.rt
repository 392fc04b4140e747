//! A table over another one.
ghost use Rattle.std.specs.Prelude.{◌≡◌, map, pos, if◌then◌else◌};
ghost use Rattle.tables.specs.Lines.{time_of};
ghost use Rattle.shifts.specs.Shifts.{shift_rows, accepts, shift_answer};

use crate::moves::{accepts, shifted_read};
use calendar::instant::Instant;
use model::Row;
use refusal::Refusal;
use tables::lines::{PredictionTable, RowAndEnds, TimeLine};

/// A prediction table with every instant moved by the same number of microseconds.
#[derive(Drop)]
pub struct Shifted<'t, T: PredictionTable> {
    below: &'t T,
    shift: i64,
}

impl<'t, T: PredictionTable> Shifted<'t, T> {
    /// The table with shift 0.
    pub fn new(below: &'t T) -> Shifted<'t, T>
        ensures shift { result.shift ≡ pos 0 }
        ensures below { result.below.now ≡ below.now }
        ensures rows { shift_rows result.shift (T.PredictionTable.rows result.below.now) ≡ T.PredictionTable.rows below.now }
    {
        Shifted { below, shift: 0 }
    }

    /// Moves every instant of the table below by so many microseconds, in place of the shift before. `ShiftTooLarge`
    /// for more than a day, or where a row would leave the calendar: then nothing changes.
    pub fn set_shift(&mut self, micros: i64) -> Result<(), Refusal>
        ensures answer { result ≡ shift_answer micros (T.PredictionTable.rows self.old.below.now) }
        ensures below { self.new.below.now ≡ self.old.below.now }
        ensures shift { self.new.shift ≡ (if accepts micros (T.PredictionTable.rows self.old.below.now) then micros else self.old.shift) }
    {
        if !accepts(self.below, micros) {
            return Err(Refusal::ShiftTooLarge);
        }
        self.shift = micros;
        Ok(())
    }
}

impl<'t, T: PredictionTable> TimeLine for Shifted<'t, T> {
    ghost instants = { λ s. map time_of (shift_rows s.shift (T.PredictionTable.rows s.below.now)) };

    fn in_order(&self) {
        self.below.in_order();
        self.below.by_rows();
    }

    fn count(&self) -> usize {
        self.below.by_rows();
        self.below.count()
    }

    fn instant(&self, i: usize) -> Result<Instant, Refusal> {
        match shifted_read(self.below, self.shift, i) {
            Ok(read) => Ok(read.row.at),
            Err(e) => Err(e),
        }
    }
}

impl<'t, T: PredictionTable> PredictionTable for Shifted<'t, T> {
    ghost rows = { λ s. shift_rows s.shift (T.PredictionTable.rows s.below.now) };

    fn by_rows(&self) {}

    fn row(&self, i: usize) -> Result<Row, Refusal> {
        match shifted_read(self.below, self.shift, i) {
            Ok(read) => Ok(read.row),
            Err(e) => Err(e),
        }
    }

    fn row_and_ends(&self, i: usize) -> Result<RowAndEnds, Refusal> {
        shifted_read(self.below, self.shift, i)
    }
}
