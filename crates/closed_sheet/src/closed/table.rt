//! A closed sheet as a time line and as a prediction table.
ghost use Rattle.std.specs.Prelude.{map};
ghost use Rattle.tables.specs.Lines.{time_of};

use crate::closed::ClosedSheet;
use calendar::instant::Instant;
use model::Row;
use refusal::Refusal;
use tables::lines::{PredictionTable, TimeLine};

impl TimeLine for ClosedSheet<'_> {
    ghost instants = { λ s. map time_of s.rows.rows.now };

    fn in_order(&self) {
        self.rows.in_order();
    }

    fn count(&self) -> usize {
        self.rows.count()
    }

    fn instant(&self, i: usize) -> Result<Instant, Refusal> {
        self.rows.instant(i)
    }
}

impl PredictionTable for ClosedSheet<'_> {
    ghost rows = { λ s. s.rows.rows.now };

    fn by_rows(&self) {}

    fn row(&self, i: usize) -> Result<Row, Refusal> {
        self.rows.row(i)
    }
}
