//! An open sheet as a time line and as a prediction table.
ghost use Rattle.std.specs.Prelude.{map, take};
ghost use Rattle.tables.specs.Lines.{time_of};

use crate::sheet::Sheet;
use calendar::instant::Instant;
use model::Row;
use refusal::Refusal;
use tables::lines::{PredictionTable, TimeLine};

impl TimeLine for Sheet<'_> {
    ghost instants = { λ s. map time_of (take s.len s.rows.cells.now) };

    fn in_order(&self) {
        self.table().in_order();
    }

    fn count(&self) -> usize {
        self.table().count()
    }

    fn instant(&self, i: usize) -> Result<Instant, Refusal> {
        self.table().instant(i)
    }
}

impl PredictionTable for Sheet<'_> {
    ghost rows = { λ s. take s.len s.rows.cells.now };

    fn by_rows(&self) {}

    fn row(&self, i: usize) -> Result<Row, Refusal> {
        self.table().row(i)
    }
}
