//! The table of rows in memory, as a time line and as a prediction table.
ghost use Rattle.std.specs.Prelude.{map};
ghost use Rattle.tables.specs.Lines.{time_of};

use crate::lines::{PredictionTable, TimeLine};
use crate::row_table::RowTable;
use calendar::instant::Instant;
use model::Row;
use refusal::Refusal;

impl TimeLine for RowTable<'_> {
    ghost instants = { λ t. map time_of t.rows.now };

    fn in_order(&self) {}

    fn count(&self) -> usize {
        self.rows.len()
    }

    fn instant(&self, i: usize) -> Result<Instant, Refusal> {
        Ok(self.row(i)?.at)
    }
}

impl PredictionTable for RowTable<'_> {
    ghost rows = { λ t. t.rows.now };

    fn by_rows(&self) {}

    fn row(&self, i: usize) -> Result<Row, Refusal> {
        self.rows.get(i).copied().ok_or(Refusal::NoSuchNumber)
    }
}
