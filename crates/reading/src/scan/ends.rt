//! The end of a text.
ghost use Rattle.std.specs.Prelude.{◌≡◌, ◌+◌, ◌^◌, ◌<◌};
ghost use Rattle.reading.specs.Ends.{span_agrees, span_refusal, end_refusal};

use crate::build::Span;
use crate::scan::Scan;
use crate::stage::{Part, Stage};
use cells::summary::Cells;
use refusal::Refusal;

impl Span {
    /// Whether what H2 states is so.
    fn agrees(&self, cells: Cells) -> bool
        ensures { result ≡ span_agrees self.now cells }
    {
        self.start == cells.start
            && self.end == cells.end
            && self.interval == i64::from(cells.interval)
    }
}

impl Scan {
    /// H2 has to agree with the cells: 20.
    fn check_span(&self) -> Result<(), Refusal>
        ensures { result ≡ span_refusal self.now }
    {
        if self
            .summary
            .is_some_and(|summary| self.span.agrees(summary.cells()))
        {
            Ok(())
        } else {
            Err(Refusal::CellsDisagree)
        }
    }

    /// The end after so many lines: 14 at the line after the last where something is missing, then 20. (Inner: there is a next line
    /// number.)
    pub(crate) fn finish(&self, lines: usize) -> Result<(), Refusal>
        requires { lines + 1 < 2 ^ 64 }
        ensures { result ≡ end_refusal self.now lines }
    {
        match self.part {
            Part::File if self.stage == Stage::End => self.check_span(),
            Part::Block if self.stage.rows_done() => Ok(()),
            _ => Err(Refusal::OutOfPlace { line: lines + 1 }),
        }
    }
}
