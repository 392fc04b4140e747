//! What one line says of the rows.
ghost use Rattle.std.specs.Prelude.{◌≡◌};
ghost use Rattle.reading.specs.Stores.{part_of};

use crate::content::Content;
use model::{Row, Vector};
use records::record::Record;

/// A part of the rows.
#[derive(Clone, Copy)]
pub enum RowPart {
    /// A row, as yet without a velocity.
    Position(Row),
    /// The velocity of the row before.
    Velocity(Vector),
}

impl RowPart {
    /// What the line of this number says of the rows; None where it says nothing.
    pub(crate) fn of(number: usize, line: &[u8]) -> Option<RowPart>
        ensures { result ≡ part_of number line.now }
    {
        let kind = Record::of(line)?;
        match kind {
            Record::Position | Record::Velocity => {
                Content::read(number, kind, &line[2..]).ok()??.rows()
            }
            // the check has read the words of these; here they are passed over
            _ => None,
        }
    }
}
