//! The order of records.
ghost use Rattle.std.specs.Prelude.{◌≡◌};
ghost use Rattle.reading.specs.Order.{next_stage, rows_done};

use records::record::Record;

/// What the reader has come to.
#[derive(Clone, Copy, PartialEq, Eq, Debug)]
pub enum Stage {
    /// Nothing was read.
    Start,
    /// After H1.
    H1,
    /// After H2.
    H2,
    /// After H3.
    H3,
    /// After H5.
    H5,
    /// After H9: the first row comes.
    H9,
    /// After the first position: its velocity may follow, and decides for all rows.
    FirstPosition,
    /// After a position of rows without velocities.
    Position,
    /// After a position whose velocity has to follow.
    AwaitsVelocity,
    /// After a velocity.
    Velocity,
    /// After the trailer.
    End,
}

/// What is read: a file from H1 to 99, or a block of rows.
// Kept: an enum and three matches on it; closures for start, trailer and end would go through every call.
#[derive(Clone, Copy, PartialEq, Eq, Debug)]
pub enum Part {
    File,
    Block,
}

impl Stage {
    /// The stage after a record; None where the record is out of place.
    pub(crate) fn next(self, part: Part, kind: Record) -> Option<Stage>
        ensures { result ≡ next_stage part self kind }
    {
        match (kind, self) {
            (Record::H1, Stage::Start) => Some(Stage::H1),
            (Record::H2, Stage::H1) => Some(Stage::H2),
            (Record::H3, Stage::H2) => Some(Stage::H3),
            (Record::H5, Stage::H2 | Stage::H3) => Some(Stage::H5),
            (Record::H9, Stage::H2 | Stage::H3 | Stage::H5) => Some(Stage::H9),
            (Record::Position, Stage::H9) => Some(Stage::FirstPosition),
            (Record::Position, Stage::FirstPosition | Stage::Position) => Some(Stage::Position),
            (Record::Position, Stage::Velocity) => Some(Stage::AwaitsVelocity),
            (Record::Velocity, Stage::FirstPosition | Stage::AwaitsVelocity) => Some(
                Stage::Velocity,
            ),
            (Record::Comment, Stage::Start | Stage::End) => None,
            (Record::Comment, _) => Some(self),
            (Record::Trailer, _) if part == Part::File && self.rows_done() => Some(Stage::End),
            _ => None,
        }
    }

    /// Whether there is a row, and every row is whole.
    pub(crate) fn rows_done(self) -> bool
        ensures { result ≡ rows_done self }
    {
        matches!(
            self,
            Stage::FirstPosition | Stage::Position | Stage::Velocity
        )
    }
}
