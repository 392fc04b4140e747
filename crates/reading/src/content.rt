//! What one record says.
ghost use Rattle.std.specs.Prelude.{◌≡◌, true, unsigned_abs};
ghost use Rattle.calendar.specs.Instants.{in_calendar};
ghost use Rattle.records.specs.Values.{values_of, number_at};
ghost use Rattle.records.specs.declared.record.Record.TheVariants.{Position};
ghost use Rattle.reading.specs.Contents.{content_of, content_in, rows_part};

use crate::build::{Span, row_of};
use crate::part::RowPart;
use model::Vector;
use model::header::{Accuracy, Offset, Origin, Satellite};
use records::read::read_record;
use records::record::Record;
use records::values::Values;
use refusal::Refusal;

/// What a record says.
#[derive(Clone, Copy)]
pub enum Content {
    /// H1.
    Origin(Origin),
    /// H2.
    Satellite(Satellite, Span),
    /// H3.
    Accuracy(Accuracy),
    /// H5.
    Offset(Offset),
    /// 10 and 20.
    Rows(RowPart),
}

impl Content {
    /// What the values of a record say; None where they say nothing. (Inner: they were read by the fields of that record.)
    fn of(kind: Record, values: &Values) -> Option<Content>
        requires { kind ≡ Position → in_calendar (unsigned_abs (number_at (values_of values.now) 1)) (unsigned_abs (number_at (values_of values.now) 2)) ≡ true }
        ensures { result ≡ content_of kind (values_of values.now) }
    {
        match kind {
            Record::H1 => Some(Content::Origin(Origin::from(values))),
            Record::H2 => Some(Content::Satellite(Satellite::from(values), Span::from(values))),
            Record::H3 => Some(Content::Accuracy(Accuracy::from(values))),
            Record::H5 => Some(Content::Offset(Offset::from(values))),
            Record::Position => Some(Content::Rows(RowPart::Position(row_of(values)))),
            Record::Velocity => Some(Content::Rows(RowPart::Velocity(Vector::from(values)))),
            Record::H9 | Record::Comment | Record::Trailer => None,
        }
    }

    /// What follows a record's type: 15, then 16 and 17 from the left. A comment's text is not looked at.
    // Kept: a struct of the line, the record and its words would be built anew at each of the two calls.
    pub(crate) fn read(line: usize, kind: Record, words: &[u8]) -> Result<Option<Content>, Refusal>
        ensures { result ≡ content_in line kind words.now }
    {
        if kind.is_comment() {
            return Ok(None);
        }
        let values = read_record(line, kind, words)?;
        Ok(Content::of(kind, &values))
    }

    /// What it says of the rows.
    pub(crate) fn rows(self) -> Option<RowPart>
        ensures { result ≡ rows_part self }
    {
        match self {
            Content::Rows(part) => Some(part),
            _ => None,
        }
    }
}
