//! One line more.
ghost use Rattle.std.specs.Prelude.{◌≡◌, ◌+◌, ◌^◌, ◌<◌};
ghost use Rattle.reading.specs.Contents.{content_refusal, with_content};
ghost use Rattle.reading.specs.Scans.{Stepped, started, row_count, row_refusal, line_step, is_full_at};

use crate::build::Span;
use crate::content::Content;
use crate::part::RowPart;
use crate::scan::Scan;
use crate::stage::{Part, Stage};
use cells::summary::Summary;
use model::Row;
use model::header::{Header, Origin, Satellite};
use records::record::Record;
use records::values::Values;
use refusal::Refusal;

impl Scan {
    /// Before the first line.
    pub(crate) fn start(part: Part, room: Option<usize>) -> Scan
        ensures { result ≡ started part room }
    {
        let none = Values::none();
        Scan {
            part,
            room,
            stage: match part {
                Part::File => Stage::Start,
                Part::Block => Stage::H9,
            },
            header: Header {
                origin: Origin::from(&none),
                satellite: Satellite::from(&none),
                accuracy: None,
                offset: None,
            },
            span: Span::from(&none),
            summary: None,
        }
    }

    /// Whether a row may come next: 18, 19, 21.
    fn check_row(&self, line: usize, row: Row) -> Result<(), Refusal>
        ensures { result ≡ row_refusal line self.now row }
    {
        if let Some(before) = self.summary {
            if row.at <= before.last {
                return Err(Refusal::NotAfter { line });
            }
            if !before.flag.allows(row.flag) {
                return Err(Refusal::FlagChanges { line });
            }
        }
        if self.is_full() {
            return Err(Refusal::TooManyRows { line });
        }
        Ok(())
    }

    fn row_count(&self) -> usize
        ensures { result ≡ row_count self.now }
    {
        self.summary.map_or(0, |summary| summary.count)
    }

    fn is_full(&self) -> bool
        ensures { result ≡ is_full_at self.now.room (row_count self.now) }
    {
        self.room.is_some_and(|room| self.row_count() >= room)
    }

    /// Whether what a record says may be added: only a row may not.
    fn check(&self, line: usize, content: Content) -> Result<(), Refusal>
        ensures { result ≡ content_refusal line self.now content }
    {
        match content {
            Content::Rows(RowPart::Position(row)) => self.check_row(line, row),
            _ => Ok(()),
        }
    }

    /// Adds what a record says.
    fn add(&mut self, content: Content)
        requires { row_count self.old + 1 < 2 ^ 64 }
        ensures { self.new ≡ with_content self.old content }
    {
        match content {
            Content::Origin(origin) => self.header.origin = origin,
            Content::Satellite(satellite, span) => {
                self.header.satellite = satellite;
                self.span = span;
            }
            Content::Accuracy(accuracy) => self.header.accuracy = Some(accuracy),
            Content::Offset(offset) => self.header.offset = Some(offset),
            Content::Rows(RowPart::Position(row)) => match &mut self.summary {
                Some(summary) => summary.add(row),
                None => self.summary = Some(Summary::start(row)),
            },
            Content::Rows(RowPart::Velocity(_)) => {}
        }
    }

    /// One line more: 13, 14, then 15 to 17 of its words, then 18, 19 and 21 of a row. (Inner: there were fewer rows than lines.)
    pub(crate) fn line(&mut self, number: usize, line: &[u8]) -> Result<(), Refusal>
        requires { row_count self.old < number }
        ensures { Stepped result (line_step number line.now self.old) self.old self.new }
    {
        let kind = Record::of(line).ok_or(Refusal::UnknownRecord { line: number })?;
        let stage = self
            .stage
            .next(self.part, kind)
            .ok_or(Refusal::OutOfPlace { line: number })?;
        if let Some(content) = Content::read(number, kind, &line[2..])? {
            self.check(number, content)?;
            self.add(content);
        }
        self.stage = stage;
        Ok(())
    }
}
