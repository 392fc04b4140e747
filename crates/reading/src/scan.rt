use crate::build::Span;
use crate::stage::{Part, Stage};
use cells::summary::Summary;
use model::header::Header;

pub mod ends;
pub mod steps;

/// What the lines read so far come to, without the rows themselves.
#[derive(Clone, Copy)]
pub struct Scan {
    pub part: Part,
    /// The most rows that are taken; None: any number.
    // Kept: not a part of `Part::File`, since `scan_text` takes any part with any room.
    pub room: Option<usize>,
    pub stage: Stage,
    pub header: Header,
    /// Start, end and interval as H2 states them.
    pub span: Span,
    /// The rows so far; None before the first.
    pub summary: Option<Summary>,
}
