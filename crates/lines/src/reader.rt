//! The lines of a text, one after another.
ghost use Rattle.std.specs.Prelude.{◌≡◌, ◌+◌, ◌<◌, ◌≤◌, [], length, drop, MatchOption};
ghost use Rattle.lines.specs.Texts.{text_of, on_line};
ghost use Rattle.lines.specs.Lines.{next_line, lists, bytes_taken, lines_taken};

use crate::scan::scan;
use refusal::Refusal;

mod place;

/// Reads a text line by line off its own bytes.
// Kept: the text with the place in it, since the contracts of new, next and next_line name the text and the place.
#[derive(Drop)]
pub struct Lines<'f> {
    file: &'f [u8],
    /// Where the next line begins.
    at: usize,
    /// How many lines were read.
    line: usize,
    ghost inside: { at ≤ length file.now },
    ghost counts: { line ≤ at },
}

impl<'f> Lines<'f> {
    pub fn new(file: &'f [u8]) -> Lines<'f>
        ensures { (result.file ≡ file.entry) × ((result.at ≡ 0) × (result.line ≡ 0)) }
    {
        Lines {
            file,
            at: 0,
            line: 0,
        }
    }

    /// The next line without its end, None after the last; 11 and 12 for a line that is none.
    pub fn next(&mut self) -> Result<Option<&'f [u8]>, Refusal>
        ensures gives { lists result ≡ next_line (self.old.line + 1) (drop self.old.at self.old.file.now) }
        ensures file { self.new.file ≡ self.old.file }
        ensures at { self.new.at ≡ self.old.at + bytes_taken (lists result) }
        ensures line { self.new.line ≡ self.old.line + lines_taken (lists result) }
    {
        let rest = &self.file[self.at..];
        if rest.is_empty() {
            return Ok(None);
        }
        let number = self.line + 1;
        let n = scan(rest).map_err(|fault| fault.at(number))?;
        self.at += n + 1;
        self.line = number;
        Ok(Some(&rest[..n]))
    }

    /// The next line without its end; None where no line follows that is one.
    pub fn next_line(&mut self) -> Option<&'f [u8]>
        ensures text { MatchOption result ((text_of (drop self.old.at self.old.file.now)).lines ≡ []) (λ l. text_of (drop self.old.at self.old.file.now) ≡ on_line l.now (text_of (drop self.new.at self.old.file.now))) }
        ensures file { self.new.file ≡ self.old.file }
        ensures line { MatchOption result (0 ≤ 0) (λ _. self.new.line ≡ self.old.line + 1) }
        ensures further { MatchOption result (0 ≤ 0) (λ _. self.old.at < self.new.at) }
    {
        self.next().unwrap_or(None)
    }
}
