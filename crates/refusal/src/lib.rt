//! The refusals: every call that says no answers one of these.
#![tactic(auto)]

ghost use Rattle.std.specs.Prelude.{◌≡◌};
ghost use Rattle.refusal.specs.Numbers.{number_of, line_of, word_of};

use std::fmt;

/// Why a call was refused. Each case holds just what applies to it: the line, counted from 1 (0 where the
/// refusal is of the whole file, block or result), and the word of that line, counted from 1.
#[derive(Clone, Copy, PartialEq, Eq, Debug)]
pub enum Refusal {
    /// 11: a byte that no line may have, or the last line's end is missing.
    ForbiddenByte { line: usize },
    /// 12: the file, the block (line 0) or a line is too long.
    TooLong { line: usize },
    /// 13: no record type, or no space after it.
    UnknownRecord { line: usize },
    /// 14: a record out of place, or missing where the text ends.
    OutOfPlace { line: usize },
    /// 15: too few or too many words.
    WordCount { line: usize },
    /// 16: a word not of its field's form.
    WrongForm { line: usize, word: usize },
    /// 17: a value outside its field's range, or a date that does not exist.
    OutOfRange { line: usize, word: usize },
    /// 18: a row not after the row before it.
    NotAfter { line: usize },
    /// 19: the leap flag changes after it was set (line 0: in the result of a paste).
    FlagChanges { line: usize },
    /// 20: start, end or interval of H2 are not those of the rows.
    CellsDisagree,
    /// 21: more rows than the memory holds or a sheet may have (line 0: in the result of a paste).
    TooManyRows { line: usize },
    /// 22: velocities in the block only, or in the sheet only.
    VelocitiesDiffer,
    /// 23: the rows that this edit takes out exceed the memory for them.
    TakenRowsExceed,
    /// 24: no file is open.
    NoFileOpen,
    /// 25: a cut that finds no row.
    NothingToCut,
    /// 26: a cut that takes every row.
    CutTakesAll,
    /// 27: undo with an empty journal.
    JournalEmpty,
    /// 28: no row or journal entry of that number.
    NoSuchNumber,
    /// 29: an instant outside the calendar.
    OutsideCalendar,
    /// 30: too few rows before the instant for a window.
    WindowTooEarly,
    /// 31: too few rows after the instant for a window.
    WindowTooLate,
    /// 32: the leap flags of the window's rows differ.
    WindowFlagsDiffer,
    /// 33: the output is too short for the file.
    OutputTooShort,
    /// 34: a shift of more than a day, or one by which a row leaves the calendar.
    ShiftTooLarge,
}

impl Refusal {
    /// The number by which the refusal is known.
    pub fn number(&self) -> u8
        ensures { result ≡ number_of self.now }
    {
        match self {
            Refusal::ForbiddenByte { .. } => 11,
            Refusal::TooLong { .. } => 12,
            Refusal::UnknownRecord { .. } => 13,
            Refusal::OutOfPlace { .. } => 14,
            Refusal::WordCount { .. } => 15,
            Refusal::WrongForm { .. } => 16,
            Refusal::OutOfRange { .. } => 17,
            Refusal::NotAfter { .. } => 18,
            Refusal::FlagChanges { .. } => 19,
            Refusal::CellsDisagree => 20,
            Refusal::TooManyRows { .. } => 21,
            Refusal::VelocitiesDiffer => 22,
            Refusal::TakenRowsExceed => 23,
            Refusal::NoFileOpen => 24,
            Refusal::NothingToCut => 25,
            Refusal::CutTakesAll => 26,
            Refusal::JournalEmpty => 27,
            Refusal::NoSuchNumber => 28,
            Refusal::OutsideCalendar => 29,
            Refusal::WindowTooEarly => 30,
            Refusal::WindowTooLate => 31,
            Refusal::WindowFlagsDiffer => 32,
            Refusal::OutputTooShort => 33,
            Refusal::ShiftTooLarge => 34,
        }
    }

    /// The line that was refused, counted from 1; 0 where none applies.
    // Kept: 0 where none applies: programs print it so, and an Option would become 0 at each use.
    pub fn line(&self) -> usize
        ensures { result ≡ line_of self.now }
    {
        match self {
            Refusal::ForbiddenByte { line }
            | Refusal::TooLong { line }
            | Refusal::UnknownRecord { line }
            | Refusal::OutOfPlace { line }
            | Refusal::WordCount { line }
            | Refusal::WrongForm { line, .. }
            | Refusal::OutOfRange { line, .. }
            | Refusal::NotAfter { line }
            | Refusal::FlagChanges { line }
            | Refusal::TooManyRows { line } => *line,
            _ => 0,
        }
    }

    /// The word that was refused, counted from 1 at the record type; 0 where none applies.
    // Kept: 0 where none applies: programs print it so, and an Option would become 0 at each use.
    pub fn word(&self) -> usize
        ensures { result ≡ word_of self.now }
    {
        match self {
            Refusal::WrongForm { word, .. } | Refusal::OutOfRange { word, .. } => *word,
            _ => 0,
        }
    }
}

/// `refused N line L word W`, as the programs print it.
impl fmt::Display for Refusal {
    fn fmt<W: fmt::Write>(&self, f: &mut fmt::Formatter<W>) -> fmt::Result {
        write!(
            f,
            "refused {} line {} word {}",
            self.number(),
            self.line(),
            self.word()
        )
    }
}
