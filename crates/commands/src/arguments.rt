//! The words of a line at their places, as the commands take them.
ghost use Rattle.std.specs.Prelude.{◌≡◌, ◌<◌, ◌≤◌, IfOk};
ghost use Rattle.lines.specs.Words.{words};
ghost use Rattle.commands.specs.Arguments.{word_at, number_at, index_at, rows_at, moment_at, shift_at, shifts_of};

use crate::command::Shifts;
use crate::numeral::{numeral, signed_numeral};
use calendar::instant::Timestamp;
use command_error::CommandError;
use lines::words::Words;
use model::rows::MOST_ROWS;

/// The words of a line, the name of the command first.
#[derive(Clone, Copy)]
pub(crate) struct Arguments<'l> {
    pub(crate) line: &'l [u8],
}

impl<'l> Arguments<'l> {
    /// The word at this place, counted from 1; no bytes where the line has fewer words.
    pub(crate) fn word(self, place: usize) -> &'l [u8]
        ensures { result.now ≡ word_at (words self.entry.line.now) place }
    {
        Words::new(self.line)
            .nth(place.saturating_sub(1))
            .unwrap_or(&[])
    }

    /// The word at this place as a number from 0 to `most`.
    fn number(self, place: usize, most: u64) -> Result<u64, CommandError>
        ensures is { result ≡ number_at most (words self.entry.line.now) place }
        ensures bound { IfOk result (λ n. n ≤ most) }
    {
        numeral(self.word(place), most).ok_or(CommandError::NotANumber { word: place })
    }

    /// The number of a row or of a journal entry.
    pub(crate) fn index(self, place: usize) -> Result<usize, CommandError>
        ensures { result ≡ index_at (words self.entry.line.now) place }
    {
        Ok(self.number(place, u64::MAX)? as usize)
    }

    /// How many rows there is to be memory for.
    pub(crate) fn rows(self, place: usize) -> Result<usize, CommandError>
        ensures { result ≡ rows_at (words self.entry.line.now) place }
    {
        let rows = self.index(place)?;
        if rows > MOST_ROWS {
            return Err(CommandError::TooManyRows { word: place });
        }
        Ok(rows)
    }

    /// A day at this place, and microseconds at the next.
    pub(crate) fn moment(self, place: usize) -> Result<Timestamp, CommandError>
        requires { place < 10 }
        ensures { result ≡ moment_at (words self.entry.line.now) place }
    {
        let day = self.number(place, u64::from(u32::MAX))? as u32;
        let micros = self.number(place + 1, u64::MAX)?;
        Ok(Timestamp { day, micros })
    }

    fn shift(self, place: usize) -> Result<i64, CommandError>
        ensures { result ≡ shift_at (words self.entry.line.now) place }
    {
        signed_numeral(self.word(place)).ok_or(CommandError::NotANumber { word: place })
    }

    /// So many shifts, at most three, from the fourth word on.
    pub(crate) fn shifts(self, count: usize) -> Result<Shifts, CommandError>
        ensures { result ≡ shifts_of count (words self.entry.line.now) }
    {
        match count {
            0 => Ok(Shifts::Unshifted),
            1 => Ok(Shifts::One(self.shift(4)?)),
            2 => Ok(Shifts::Two(self.shift(4)?, self.shift(5)?)),
            _ => Ok(Shifts::Three(self.shift(4)?, self.shift(5)?, self.shift(6)?)),
        }
    }
}
