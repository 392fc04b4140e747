//! The commands of a script.
use crate::failure::Failure;
use calendar::instant::Timestamp;

/// What a line of a script asks for.
// Kept: not the commands of the crate commands, which takes more and refuses in other words than this program prints.
pub enum Command<'l> {
    Open(&'l str),
    Cells,
    Show,
    Write(&'l str),
    /// The row of a number counted from 0.
    Row(usize),
    /// The window around an instant as it is written.
    Window(Timestamp),
    /// An empty line, or one that begins with `#`.
    Nothing,
}

/// An unknown command where the line asks for nothing that there is.
impl<'l> TryFrom<&'l str> for Command<'l> {
    type Error = Failure<'l>;

    fn try_from(line: &'l str) -> Result<Command<'l>, Failure<'l>> {
        if line.is_empty() || line.starts_with('#') {
            return Ok(Command::Nothing);
        }
        let command = match line.split_once(' ') {
            Some((name, words)) => with_words(name, words),
            None => without_words(line),
        };
        command.ok_or(Failure::Unknown(line))
    }
}

fn without_words<'l>(name: &str) -> Option<Command<'l>> {
    match name {
        "cells" => Some(Command::Cells),
        "show" => Some(Command::Show),
        _ => None,
    }
}

fn with_words<'l>(name: &str, words: &'l str) -> Option<Command<'l>> {
    match name {
        "open" => Some(Command::Open(words)),
        "write" => Some(Command::Write(words)),
        "row" => Some(Command::Row(words.parse().ok()?)),
        "window" => {
            let (day, micros) = words.split_once(' ')?;
            Some(Command::Window(Timestamp {
                day: day.parse().ok()?,
                micros: micros.parse().ok()?,
            }))
        }
        _ => None,
    }
}
