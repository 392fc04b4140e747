//! What is wrong with a line of a script.
#![tactic(auto)]

use std::fmt;

/// What is wrong with a line. Words are counted from 1; the command's name is the first.
#[derive(Clone, Copy, PartialEq, Eq, Debug)]
pub enum CommandError {
    /// The first word names no command.
    UnknownCommand,
    /// Fewer or more words after the name than the command takes.
    WordCount { fewest: usize, most: usize },
    /// The word is no number of the kind that stands there.
    NotANumber { word: usize },
    /// The word asks for memory for more rows than a sheet may have.
    TooManyRows { word: usize },
}

impl fmt::Display for CommandError {
    fn fmt<W: fmt::Write>(&self, f: &mut fmt::Formatter<W>) -> fmt::Result {
        match *self {
            CommandError::UnknownCommand => f.write_str("there is no such command"),
            CommandError::WordCount { fewest, most } => show_count(fewest, most, f),
            CommandError::NotANumber { word } => {
                show_word(
                    word,
                    "not a number of the kind that the command takes there",
                    f,
                )
            }
            CommandError::TooManyRows { word } => show_word(word, "more than 8192 rows", f),
        }
    }
}

fn show_word<W: fmt::Write>(word: usize, what: &str, f: &mut fmt::Formatter<W>) -> fmt::Result {
    write!(f, "word {word} is {what}")
}

fn show_count<W: fmt::Write>(fewest: usize, most: usize, f: &mut fmt::Formatter<W>) -> fmt::Result {
    match most {
        0 => f.write_str("no words follow the name of this command"),
        1 => f.write_str("one word follows the name of this command"),
        _ => write!(
            f,
            "{fewest} to {most} words follow the name of this command"
        ),
    }
}
