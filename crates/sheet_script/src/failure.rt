//! Why a command is not carried out.
use refusal::Refusal;
use std::{fmt, io};

#[derive(Debug, Drop)]
pub enum Failure<'l> {
    Unknown(&'l str),
    Unreadable(&'l str),
    Unwritable(&'l str),
    Refused(Refusal),
    /// The answers cannot be printed.
    Output(io::Error),
}

impl From<Refusal> for Failure<'_> {
    fn from(refusal: Refusal) -> Self {
        Failure::Refused(refusal)
    }
}

impl From<io::Error> for Failure<'_> {
    fn from(error: io::Error) -> Self {
        Failure::Output(error)
    }
}

impl fmt::Display for Failure<'_> {
    fn fmt<W: fmt::Write>(&self, f: &mut fmt::Formatter<W>) -> fmt::Result {
        match self {
            Failure::Unknown(line) => write!(f, "error: unknown command: {line}"),
            Failure::Unreadable(path) => write!(f, "error: cannot read {path}"),
            Failure::Unwritable(path) => write!(f, "error: cannot write {path}"),
            Failure::Refused(refusal) => write!(f, "{refusal}"),
            Failure::Output(error) => write!(f, "{error}"),
        }
    }
}
