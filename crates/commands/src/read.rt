//! A line as a command.
ghost use Rattle.std.specs.Prelude.{◌≡◌};
ghost use Rattle.lines.specs.Words.{words};
ghost use Rattle.commands.specs.Commands.{is_comment, asked_by, command_of};
ghost use Rattle.commands.specs.Forms.{plain};

use crate::arguments::Arguments;
use crate::command::Command;
use crate::kind::Kind;
use command_error::CommandError;
use lines::words::{count_words, next_word};

fn is_comment(line: &[u8]) -> bool
    ensures { result ≡ is_comment line.now }
{
    matches!(line, [b'#', ..])
}

fn sheet<'l>(args: Arguments<'l>) -> Result<Command<'l>, CommandError>
    ensures { plain result ≡ asked_by Kind.Sheet (words args.entry.line.now) }
{
    let rows = args.rows(2)?;
    let taken = args.rows(3)?;
    Ok(Command::Sheet { rows, taken })
}

fn cut<'l>(args: Arguments<'l>) -> Result<Command<'l>, CommandError>
    ensures { plain result ≡ asked_by Kind.Cut (words args.entry.line.now) }
{
    let from = args.moment(2)?;
    let to = args.moment(4)?;
    Ok(Command::Cut { from, to })
}

/// The shifts are the words after the moment.
fn window<'l>(args: Arguments<'l>) -> Result<Command<'l>, CommandError>
    ensures { plain result ≡ asked_by Kind.Window (words args.entry.line.now) }
{
    let at = args.moment(2)?;
    let shifts = args.shifts(count_words(args.line).saturating_sub(3))?;
    Ok(Command::Window { at, shifts })
}

fn lines_of<'l>(args: Arguments<'l>) -> Result<Command<'l>, CommandError>
    ensures { plain result ≡ asked_by Kind.Lines (words args.entry.line.now) }
{
    let path = args.word(2);
    let at = args.moment(3)?;
    Ok(Command::Lines { path, at })
}

/// The command of this kind, from the words after its name.
// Kept: a match, since each kind gives a command of its own shape; the arms for open, paste and write are one constructor each, and a table of closures would say each kind twice.
fn by_kind<'l>(kind: Kind, args: Arguments<'l>) -> Result<Command<'l>, CommandError>
    ensures { plain result ≡ asked_by kind (words args.entry.line.now) }
{
    match kind {
        Kind::Sheet => sheet(args),
        Kind::Open => Ok(Command::Open { path: args.word(2) }),
        Kind::Paste => Ok(Command::Paste { path: args.word(2) }),
        Kind::Cut => cut(args),
        Kind::Undo => Ok(Command::Undo),
        Kind::Cells => Ok(Command::Cells),
        Kind::Journal => Ok(Command::Journal),
        Kind::Show => Ok(Command::Show),
        Kind::Close => Ok(Command::Close),
        Kind::Row => args.index(2).map(|number| Command::Row { number }),
        Kind::Entry => args.index(2).map(|number| Command::Entry { number }),
        Kind::Window => window(args),
        Kind::Lines => lines_of(args),
        Kind::Write => Ok(Command::Write { path: args.word(2) }),
    }
}

/// What the line asks for, or what is wrong with it.
impl<'l> TryFrom<&'l [u8]> for Command<'l> {
    type Error = CommandError;

    ghost try_from_gives = { λ line r. plain r ≡ command_of line.now };

    fn try_from(line: &'l [u8]) -> Result<Command<'l>, CommandError> {
        if is_comment(line) {
            return Ok(Command::Nothing);
        }
        let Some((name, rest)) = next_word(line) else {
            return Ok(Command::Nothing);
        };
        let kind = Kind::try_from(name)?;
        if !kind.takes(count_words(rest)) {
            return Err(kind.word_count_error());
        }
        by_kind(kind, Arguments { line })
    }
}
