//! What holds of all commands.
ghost use Rattle.commands.specs.Texts.{CommandsReadBack};
ghost use Rattle.commands.specs.Words.{NumeralsExact, SignedExact};

/// Each command that can be asked for has a line, its name and its numbers as they are printed, and that line is read as the command.
pub fn commands_read_back()
    ensures { CommandsReadBack }
{}

/// A word is read just where it is a number that fits, and as that number.
pub fn numerals_are_exact()
    ensures unsigned { NumeralsExact }
    ensures signed { SignedExact }
{}
