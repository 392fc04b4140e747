//! The kinds of commands: how each is named, and how many words it takes.
ghost use Rattle.std.specs.Prelude.{◌≡◌, ok_or};
ghost use Rattle.std.specs.Str.{bytes_eq};
ghost use Rattle.command_error.specs.declared.CommandError.TheVariants.{UnknownCommand};
ghost use Rattle.commands.specs.Kinds.{form, form_of, kind_of, named, takes};
ghost use Rattle.commands.specs.Forms.{plain_form};

use command_error::CommandError;

#[derive(Clone, Copy)]
pub enum Kind {
    Sheet,
    Open,
    Paste,
    Cut,
    Undo,
    Cells,
    Journal,
    Show,
    Close,
    Row,
    Entry,
    Window,
    Lines,
    Write,
}

/// How a command is written: its name, and how many words follow it.
#[derive(Clone, Copy)]
pub struct Form {
    pub name: &'static [u8],
    pub fewest: usize,
    pub most: usize,
}

const KINDS: [Kind; 14] = [
    Kind::Sheet,
    Kind::Open,
    Kind::Paste,
    Kind::Cut,
    Kind::Undo,
    Kind::Cells,
    Kind::Journal,
    Kind::Show,
    Kind::Close,
    Kind::Row,
    Kind::Entry,
    Kind::Window,
    Kind::Lines,
    Kind::Write,
];

impl Form {
    fn new(name: &'static [u8], fewest: usize, most: usize) -> Form
        ensures { plain_form result ≡ form name.now fewest most }
    {
        Form { name, fewest, most }
    }
}

impl Kind {
    pub(crate) fn form(self) -> Form
        ensures { plain_form result ≡ form_of self }
    {
        match self {
            Kind::Sheet => Form::new(b"sheet", 2, 2),
            Kind::Open => Form::new(b"open", 1, 1),
            Kind::Paste => Form::new(b"paste", 1, 1),
            Kind::Cut => Form::new(b"cut", 4, 4),
            Kind::Undo => Form::new(b"undo", 0, 0),
            Kind::Cells => Form::new(b"cells", 0, 0),
            Kind::Journal => Form::new(b"journal", 0, 0),
            Kind::Show => Form::new(b"show", 0, 0),
            Kind::Close => Form::new(b"close", 0, 0),
            Kind::Row => Form::new(b"row", 1, 1),
            Kind::Entry => Form::new(b"entry", 1, 1),
            Kind::Window => Form::new(b"window", 2, 5),
            Kind::Lines => Form::new(b"lines", 3, 3),
            Kind::Write => Form::new(b"write", 1, 1),
        }
    }

    /// Whether so many words may follow the name.
    pub(crate) fn takes(self, words: usize) -> bool
        ensures { result ≡ takes (form_of self) words }
    {
        let form = self.form();
        (form.fewest..=form.most).contains(&words)
    }

    /// The error that another number of words follows the name.
    pub(crate) fn word_count_error(self) -> CommandError
        ensures { result ≡ CommandError.WordCount (form_of self).fewest (form_of self).most }
    {
        let form = self.form();
        CommandError::WordCount {
            fewest: form.fewest,
            most: form.most,
        }
    }

    fn is_named(self, name: &[u8]) -> bool
        ensures { result ≡ bytes_eq (form_of self).name name.now }
    {
        self.form().name == name
    }
}

/// The kind that goes by this name.
impl TryFrom<&[u8]> for Kind {
    type Error = CommandError;

    ghost try_from_gives = { λ name r. r ≡ ok_or (kind_of name.now) UnknownCommand };

    fn try_from(name: &[u8]) -> Result<Kind, CommandError> {
        find(&KINDS, name).ok_or(CommandError::UnknownCommand)
    }
}

/// The first of the kinds that goes by this name.
fn find(kinds: &[Kind], name: &[u8]) -> Option<Kind>
    ensures { result ≡ named name.now kinds.now }
{
    kinds.iter().copied().find(|kind| kind.is_named(name))
}
