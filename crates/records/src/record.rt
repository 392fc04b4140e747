//! The type of a record: the first two bytes of its line.
ghost use Rattle.std.specs.Prelude.{◌≡◌};
ghost use Rattle.records.specs.Types.{type_of, is_comment, record_of};

/// The records of a file.
#[derive(Clone, Copy, PartialEq, Eq, Debug)]
pub enum Record {
    /// `H1`: who predicted what, and when.
    H1,
    /// `H2`: the satellite, and the span of the rows.
    H2,
    /// `H3`: the expected accuracy.
    H3,
    /// `H5`: the offset from the centre of mass.
    H5,
    /// `H9`: the end of the header.
    H9,
    /// `10`: an instant and a position.
    Position,
    /// `20`: the velocity of the position before.
    Velocity,
    /// `00`: a comment.
    Comment,
    /// `99`: the end of the file.
    Trailer,
}

impl Record {
    fn of_type(a: u8, b: u8) -> Option<Record>
        ensures { result ≡ type_of a b }
    {
        match (a, b) {
            (b'H', b'1') => Some(Record::H1),
            (b'H', b'2') => Some(Record::H2),
            (b'H', b'3') => Some(Record::H3),
            (b'H', b'5') => Some(Record::H5),
            (b'H', b'9') => Some(Record::H9),
            (b'1', b'0') => Some(Record::Position),
            (b'2', b'0') => Some(Record::Velocity),
            (b'0', b'0') => Some(Record::Comment),
            (b'9', b'9') => Some(Record::Trailer),
            _ => None,
        }
    }

    pub fn is_comment(self) -> bool
        ensures { result ≡ is_comment self }
    {
        self == Record::Comment
    }

    /// The record of a line: a known type, and after it a space, the end of the line, or a comment's text.
    // Kept: an Option, since its refusal takes the number of the line, which is not known here.
    pub fn of(line: &[u8]) -> Option<Record>
        ensures { result ≡ record_of line.now }
    {
        match line {
            [a, b] => Record::of_type(*a, *b),
            [a, b, c, ..] => {
                let spaced = *c == b' ';
                Record::of_type(*a, *b).filter(|record| spaced || record.is_comment())
            }
            _ => None,
        }
    }
}
