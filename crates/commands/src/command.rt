//! What a line of a script can ask for.

use calendar::instant::Timestamp;

/// The shifts of stacked tables in microseconds, the lowest table's first.
// Kept: a case for each count, since there is no heap and an array of three would hold shifts that do not count.
#[derive(Clone, Copy)]
pub enum Shifts {
    Unshifted,
    One(i64),
    Two(i64, i64),
    Three(i64, i64, i64),
}

/// What a line of a script asks for; paths are parts of the line.
#[derive(Clone, Copy)]
pub enum Command<'l> {
    /// A new empty sheet with memory for so many rows and taken rows.
    Sheet { rows: usize, taken: usize },
    Open { path: &'l [u8] },
    Paste { path: &'l [u8] },
    Cut { from: Timestamp, to: Timestamp },
    Undo,
    Cells,
    Journal,
    Show,
    Close,
    Row { number: usize },
    Entry { number: usize },
    Window { at: Timestamp, shifts: Shifts },
    /// The lines of the window over a file's text.
    Lines { path: &'l [u8], at: Timestamp },
    Write { path: &'l [u8] },
    /// An empty line, or a comment.
    Nothing,
}
