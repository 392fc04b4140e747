ghost use Rattle.std.specs.Prelude.{◌≤◌, length};

pub mod entries;

/// The most entries of a journal.
pub const MOST_ENTRIES: usize = 16;

/// What an edit did.
#[derive(Clone, Copy, PartialEq, Eq, Debug)]
pub enum Edit {
    Paste = 1,
    Cut = 2,
}

/// One edit: what it did, how many rows stood before the change, and how many it put in and took out.
#[derive(Clone, Copy, PartialEq, Eq, Debug)]
pub struct Entry {
    pub edit: Edit,
    pub first: usize,
    pub put: usize,
    pub taken: usize,
}

/// The edits that can be taken back, the newest first.
// Kept: no model as the list of entries. A journal is Copy, and that list does not give the unused entries back.
#[derive(Clone, Copy)]
pub struct Journal {
    // Kept: an array with its length, since a journal has no memory of its own to grow in.
    entries: [Entry; MOST_ENTRIES],
    len: usize,
    ghost inside: { len ≤ 16 },
}

/// How many of the newest entries stay when one is added, and how many rows they took out together.
#[derive(Clone, Copy)]
pub struct Kept {
    pub entries: usize,
    pub rows: usize,
}
