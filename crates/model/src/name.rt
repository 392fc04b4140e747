//! Short texts of a header: source, target and notes.
pub mod texts;

/// The most bytes of a text word that a header keeps.
pub const LONGEST_NAME: usize = 10;

/// A text of at most ten bytes; the bytes past its length are 0.
// Kept: no heap, and the kit's texts of a fixed size hold UTF-8 alone (ArrayString) or cannot be copied (ArrayVec).
#[derive(Clone, Copy, PartialEq, Eq, Debug)]
pub struct Name {
    pub bytes: [u8; LONGEST_NAME],
    pub len: usize,
}
