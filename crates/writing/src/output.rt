//! A text that grows at its end, in memory that a caller lends.
ghost use Rattle.std.specs.Prelude.{◌≡◌, ◌+◌, ◌^◌, ◌<◌, ◌≤◌, length, MatchOption};
ghost use Rattle.writing.specs.Outputs.{Puts, Place};

/// A text and the memory where it goes. All of the text is counted, and what the memory has room for is written: over no memory
/// this measures.
#[derive(Drop)]
pub struct Output<'o> {
    pub bytes: &'o mut [u8],
    pub len: u128,
}

impl<'o> Output<'o> {
    /// No text yet.
    pub fn new(bytes: &'o mut [u8]) -> Output<'o>
        ensures bytes { result.bytes.now ≡ bytes.old }
        ensures same { result.bytes.ghost_name ≡ bytes.entry.ghost_name }
        ensures len { result.len ≡ 0 }
    {
        Output { bytes, len: 0 }
    }

    /// Counts `n` bytes more, and says where they begin if there is room for them.
    // Kept: tried, and to lend the room itself got no generated proof, since the bytes are counted before they are lent.
    pub fn advance(&mut self, n: usize) -> Option<usize>
        ensures bytes { self.new.bytes ≡ self.old.bytes }
        ensures counted { self.old.len + n < 2 ^ 128 → self.new.len ≡ self.old.len + n }
        ensures place { MatchOption result (length self.old.bytes.now < self.old.len + n) (λ at. Place self.old n at self.new) }
    {
        let at = self.len;
        self.len = at.saturating_add(n as u128);
        if self.len > self.bytes.len() as u128 {
            return None;
        }
        Some(at as usize)
    }

    /// Adds a text.
    pub fn put(&mut self, text: &[u8])
        ensures { Puts (length text.now) self.old text.now self.new }
    {
        if let Some(at) = self.advance(text.len()) {
            self.bytes[at..at + text.len()].copy_from_slice(text);
        }
    }
}
