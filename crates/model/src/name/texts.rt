ghost use Rattle.std.specs.Prelude.{◌≡◌};
ghost use Rattle.model.specs.Names.{name_of, name_text};

use crate::name::{LONGEST_NAME, Name};

impl Name {
    /// The name with these bytes; of a longer text its first ten.
    // Kept: no From, which would not say that a longer text is cut.
    pub fn of(text: &[u8]) -> Name
        ensures { result ≡ name_of text.now }
    {
        let len = text.len().min(LONGEST_NAME);
        let mut bytes = [0; LONGEST_NAME];
        bytes[..len].copy_from_slice(&text[..len]);
        Name { bytes, len }
    }

    /// The bytes of the name.
    pub fn text(&self) -> &[u8]
        ensures { result.now ≡ name_text self.now }
    {
        &self.bytes[..self.len.min(LONGEST_NAME)]
    }
}
