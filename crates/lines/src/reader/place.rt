//! Where the reader stands.
ghost use Rattle.std.specs.Prelude.{◌≡◌};

use crate::reader::Lines;

impl Lines<'_> {
    /// The number of the line read last, counted from 1; 0 before the first.
    pub fn number(&self) -> usize
        ensures { result ≡ self.now.line }
    {
        self.line
    }
}
