//! What a sheet tells of its edits.
ghost use Rattle.std.specs.Prelude.{◌≡◌, length};
ghost use Rattle.tables.specs.Lines.{place};
ghost use Rattle.journal.specs.Journals.{entries_of};

use crate::sheet::Sheet;
use journal::journal::Entry;
use refusal::Refusal;

impl Sheet<'_> {
    /// How many entries the journal has.
    pub fn journal_len(&self) -> usize
        ensures { result ≡ length (entries_of self.now.journal) }
    {
        self.journal.count()
    }

    /// The journal's entry of a number, 0 being the newest; 28 where there is none.
    pub fn entry(&self, i: usize) -> Result<Entry, Refusal>
        ensures { result ≡ place (entries_of self.now.journal) i }
    {
        self.journal.entry(i)
    }

    /// How many edits and undos were accepted since the opening.
    pub fn change_count(&self) -> u32
        ensures { result ≡ self.now.changes }
    {
        self.changes
    }
}
