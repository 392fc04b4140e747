//! The entries of a journal: read, added and taken back.
ghost use Rattle.std.specs.Prelude.{◌≡◌, ◌≤◌, [], ◌∷◌, length, take, MatchOption};
ghost use Rattle.tables.specs.Lines.{place};
ghost use Rattle.journal.specs.Journals.{entries_of, Fitting};

use crate::journal::{Edit, Entry, Journal, Kept, MOST_ENTRIES};
use memory::blocks::move_block;
use refusal::Refusal;

impl Journal {
    /// A journal without entries.
    pub fn new() -> Journal
        ensures { entries_of result ≡ [] }
    {
        Journal {
            entries: [Entry {
                edit: Edit::Cut,
                first: 0,
                put: 0,
                taken: 0,
            }; MOST_ENTRIES],
            len: 0,
        }
    }

    /// How many entries there are.
    pub fn count(&self) -> usize
        ensures { result ≡ length (entries_of self.now) }
    {
        self.len
    }

    /// The entry of a number, 0 being the newest; 28 where there is none.
    pub fn entry(&self, i: usize) -> Result<Entry, Refusal>
        ensures { result ≡ place (entries_of self.now) i }
    {
        self.entries[..self.len]
            .get(i)
            .copied()
            .ok_or(Refusal::NoSuchNumber)
    }

    /// The most of the newest entries, 15 or fewer, that took out `room` rows or fewer.
    pub fn fitting(&self, room: usize) -> Kept
        ensures { Fitting room (entries_of self.now) result.entries result.rows }
    {
        let mut kept = Kept {
            entries: 0,
            rows: 0,
        };
        for entry in &self.entries[..self.len.min(MOST_ENTRIES - 1)] {
            if entry.taken > room - kept.rows {
                return kept;
            }
            kept.entries += 1;
            kept.rows += entry.taken;
        }
        kept
    }

    /// Adds an entry in front of the `keep` newest; the others are forgotten. (Inner: there are so many, and there is room for one
    /// more.)
    pub fn add(&mut self, keep: usize, entry: Entry)
        requires few { keep ≤ 15 }
        requires some { keep ≤ length (entries_of self.old) }
        ensures { entries_of self.new ≡ entry ∷ take keep (entries_of self.old) }
    {
        move_block(&mut self.entries, 0, 1, keep);
        self.entries[0] = entry;
        self.len = keep + 1;
    }

    /// Takes the newest entry out; None where there is none.
    pub fn take_newest(&mut self) -> Option<Entry>
        ensures { MatchOption result ((entries_of self.old ≡ []) × (self.new ≡ self.old)) (λ e. entries_of self.old ≡ e ∷ entries_of self.new) }
    {
        if self.len == 0 {
            return None;
        }
        let newest = self.entries[0];
        self.len -= 1;
        move_block(&mut self.entries, 1, 0, self.len);
        Some(newest)
    }
}
