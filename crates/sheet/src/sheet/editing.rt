//! The calls of a sheet that edit it, and undo.
ghost use Rattle.std.specs.Prelude.{min, [], length};
ghost use Rattle.reading.specs.Stores.{rows_in};
ghost use Rattle.journal.specs.declared.journal.Edit.TheVariants.{Paste, Cut};
ghost use Rattle.edits.specs.Changes.{change_at};
ghost use Rattle.edits.specs.Checks.{paste_of, cut_of, joined};
ghost use Rattle.edits.specs.Places.{Ready, Decided};
ghost use Rattle.sheet.specs.States.{paste_answer, cut_answer};
ghost use Rattle.sheet.specs.Calls.{Edited, Pasted, CutOut, Undone};
ghost use Rattle.sheet.specs.Sheets.{rows_of, row_memory, taken_memory, state_of, view, KeptIfRefused};

use crate::sheet::Sheet;
use calendar::instant::Timestamp;
use edits::cut::place_cut;
use edits::paste::place_paste;
use edits::place::Place;
use journal::journal::{Edit, Entry};
use memory::lent::load_rows_at;
use refusal::Refusal;

impl Sheet<'_> {
    /// Makes a change that was accepted: the rows of the place go out, those of the block come in, and the journal forgets what it has to.
    fn make(&mut self, edit: Edit, place: Place, block: &[u8])
        requires { Ready (min (length (row_memory self.old)) 8192) (length (taken_memory self.old)) edit (rows_in block.now) (rows_of self.old) (change_at edit place.first place.end (rows_in block.now) (rows_of self.old)) place }
        ensures { Edited (view self.old) (change_at edit place.first place.end (rows_in block.now) (rows_of self.old)) (view self.new) }
    {
        let taken = place.taken();
        let stay = self.journal.fitting(self.taken.len() - taken);
        self.taken.move_block(self.held - stay.rows, 0, stay.rows);
        self.taken
            .copy_from(stay.rows, &self.rows, place.first, taken);
        self.held = stay.rows + taken;
        self.rows
            .move_block(place.end, place.first + place.put, self.len - place.end);
        load_rows_at(&mut self.rows, place.first, place.put, block);
        self.len = self.len - taken + place.put;
        self.journal.add(
            stay.entries,
            Entry {
                edit,
                first: place.first,
                put: place.put,
                taken,
            },
        );
        self.changes = self.changes.saturating_add(1);
    }

    /// Where a block goes, or why it cannot: 24, the refusals of the block, 22, 21, 19, 23.
    fn place_of_block(&self, block: &[u8]) -> Result<Place, Refusal>
        ensures { Decided (paste_answer (state_of self.now) block.now) (min (length (row_memory self.now)) 8192) (length (taken_memory self.now)) Paste (rows_in block.now) (rows_of self.now) (paste_of (rows_in block.now) (rows_of self.now)) result }
    {
        self.header()?;
        place_paste(self.table(), self.rows.len(), self.taken.len(), block)
    }

    /// Where a cut acts, or why it cannot: 24, 29, 25, 26, 23.
    fn place_of_cut(&self, from: Timestamp, to: Timestamp) -> Result<Place, Refusal>
        ensures { Decided (cut_answer (state_of self.now) from.day from.micros to.day to.micros) (length (rows_of self.now)) (length (taken_memory self.now)) Cut [] (rows_of self.now) (cut_of (joined from.day from.micros) (joined to.day to.micros) (rows_of self.now)) result }
    {
        self.header()?;
        place_cut(self.table(), self.taken.len(), from, to)
    }

    /// Pastes a block of rows: each row from the block's first to its last instant goes out, and the block comes there. Refusals: 24, those
    /// of the block, then 22, 21, 19 for the whole result, 23. A block is taken whole or not at all.
    pub fn paste(&mut self, block: &[u8]) -> Result<(), Refusal>
        ensures pasted { Pasted (view self.old) block.now result (view self.new) }
        ensures refused { KeptIfRefused result self.old self.new }
    {
        let place = self.place_of_block(block)?;
        self.make(Edit::Paste, place, block);
        Ok(())
    }

    /// Cuts the rows from one instant to another, both included. Refusals: 24, 29, 25, 26, 23.
    pub fn cut(&mut self, from: Timestamp, to: Timestamp) -> Result<(), Refusal>
        ensures cut { CutOut (view self.old) from.day from.micros to.day to.micros result (view self.new) }
        ensures refused { KeptIfRefused result self.old self.new }
    {
        let place = self.place_of_cut(from, to)?;
        self.make(Edit::Cut, place, &[]);
        Ok(())
    }

    /// Takes the newest edit of the journal back. Refusals: 24, 27.
    pub fn undo(&mut self) -> Result<(), Refusal>
        ensures undone { Undone (view self.old) result (view self.new) }
        ensures refused { KeptIfRefused result self.old self.new }
    {
        self.header()?;
        let newest = self.journal.take_newest().ok_or(Refusal::JournalEmpty)?;
        let past = newest.first + newest.put;
        self.held -= newest.taken;
        self.rows
            .move_block(past, newest.first + newest.taken, self.len - past);
        self.rows
            .copy_from(newest.first, &self.taken, self.held, newest.taken);
        self.len = self.len - newest.put + newest.taken;
        self.changes = self.changes.saturating_add(1);
        Ok(())
    }
}
