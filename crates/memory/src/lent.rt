//! A lent piece of memory.
ghost use Rattle.std.specs.Prelude.{◌≡◌, ◌+◌, ◌≤◌, length, take, drop};
ghost use Rattle.std.proofs.Math.Seq.{paste};
ghost use Rattle.memory.specs.Places.{SamePlace};
ghost use Rattle.reading.specs.Stores.{rows_in};

use crate::blocks::{copy_block, move_block};
use model::Row;
use reading::store::store_rows;

/// A lent piece of memory; nobody else writes it while this stands.
#[derive(Drop)]
pub struct Lent<'m, T> {
    cells: &'m mut [T],
}

impl<'m, T: Copy> Lent<'m, T> {
    pub fn new(cells: &'m mut [T]) -> Lent<'m, T>
        ensures value { result.cells.now ≡ cells.old }
        ensures same { result.cells.ghost_name ≡ cells.entry.ghost_name }
    {
        Lent { cells }
    }

    /// How many cells there are.
    pub fn len(&self) -> usize
        ensures { result ≡ length self.now.cells.now }
    {
        self.cells.len()
    }

    /// The first `n` cells. (Inner: there are so many.)
    pub fn first(&self, n: usize) -> &[T]
        requires { n ≤ length self.now.cells.now }
        ensures { result.now ≡ take n self.now.cells.now }
    {
        &self.cells[..n]
    }

    /// Moves `n` cells from one place to another. (Inner: both parts lie in the memory.)
    pub fn move_block(&mut self, from: usize, to: usize, n: usize)
        requires source { from + n ≤ length self.old.cells.now }
        requires target { to + n ≤ length self.old.cells.now }
        ensures value { self.new.cells.now ≡ paste self.old.cells.now to (drop from self.old.cells.now) n }
        ensures place { SamePlace self.old.cells self.new.cells }
    {
        move_block(self.cells, from, to, n);
    }

    /// Copies `n` cells of another memory. (Inner: both parts lie in their memories.)
    pub fn copy_from(&mut self, to: usize, source: &Lent<T>, from: usize, n: usize)
        requires source { from + n ≤ length source.now.cells.now }
        requires target { to + n ≤ length self.old.cells.now }
        ensures value { self.new.cells.now ≡ paste self.old.cells.now to (drop from source.now.cells.now) n }
        ensures place { SamePlace self.old.cells self.new.cells }
    {
        copy_block(self.cells, to, source.cells, from, n);
    }

    /// The memory for good: nobody writes it again while what is returned stands.
    pub fn close(self) -> &'m [T]
        ensures { result.now ≡ self.entry.cells.now }
    {
        let Lent { cells } = self;
        cells
    }
}

/// Stores the rows of a text that was checked, and answers how many they are. (Inner: there is room for them.)
pub fn load_rows(memory: &mut Lent<'_, Row>, text: &[u8]) -> usize
    requires { length (rows_in text.now) ≤ length memory.old.cells.now }
    ensures rows { take result memory.new.cells.now ≡ rows_in text.now }
    ensures count { result ≡ length (rows_in text.now) }
    ensures place { SamePlace memory.old.cells memory.new.cells }
{
    store_rows(text, memory.cells)
}

/// Stores the `n` rows of a text that was checked, from the place `at` on. (Inner: they are so many, and lie in the memory.)
pub fn load_rows_at(memory: &mut Lent<'_, Row>, at: usize, n: usize, text: &[u8])
    requires count { n ≡ length (rows_in text.now) }
    requires target { at + n ≤ length memory.old.cells.now }
    ensures value { memory.new.cells.now ≡ paste memory.old.cells.now at (rows_in text.now) n }
    ensures place { SamePlace memory.old.cells memory.new.cells }
{
    store_rows(text, &mut memory.cells[at..at + n]);
}
