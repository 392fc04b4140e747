//! Blocks of elements moved within a slice, and copied from one slice to another.
ghost use Rattle.std.specs.Prelude.{◌≡◌, ◌+◌, ◌≤◌, length, drop};
ghost use Rattle.std.proofs.Math.Seq.{paste};

/// Moves `n` elements from the place `from` to the place `to`; the two parts may overlap. It opens and closes gaps. (Inner: both
/// parts lie in the slice.)
// Kept: here and below, and in `Lent`, place and count in two numbers; a range would ask too that it does not end before it begins.
pub fn move_block<T: Copy>(cells: &mut [T], from: usize, to: usize, n: usize)
    requires source { from + n ≤ length cells.old }
    requires target { to + n ≤ length cells.old }
    ensures { cells.new ≡ paste cells.old to (drop from cells.old) n }
{
    cells.copy_within(from..from + n, to);
}

/// Copies `n` elements of another slice from the place `from` to the place `to`. (Inner: both parts lie in their slices.)
pub fn copy_block<T: Copy>(cells: &mut [T], to: usize, source: &[T], from: usize, n: usize)
    requires source { from + n ≤ length source.now }
    requires target { to + n ≤ length cells.old }
    ensures { cells.new ≡ paste cells.old to (drop from source.now) n }
{
    cells[to..to + n].copy_from_slice(&source[from..from + n]);
}
