//! What holds of all files and blocks.

ghost use Rattle.format.specs.Laws.{OpeningExact, ContentsUnique, BlocksExact, BlockRowsUnique};

/// A sheet opens just the files whose rows fit it, and then has the header and the rows of the file, which are the only ones that the file has.
pub fn reading_is_exact()
    ensures exact { OpeningExact }
    ensures unique { ContentsUnique }
{}

/// A text is accepted as a block just where it is one, and then has the rows of the block, which are the only ones that the block has.
pub fn reading_blocks_is_exact()
    ensures exact { BlocksExact }
    ensures unique { BlockRowsUnique }
{}
