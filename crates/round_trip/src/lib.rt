//! What is written is read back: each law as the contract of a function.
#![tactic(auto)]

ghost use Rattle.round_trip.specs.Blocks.{BlocksAreGood};
ghost use Rattle.round_trip.specs.Files.{FilesReadBack, CanonicalFilesAreFiles, FilesAreShort};
ghost use Rattle.round_trip.specs.Lines.{LinesSplit};
ghost use Rattle.round_trip.specs.Openings.{OpeningsAreGood, RewrittenFilesOpen, RewritingSettles};
ghost use Rattle.round_trip.specs.Records.{RecordsReadBack};

/// The line of a record with values that its fields can have is read as that record with these values.
pub fn records_read_back()
    ensures { RecordsReadBack }
{}

/// The text of lines has exactly these lines.
pub fn lines_split()
    ensures { LinesSplit }
{}

/// The canonical file of a header and rows that a file can have is a file of the format with this header and these rows, and it opens.
pub fn files_read_back()
    ensures file { CanonicalFilesAreFiles }
    ensures opens { FilesReadBack }
{}

/// Header and rows of a file that opens are such as a file can have; its canonical file opens again with the same
/// header and rows, and writing that file again gives the same bytes.
pub fn opened_files_read_back()
    ensures good { OpeningsAreGood }
    ensures opens { RewrittenFilesOpen }
    ensures settles { RewritingSettles }
{}

/// The canonical file of n rows has at most 225 + 147 × n bytes, so that callers can size the output.
pub fn files_are_short()
    ensures { FilesAreShort }
{}

/// The rows of a block that is read are such as a file can have: at least one, each good, in order.
pub fn blocks_are_good()
    ensures { BlocksAreGood }
{}
