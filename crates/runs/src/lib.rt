//! What holds after every run of openings, pastes, cuts and undos.
#![tactic(auto)]

ghost use Rattle.runs.specs.Outcomes.{RunsExist, RunsAreDetermined};
ghost use Rattle.runs.specs.Promises.{ReopeningAgrees, PlainSheetAgrees};
ghost use Rattle.shifts.specs.Stacks.{StackedShifts};

/// What a sheet, its canonical file and shifted tables promise together.
///
/// `reopening`: whatever calls a new sheet was given, when a file is open after them, a new sheet of the same sizes
/// opens the canonical file, and from then on openings, pastes and cuts have the same answers on both sheets and
/// leave the same header, rows, cells, written file and windows.
///
/// `plain`: whatever calls a new sheet was given, it gave the answers of the plain sheet, which keeps header and rows
/// as they were before each edit and moves no blocks; header, rows, cells, written file, windows, journal and change
/// count are the same; and an undo puts back header and rows as they were before the newest edit not yet taken back,
/// or is refused where there is none.
///
/// `shifts`: a stack of shifts of any height over any rows, hence over those of any such sheet, answers at an instant
/// as the rows themselves do at the instant less the sum of the shifts.
pub fn sheets_agree()
    ensures reopening { ReopeningAgrees }
    ensures plain { PlainSheetAgrees }
    ensures shifts { StackedShifts }
{}

/// Whatever a sheet has and whatever calls it is given, what the contracts of the calls state leaves them exactly one
/// outcome: there are answers and a sheet after them, and no others. So `sheets_agree` speaks of every list of calls.
pub fn calls_have_one_outcome()
    ensures some { RunsExist }
    ensures only { RunsAreDetermined }
{}
