//! Edits of a sheet: what each answers, what the journal holds, and what undoing brings back.
#![tactic(auto)]

use refusal::Refusal;
use sheet::sheet::Sheet;

/// Ten rows a minute apart, from the first second of a day on.
pub const TEN: &[u8] =
    b"H1 CPF 2 XYZ 2021 06 01 0 152 1 demo1\nH2 2100101 1234 40001 2021 6 1 0 0 0 2021 6 1 0 9 0 60 1 1 0 0 0 1\nH9\n10 0 59366 0 0 1 2 3\n10 0 59366 60 0 1 2 3\n10 0 59366 120 0 1 2 3\n10 0 59366 180 0 1 2 3\n10 0 59366 240 0 1 2 3\n10 0 59366 300 0 1 2 3\n10 0 59366 360 0 1 2 3\n10 0 59366 420 0 1 2 3\n10 0 59366 480 0 1 2 3\n10 0 59366 540 0 1 2 3\n99\n";

/// Pastes the block so many times.
pub fn paste_often(sheet: &mut Sheet, block: &[u8], times: usize) -> Result<(), Refusal> {
    for _ in 0..times {
        sheet.paste(block)?;
    }
    Ok(())
}

#[cfg(test)]
mod tests {
    use super::*;
    use calendar::instant::Timestamp;
    use model::Row;
    use std::process::Abort;
    use tables::windows::window;

    fn at(second: u32) -> Timestamp {
        Timestamp {
            day: 59_366,
            micros: u64::from(second) * 1_000_000,
        }
    }

    fn is_kept(rt: &impl Abort, sheet: &Sheet, journal: usize, changes: u32, count: usize) {
        assert_eq!(rt; sheet.journal_len(), journal);
        assert_eq!(rt; sheet.change_count(), changes);
        assert_eq!(rt; sheet.cells().map_or(0, |cells| cells.count), count);
    }

    #[test]
    fn the_oldest_entry_is_forgotten(rt: HostRuntime) {
        let mut rows = [Row::blank(); 16];
        let mut taken = [Row::blank(); 32];
        let mut sheet = Sheet::new(&mut rows, &mut taken);
        assert_eq!(rt; sheet.open(TEN), Ok(()));
        let block = b"10 0 59366 60 0 4 5 6\n10 0 59366 90 0 4 5 6\n";
        assert_eq!(rt; paste_often(&mut sheet, block, 17), Ok(()));
        is_kept(&rt, &sheet, 16, 17, 11);
        assert_eq!(rt; sheet.entry(15).map(|entry| entry.taken), Ok(2));
        assert_eq!(rt;
            sheet.entry(16).map(|entry| entry.taken),
            Err(Refusal::NoSuchNumber)
        );
        for _ in 0..16 {
            assert_eq!(rt; sheet.undo(), Ok(()));
        }
        assert_eq!(rt; sheet.undo(), Err(Refusal::JournalEmpty));
        is_kept(&rt, &sheet, 0, 33, 11);
    }

    #[test]
    fn a_refused_block_changes_nothing(rt: HostRuntime) {
        let mut rows = [Row::blank(); 16];
        let mut taken = [Row::blank(); 16];
        let mut sheet = Sheet::new(&mut rows, &mut taken);
        let good = b"10 0 59366 600 0 1 2 3\n";
        assert_eq!(rt; sheet.paste(good), Err(Refusal::NoFileOpen));
        assert_eq!(rt; sheet.open(TEN), Ok(()));
        let bad =
            b"10 0 59366 0 0 4 5 6\n10 0 59366 60 0 4 5 6\n10 0 59366 120 0 4 5 6\n00\n10 0 59366 180 0 4 5 x\n";
        assert_eq!(rt;
            sheet.paste(bad),
            Err(Refusal::WrongForm { line: 5, word: 8 })
        );
        is_kept(&rt, &sheet, 0, 0, 10);
        assert_eq!(rt; sheet.row(0).map(|row| row.position.x), Ok(1_000));
        let moving = b"10 0 59366 600 0 1 2 3\n20 0 1 2 3\n";
        assert_eq!(rt; sheet.paste(moving), Err(Refusal::VelocitiesDiffer));
        let flagged = b"10 0 59366 60 1 1 2 3\n";
        assert_eq!(rt; sheet.paste(flagged), Err(Refusal::FlagChanges { line: 0 }));
        is_kept(&rt, &sheet, 0, 0, 10);
    }

    #[test]
    fn cuts(rt: HostRuntime) {
        let mut rows = [Row::blank(); 10];
        let mut taken = [Row::blank(); 3];
        let mut sheet = Sheet::new(&mut rows, &mut taken);
        assert_eq!(rt; sheet.cut(at(0), at(60)), Err(Refusal::NoFileOpen));
        assert_eq!(rt; sheet.open(TEN), Ok(()));
        let outside = Timestamp {
            day: 40_586,
            micros: 0,
        };
        assert_eq!(rt; sheet.cut(outside, at(0)), Err(Refusal::OutsideCalendar));
        assert_eq!(rt; sheet.cut(at(60), at(0)), Err(Refusal::NothingToCut));
        assert_eq!(rt; sheet.cut(at(61), at(119)), Err(Refusal::NothingToCut));
        assert_eq!(rt; sheet.cut(at(0), at(540)), Err(Refusal::CutTakesAll));
        assert_eq!(rt; sheet.cut(at(0), at(180)), Err(Refusal::TakenRowsExceed));
        is_kept(&rt, &sheet, 0, 0, 10);
        assert_eq!(rt; sheet.cut(at(60), at(180)), Ok(()));
        is_kept(&rt, &sheet, 1, 1, 7);
        assert_eq!(rt; sheet.cells().map(|cells| cells.interval), Ok(0));
        // the first entry makes room for the rows that this cut takes out
        assert_eq!(rt; sheet.cut(at(540), at(540)), Ok(()));
        is_kept(&rt, &sheet, 1, 2, 6);
        assert_eq!(rt; sheet.undo(), Ok(()));
        is_kept(&rt, &sheet, 0, 3, 7);
    }

    #[test]
    fn opening_and_closing(rt: HostRuntime) {
        let mut rows = [Row::blank(); 16];
        let mut taken = [Row::blank(); 16];
        let mut sheet = Sheet::new(&mut rows, &mut taken);
        assert_eq!(rt; sheet.open(TEN), Ok(()));
        assert_eq!(rt; window(&sheet, at(240)), Ok(0));
        assert_eq!(rt; sheet.paste(b"10 0 59366 600 0 1 2 3\n"), Ok(()));
        assert_eq!(rt; window(&sheet, at(300)), Ok(1));
        assert_eq!(rt; sheet.open(b""), Err(Refusal::OutOfPlace { line: 1 }));
        is_kept(&rt, &sheet, 1, 1, 11);
        assert_eq!(rt; sheet.open(TEN), Ok(()));
        is_kept(&rt, &sheet, 0, 0, 10);
        assert_eq!(rt; sheet.undo(), Err(Refusal::JournalEmpty));
        let closed = sheet.close();
        assert_eq!(rt; closed.cells().map(|cells| cells.interval), Ok(60));
        assert_eq!(rt; window(&closed, at(300)), Err(Refusal::WindowTooLate));
    }

    #[test]
    fn closing_without_a_file(rt: HostRuntime) {
        let closed = Sheet::new(&mut [], &mut []).close();
        assert_eq!(rt;
            closed.cells().map(|cells| cells.count),
            Err(Refusal::NoFileOpen)
        );
        assert_eq!(rt; closed.write(&mut []), Err(Refusal::NoFileOpen));
        assert_eq!(rt; window(&closed, at(0)), Err(Refusal::WindowTooEarly));
    }
}
