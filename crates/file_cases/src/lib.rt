//! Files, and what an opening says of each.
#![tactic(auto)]

use model::Row;
use reading::stage::Part;
use reading::text::scan_text;
use refusal::Refusal;
use sheet::sheet::Sheet;

/// How a text is refused: the number, and the line and the word, or 0 where none applies.
#[derive(Clone, Copy, PartialEq, Debug)]
pub struct Told(pub u8, pub usize, pub usize);

impl From<Refusal> for Told {
    fn from(refusal: Refusal) -> Told {
        Told(refusal.number(), refusal.line(), refusal.word())
    }
}

/// What a sheet over this memory for rows says of a file.
pub fn outcome(file: &[u8], rows: &mut [Row]) -> Result<(), Told> {
    let mut sheet = Sheet::new(rows, &mut []);
    Ok(sheet.open(file)?)
}

/// What is said of a block of rows.
pub fn block_outcome(block: &[u8]) -> Result<(), Told> {
    scan_text(block, Part::Block, None)?;
    Ok(())
}

#[cfg(test)]
mod tests {
    use super::*;
    use std::alloc::{AllocError, Global};
    use std::process::Abort;
    use std::test::Fail;

    // H1, H2, and the lines after them.
    #[derive(Clone, Copy)]
    struct Case {
        h1: &'static str,
        h2: &'static str,
        rest: &'static str,
        outcome: Result<(), Told>,
    }

    const H1: &str = "H1 CPF 2 XYZ 2021 06 01 0 152 1 demo1\n";

    const H2: &str = "H2 2100101 1234 40001 2021 6 1 0 1 0 2021 6 1 0 1 0 0 1 1 0 0 0 1\n";

    const ROW: &str = "H9\n10 0 59366 60. 0 7000000 +0 -0.5\n99\n";

    const FINE: [Case; 10] = [
        Case {
            h1: H1,
            h2: H2,
            rest: ROW,
            outcome: Ok(()),
        },
        Case {
            h1: "H1 CPF +2 abc 2000 02 29 007 -00 99 x #1,'~\n",
            h2: H2,
            rest: ROW,
            outcome: Ok(()),
        },
        Case {
            h1: H1,
            h2: "00anything\nH2 2100101 1234 40001 2021 6 1 0 1 0 2021 6 1 0 1 0 0 1 1 0 0 0 1   \n",
            rest: ROW,
            outcome: Ok(()),
        },
        Case {
            h1: H1,
            h2: H2,
            rest: "H3 -9999 99999 0 0 0 0 0 0 0\nH5 99.9999\nH9\n10 0 59366 60 0 1 2 3\n99\n",
            outcome: Ok(()),
        },
        Case {
            h1: H1,
            h2: H2,
            rest: "H5 0\nH9\n10 0 59366 60.999999 -1 1 2 3\n99\n",
            outcome: Ok(()),
        },
        Case {
            h1: H1,
            h2: H2,
            rest: "H9\n10 0 59366 60 0 1 2 3\n00 between\n20 0 1 -2 3.000001\n99\n",
            outcome: Ok(()),
        },
        Case {
            h1: H1,
            h2: "H2 1 1 1 2021 6 1 0 1 0 2021 6 1 0 3 0 60 1 1 0 0 0 1\n",
            rest: "H9\n10 0 59366 60 0 1 2 3\n10 0 59366 120 1 1 2 3\n10 0 59366 180 1 1 2 3\n99\n",
            outcome: Ok(()),
        },
        Case {
            h1: H1,
            h2: "H2 1 1 1 2021 6 1 0 1 0 2021 6 1 0 2 0 0 1 1 0 0 0 1\n",
            rest: "H9\n10 0 59366 60 0 1 2 3\n10 0 59366 120.5 0 1 2 3\n99\n",
            outcome: Ok(()),
        },
        Case {
            h1: H1,
            h2: "H2 1 1 1 2099 12 31 23 59 58 2099 12 31 23 59 59 1 1 1 0 0 0 1\n",
            rest: "H9\n10 0 88068 86398 0 1 2 3\n20 0 0 0 0\n10 0 88068 86399 0 1 2 3\n20 0 0 0 0\n99\n",
            outcome: Ok(()),
        },
        Case {
            h1: H1,
            h2: H2,
            rest: "H9\n10 0 59366 60 0 -999999999999.999 999999999999.999 -0\n99\n",
            outcome: Ok(()),
        },
    ];

    const LINES: [Case; 24] = [
        Case {
            h1: "",
            h2: "",
            rest: "",
            outcome: Err(Told(14, 1, 0)),
        },
        Case {
            h1: "H1 CPF 2 XYZ 2021 06 01 0 152 1\tdemo1\n",
            h2: H2,
            rest: ROW,
            outcome: Err(Told(11, 1, 0)),
        },
        Case {
            h1: H1,
            h2: H2,
            rest: "H9\n10 0 59366 60. 0 7000000 +0 -0.5\n99",
            outcome: Err(Told(11, 5, 0)),
        },
        Case {
            h1: H1,
            h2: H2,
            rest: "H9                                                                                                                               \n",
            outcome: Err(Told(12, 3, 0)),
        },
        Case {
            h1: H1,
            h2: H2,
            rest: "H9                                                                                                                               \x07\n",
            outcome: Err(Told(11, 3, 0)),
        },
        Case {
            h1: H1,
            h2: "H4 1\n",
            rest: ROW,
            outcome: Err(Told(13, 2, 0)),
        },
        Case {
            h1: "H1CPF 2\n",
            h2: H2,
            rest: ROW,
            outcome: Err(Told(13, 1, 0)),
        },
        Case {
            h1: H1,
            h2: H2,
            rest: "H9\n\n",
            outcome: Err(Told(13, 4, 0)),
        },
        Case {
            h1: H1,
            h2: H2,
            rest: "H9\n1\n",
            outcome: Err(Told(13, 4, 0)),
        },
        Case {
            h1: "00 first\n",
            h2: H1,
            rest: H2,
            outcome: Err(Told(14, 1, 0)),
        },
        Case {
            h1: H1,
            h2: H2,
            rest: "H9\n10 0 59366 60 0 1 2 3\n99\n00 after\n",
            outcome: Err(Told(14, 6, 0)),
        },
        Case {
            h1: H1,
            h2: H2,
            rest: "H5 1\nH3 1 2 3 4 5 6 7 8 9\n",
            outcome: Err(Told(14, 4, 0)),
        },
        Case {
            h1: H1,
            h2: H2,
            rest: "H9\n99\n",
            outcome: Err(Told(14, 4, 0)),
        },
        Case {
            h1: H1,
            h2: H2,
            rest: "H9\n10 0 59366 60 0 1 2 3\n",
            outcome: Err(Told(14, 5, 0)),
        },
        Case {
            h1: H1,
            h2: H2,
            rest: "10 0 59366 60 0 1 2 3\n",
            outcome: Err(Told(14, 3, 0)),
        },
        Case {
            h1: H1,
            h2: H2,
            rest: "H9\n20 0 1 2 3\n",
            outcome: Err(Told(14, 4, 0)),
        },
        Case {
            h1: H1,
            h2: H2,
            rest: "H9\n10 0 59366 60 0 1 2 3\n20 0 1 2 3\n10 0 59366 61 0 1 2 3\n99\n",
            outcome: Err(Told(14, 7, 0)),
        },
        Case {
            h1: H1,
            h2: H2,
            rest: "H9\n10 0 59366 60 0 1 2 3\n10 0 59366 61 0 1 2 3\n20 0 1 2 3\n",
            outcome: Err(Told(14, 6, 0)),
        },
        Case {
            h1: H1,
            h2: H2,
            rest: "H9\n10 0 59366 60 0 1 2 3\n20 0 1 2 3\n20 0 1 2 3\n",
            outcome: Err(Told(14, 6, 0)),
        },
        Case {
            h1: H1,
            h2: H2,
            rest: "H9 x\n",
            outcome: Err(Told(15, 3, 0)),
        },
        Case {
            h1: H1,
            h2: H2,
            rest: "H9\n10 0 59366 60 0 1 2 3\n99 1\n",
            outcome: Err(Told(15, 5, 0)),
        },
        Case {
            h1: "H1 CPF 2 XYZ 2021 06 01 0 152 1\n",
            h2: H2,
            rest: ROW,
            outcome: Err(Told(15, 1, 0)),
        },
        Case {
            h1: "H1 CPF 2 XYZ 2021 06 01 0 152 1 demo1 a b\n",
            h2: H2,
            rest: ROW,
            outcome: Err(Told(15, 1, 0)),
        },
        Case {
            h1: H1,
            h2: H2,
            rest: "H9\n10 0 59366 60 0 1 2\n",
            outcome: Err(Told(15, 4, 0)),
        },
    ];

    const WORDS: [Case; 27] = [
        Case {
            h1: "H1 CPX 2 XYZ 2021 06 01 0 152 1 demo1\n",
            h2: H2,
            rest: ROW,
            outcome: Err(Told(16, 1, 2)),
        },
        Case {
            h1: "H1 CPF 1 XYZ 2021 06 01 0 152 1 demo1\n",
            h2: H2,
            rest: ROW,
            outcome: Err(Told(17, 1, 3)),
        },
        Case {
            h1: "H1 CPF 2 WXYZ 2021 06 01 0 152 1 demo1\n",
            h2: H2,
            rest: ROW,
            outcome: Err(Told(16, 1, 4)),
        },
        Case {
            h1: "H1 CPF 2 X-Z 2021 06 01 0 152 1 demo1\n",
            h2: H2,
            rest: ROW,
            outcome: Err(Told(16, 1, 4)),
        },
        Case {
            h1: "H1 CPF 2 XYZ 1969 06 01 0 152 1 demo1\n",
            h2: H2,
            rest: ROW,
            outcome: Err(Told(17, 1, 5)),
        },
        Case {
            h1: "H1 CPF 2 XYZ 2021 13 x 0 152 1 demo1\n",
            h2: H2,
            rest: ROW,
            outcome: Err(Told(17, 1, 6)),
        },
        Case {
            h1: "H1 CPF 2 XYZ 1999 02 29 0 152 1 demo1\n",
            h2: H2,
            rest: ROW,
            outcome: Err(Told(17, 1, 7)),
        },
        Case {
            h1: "H1 CPF 2 XYZ 2021 06 31 0 152 1 demo1\n",
            h2: H2,
            rest: ROW,
            outcome: Err(Told(17, 1, 7)),
        },
        Case {
            h1: "H1 CPF 2 XYZ 2021 06 01 24 152 1 demo1\n",
            h2: H2,
            rest: ROW,
            outcome: Err(Told(17, 1, 8)),
        },
        Case {
            h1: "H1 CPF 2 XYZ 2021 06 01 0 1000 1 demo1\n",
            h2: H2,
            rest: ROW,
            outcome: Err(Told(17, 1, 9)),
        },
        Case {
            h1: "H1 CPF 2 XYZ 2021 06 01 0 152 0 demo1\n",
            h2: H2,
            rest: ROW,
            outcome: Err(Told(17, 1, 10)),
        },
        Case {
            h1: "H1 CPF 2 XYZ 2021 06 01 0 152 1 demo_1\n",
            h2: H2,
            rest: ROW,
            outcome: Err(Told(16, 1, 11)),
        },
        Case {
            h1: "H1 CPF 2 XYZ 2021 06 01 0 152 1 demo1 elevenbytes\n",
            h2: H2,
            rest: ROW,
            outcome: Err(Told(16, 1, 12)),
        },
        Case {
            h1: H1,
            h2: "H2 1 1 1 2021 6 31 0 1 0 2021 6 1 0 1 0 0 1 1 0 0 0 100\n",
            rest: ROW,
            outcome: Err(Told(17, 2, 7)),
        },
        Case {
            h1: H1,
            h2: "H2 1 1 1 2021 6 1 0 1 0 2021 6 1 0 1 0 0 1 1 0 0 0 100\n",
            rest: ROW,
            outcome: Err(Told(17, 2, 23)),
        },
        Case {
            h1: H1,
            h2: "H2 60. 1 1 2021 6 1 0 1 0 2021 6 1 0 1 0 0 1 1 0 0 0 1\n",
            rest: ROW,
            outcome: Err(Told(16, 2, 2)),
        },
        Case {
            h1: H1,
            h2: H2,
            rest: "H3 1 2 3 4 5 6 7 8 -10000\n",
            outcome: Err(Told(17, 3, 10)),
        },
        Case {
            h1: H1,
            h2: H2,
            rest: "H5 100\n",
            outcome: Err(Told(17, 3, 2)),
        },
        Case {
            h1: H1,
            h2: H2,
            rest: "H5 1.00001\n",
            outcome: Err(Told(16, 3, 2)),
        },
        Case {
            h1: H1,
            h2: H2,
            rest: "H9\n10 1 59366 60 0 1 2 3\n",
            outcome: Err(Told(17, 4, 2)),
        },
        Case {
            h1: H1,
            h2: H2,
            rest: "H9\n10 0 40586 60 0 1 2 3\n",
            outcome: Err(Told(17, 4, 3)),
        },
        Case {
            h1: H1,
            h2: H2,
            rest: "H9\n10 0 59366 86400 0 1 2 3\n",
            outcome: Err(Told(17, 4, 4)),
        },
        Case {
            h1: H1,
            h2: H2,
            rest: "H9\n10 0 59366 60 2 1 2 3\n",
            outcome: Err(Told(17, 4, 5)),
        },
        Case {
            h1: H1,
            h2: H2,
            rest: "H9\n10 0 59366 60 0 0.0004 2 3\n",
            outcome: Err(Told(16, 4, 6)),
        },
        Case {
            h1: H1,
            h2: H2,
            rest: "H9\n10 0 59366 60 0 1 .5 1e3\n",
            outcome: Err(Told(16, 4, 7)),
        },
        Case {
            h1: H1,
            h2: H2,
            rest: "H9\n10 0 59366 60 0 1 2 1234567890123\n",
            outcome: Err(Told(16, 4, 8)),
        },
        Case {
            h1: H1,
            h2: H2,
            rest: "H9\n10 0 59366 60 0 1 2 3\n20 0 100000000000 0 0\n",
            outcome: Err(Told(17, 5, 3)),
        },
    ];

    const ROWS: [Case; 7] = [
        Case {
            h1: H1,
            h2: H2,
            rest: "H9\n10 0 59366 60 0 1 2 3\n10 0 59366 60 0 1 2 3\n",
            outcome: Err(Told(18, 5, 0)),
        },
        Case {
            h1: H1,
            h2: H2,
            rest: "H9\n10 0 59366 60 1 1 2 3\n10 0 59366 59 0 1 2 3\n",
            outcome: Err(Told(18, 5, 0)),
        },
        Case {
            h1: H1,
            h2: H2,
            rest: "H9\n10 0 59366 60 1 1 2 3\n10 0 59366 61 0 1 2 3\n",
            outcome: Err(Told(19, 5, 0)),
        },
        Case {
            h1: H1,
            h2: H2,
            rest: "H9\n10 0 59366 60 0 1 2 3\n10 0 59366 61 0 1 2 3\n10 0 59366 62 0 1 2 3\n10 0 59366 63 0 1 2 3\n10 0 59366 64 0 1 2 3\n",
            outcome: Err(Told(21, 8, 0)),
        },
        Case {
            h1: H1,
            h2: H2,
            rest: "H9\n10 0 59366 61 0 1 2 3\n99\n",
            outcome: Err(Told(20, 0, 0)),
        },
        Case {
            h1: H1,
            h2: "H2 1 1 1 2021 6 1 0 1 0 2021 6 1 0 1 0 60 1 1 0 0 0 1\n",
            rest: ROW,
            outcome: Err(Told(20, 0, 0)),
        },
        Case {
            h1: H1,
            h2: "H2 1 1 1 2021 6 1 0 1 0 2021 6 1 0 1 1 0 1 1 0 0 0 1\n",
            rest: ROW,
            outcome: Err(Told(20, 0, 0)),
        },
    ];

    fn text(heap: Global, case: &Case) -> Result<String, AllocError> {
        let mut file = String::from_str(heap, case.h1)?;
        file.push_str(case.h2)?;
        file.push_str(case.rest)?;
        Ok(file)
    }

    fn run(rt: &impl Abort, heap: Global, cases: &[Case]) -> Result<(), Fail> {
        for case in cases {
            let file = text(heap, case)?;
            assert_eq!(rt;
                outcome(file.as_bytes(), &mut [Row::blank(); 4]),
                case.outcome,
                "{}",
                case.rest
            );
        }
        Ok(())
    }

    #[test]
    fn accepted(rt: HostRuntime) -> Result<(), Fail> {
        run(&rt, rt.alloc(), &FINE)
    }

    #[test]
    fn refused(rt: HostRuntime) -> Result<(), Fail> {
        run(&rt, rt.alloc(), &LINES)?;
        run(&rt, rt.alloc(), &WORDS)?;
        run(&rt, rt.alloc(), &ROWS)
    }

    #[test]
    fn no_room(rt: HostRuntime) -> Result<(), Fail> {
        let case = Case {
            h1: H1,
            h2: H2,
            rest: ROW,
            outcome: Err(Told(21, 4, 0)),
        };
        let file = text(rt.alloc(), &case)?;
        assert_eq!(rt; outcome(file.as_bytes(), &mut []), case.outcome);
        Ok(())
    }

    #[test]
    fn too_long(rt: HostRuntime) -> Result<(), Fail> {
        let longest = vec![in rt.alloc(); b' '; 2_097_152]?;
        assert_eq!(rt;
            outcome(&longest, &mut [Row::blank(); 4]),
            Err(Told(11, 1, 0))
        );
        let longer = vec![in rt.alloc(); b' '; 2_097_153]?;
        assert_eq!(rt;
            outcome(&longer, &mut [Row::blank(); 4]),
            Err(Told(12, 0, 0))
        );
        Ok(())
    }

    #[test]
    fn blocks(rt: HostRuntime) {
        assert_eq!(rt;
            block_outcome(b"10 0 59366 60 0 1 2 3\n00\n10 0 59366 61 0 1 2 3\n"),
            Ok(())
        );
        assert_eq!(rt;
            block_outcome(b"00\n10 0 59366 60 0 1 2 3\n20 0 1 2 3\n"),
            Ok(())
        );
        assert_eq!(rt; block_outcome(b""), Err(Told(14, 1, 0)));
        assert_eq!(rt; block_outcome(b"00\n00\n"), Err(Told(14, 3, 0)));
        assert_eq!(rt; block_outcome(b"H9\n"), Err(Told(14, 1, 0)));
        assert_eq!(rt;
            block_outcome(b"10 0 59366 60 0 1 2 3\n99\n"),
            Err(Told(14, 2, 0))
        );
        assert_eq!(rt;
            block_outcome(b"10 0 59366 60 0 1 2 3\n20 0 1 2 3\n10 0 59366 61 0 1 2 3\n"),
            Err(Told(14, 4, 0))
        );
        assert_eq!(rt;
            block_outcome(b"10 0 59366 60 0 1 2 3\n10 0 59366 60 0 1 2 3\n"),
            Err(Told(18, 2, 0))
        );
        assert_eq!(rt;
            block_outcome(b"10 0 59366 60 1 1 2 3\n10 0 59366 61 -1 1 2 3\n"),
            Err(Told(19, 2, 0))
        );
        assert_eq!(rt;
            block_outcome(b"10 0 59366 60 0 1 2 3x\n"),
            Err(Told(16, 1, 8))
        );
    }

    const FULLEST: &str = "H2 1 1 1 2021 6 1 0 0 0 2021 6 1 2 16 31 1 1 1 0 0 0 1\n";

    // a file of so many rows, a second apart
    fn rows_of(heap: Global, count: usize) -> Result<String, AllocError> {
        let mut file = String::from_str(heap, H1)?;
        file.push_str(FULLEST)?;
        file.push_str("H9\n")?;
        for k in 0..count {
            file.push_str(format!(in heap; "10 0 59366 {k} 0 1 2 3\n")?.as_str())?;
        }
        file.push_str("99\n")?;
        Ok(file)
    }

    #[test]
    fn fullest_sheet(rt: HostRuntime) -> Result<(), Fail> {
        let mut rows = vec![in rt.alloc(); Row::blank(); 9_000]?;
        let mut sheet = Sheet::new(&mut rows, &mut []);
        let fullest = rows_of(rt.alloc(), 8_192)?;
        assert!(rt; sheet.open(fullest.as_bytes()).is_ok());
        let fuller = rows_of(rt.alloc(), 8_193)?;
        assert_eq!(rt;
            sheet.open(fuller.as_bytes()).map_err(Told::from),
            Err(Told(21, 8_196, 0))
        );
        let cells = sheet.cells().map(|cells| (cells.count, cells.interval));
        assert_eq!(rt; cells, Ok((8_192, 1)));
        Ok(())
    }
}
