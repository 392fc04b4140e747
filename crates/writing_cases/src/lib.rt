//! Files, and what is written of each.
#![tactic(auto)]

use format::open::open_file;
use model::Row;
use refusal::Refusal;
use sheet::sheet::Sheet;

/// Opens a file in a sheet with memory for four rows, and writes it.
pub fn rewritten(file: &[u8], out: &mut [u8]) -> Result<usize, Refusal> {
    let mut rows = [Row::blank(); 4];
    let mut sheet = Sheet::new(&mut rows, &mut []);
    open_file(&mut sheet, file)?;
    sheet.write(out)
}

/// Writes a sheet in which nothing is open.
pub fn unopened(out: &mut [u8]) -> Result<usize, Refusal> {
    let sheet = Sheet::new(&mut [], &mut []);
    sheet.write(out)
}

#[cfg(test)]
mod tests {
    use super::*;
    use std::process::Abort;

    #[derive(Clone, Copy)]
    struct Case {
        file: &'static str,
        canonical: &'static str,
    }

    // every field at its least or greatest value, with each sign, with and without H3, H5, notes and velocities
    const CASES: [Case; 5] = [
        Case {
            file: "H1 CPF +2 aZ9 1970 1 1 0 0 1 x\nH2 0 0 0 1970 1 1 0 0 0 1970 1 1 0 0 0 0 0 0 0 0 0 0\nH9\n10 0 40587 0 -1 -999999999999.999 -0.001 -0\n99\n",
            canonical: "H1 CPF 2 aZ9 1970 01 01 00 0 1 x\nH2 0 0 0 1970 01 01 00 00 00 1970 01 01 00 00 00 0 0 0 0 0 0 0\nH9\n10 0 40587      0.000000 -1 -999999999999.999            -0.001             0.000\n99\n",
        },
        Case {
            file: "H1 CPF 2 XYZ 2099 12 31 23 999 99 ABCDEFGHIJ !#$%&'()*~\nH2 99999999 9999 99999999 2099 12 31 23 59 59 2099 12 31 23 59 59 0 9 9 99 9 9 99\nH3 -9999 99999 -1 +1 -0 007 0 10 -10\nH5 99.9999\nH9\n10 0 88068 86399.999999 1 999999999999.999 0.001 +0\n20 0 -99999999999.999999 99999999999.999999 -0.000000\n99\n",
            canonical: "H1 CPF 2 XYZ 2099 12 31 23 999 99 ABCDEFGHIJ !#$%&'()*~\nH2 99999999 9999 99999999 2099 12 31 23 59 59 2099 12 31 23 59 59 0 9 9 99 9 9 99\nH3 -9999 99999 -1 1 0 7 0 10 -10\nH5 99.9999\nH9\n10 0 88068  86399.999999  1  999999999999.999             0.001             0.000\n20 0 -99999999999.999999  99999999999.999999            0.000000\n99\n",
        },
        Case {
            file: "H1 CPF 2 XYZ 2000 2 29 7 1 1 demo1\nH2 1 2 3 2000 2 29 0 0 0 2000 2 29 0 1 0 60 1 1 0 0 0 1\nH5 0\nH9\n10 0 51603 0.0 0 -0.000 1.5 -12.\n10 0 51603 60 0 1 2 3\n99\n",
            canonical: "H1 CPF 2 XYZ 2000 02 29 07 1 1 demo1\nH2 1 2 3 2000 02 29 00 00 00 2000 02 29 00 01 00 60 1 1 0 0 0 1\nH5 0.0000\nH9\n10 0 51603      0.000000  0             0.000             1.500           -12.000\n10 0 51603     60.000000  0             1.000             2.000             3.000\n99\n",
        },
        Case {
            file: "H1 CPF 2 XYZ 2000 2 29 7 1 1 demo1 n\n00 gone\nH2 1 2 3 2000 2 29 0 0 0 2000 2 29 0 0 1 0 1 1 0 0 0 1\nH3 1 2 3 4 5 6 7 8 9\nH9\n10 0 51603 0.5 0 1 2 3\n00 gone too\n20 0 1 2 3\n10 0 51603 1.25 0 1 2 3\n20 0 -1 -2 -3\n99\n",
            canonical: "H1 CPF 2 XYZ 2000 02 29 07 1 1 demo1 n\nH2 1 2 3 2000 02 29 00 00 00 2000 02 29 00 00 01 0 1 1 0 0 0 1\nH3 1 2 3 4 5 6 7 8 9\nH9\n10 0 51603      0.500000  0             1.000             2.000             3.000\n20 0            1.000000            2.000000            3.000000\n10 0 51603      1.250000  0             1.000             2.000             3.000\n20 0           -1.000000           -2.000000           -3.000000\n99\n",
        },
        Case {
            // the header of a published lunar sample, with a row of direction 0 and H2 completed
            file: "H1 CPF 2 UTX 2005 11 16 14 320 1 apollo15 jpl_de-403\nH2 103 103 0 2005 11 17 0 0 0 2005 11 17 0 15 0 900 0 1 0 0 0 3\nH9\n10 0 53691     0.0 0      343226579.261       46543054.740      166061912.378\n10 0 53691   900.0 0      345427390.701       24820813.890      166269371.365\n99\n",
            canonical: "H1 CPF 2 UTX 2005 11 16 14 320 1 apollo15 jpl_de-403\nH2 103 103 0 2005 11 17 00 00 00 2005 11 17 00 15 00 900 0 1 0 0 0 3\nH9\n10 0 53691      0.000000  0     343226579.261      46543054.740     166061912.378\n10 0 53691    900.000000  0     345427390.701      24820813.890     166269371.365\n99\n",
        },
    ];

    fn numbered(answer: Result<usize, Refusal>) -> Result<usize, u8> {
        answer.map_err(|refusal| refusal.number())
    }

    // one byte too short leaves the output as it was
    fn short(rt: &impl Abort, case: Case) {
        let n = case.canonical.len();
        let mut out = [7u8; 1024];
        assert!(rt; n > 0 && n < 1000);
        assert_eq!(rt;
            numbered(rewritten(case.file.as_bytes(), &mut out[..n - 1])),
            Err(33)
        );
        assert!(rt; out == [7u8; 1024]);
    }

    // just right, and the bytes behind stay
    fn exact(rt: &impl Abort, case: Case) {
        let n = case.canonical.len();
        let mut out = [7u8; 1024];
        assert!(rt; n < 1000);
        assert_eq!(rt;
            numbered(rewritten(case.file.as_bytes(), &mut out[..n])),
            Ok(n)
        );
        assert!(rt;
            out.starts_with(case.canonical.as_bytes()),
            "{}",
            case.canonical
        );
        assert!(rt; out.get(n) == Some(&7));
    }

    // more than enough
    fn wide(rt: &impl Abort, case: Case) {
        let n = case.canonical.len();
        let mut out = [8u8; 1024];
        assert_eq!(rt; numbered(rewritten(case.file.as_bytes(), &mut out)), Ok(n));
        assert!(rt; out.starts_with(case.canonical.as_bytes()));
        assert!(rt; out.get(n) == Some(&8));
    }

    // what was written is read back and written in the same way
    fn again(rt: &impl Abort, case: Case) {
        let mut out = [9u8; 1024];
        assert_eq!(rt;
            numbered(rewritten(case.canonical.as_bytes(), &mut out)),
            Ok(case.canonical.len())
        );
        assert!(rt; out.starts_with(case.canonical.as_bytes()));
    }

    #[test]
    fn canonical(rt: HostRuntime) {
        for case in CASES {
            short(&rt, case);
            exact(&rt, case);
            wide(&rt, case);
            again(&rt, case);
        }
    }

    #[test]
    fn nothing_open(rt: HostRuntime) {
        let mut out = [7u8; 4];
        assert_eq!(rt; numbered(unopened(&mut out)), Err(24));
        assert!(rt; out == [7u8; 4]);
    }
}
