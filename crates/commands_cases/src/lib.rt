//! Lines of scripts, and what each asks for.
#![tactic(auto)]

use command_error::CommandError;
use commands::command::Command;
use std::alloc::{AllocError, Global};

/// What is wrong with a line, if anything is.
pub fn outcome(line: &[u8]) -> Result<(), CommandError> {
    Command::try_from(line).map(|_command| ())
}

/// The path of the line's command, if it has one.
pub fn path_of<'l>(line: &'l [u8]) -> Option<&'l [u8]> {
    match Command::try_from(line) {
        Ok(
            Command::Open { path }
            | Command::Paste { path }
            | Command::Lines { path, .. }
            | Command::Write { path },
        ) => Some(path),
        _ => None,
    }
}

/// What is wrong with a line, as a sentence; no text where nothing is.
pub fn sentence(heap: Global, line: &[u8]) -> Result<String, AllocError> {
    match Command::try_from(line) {
        Ok(_) => format!(in heap; ""),
        Err(error) => format!(in heap; "{error}"),
    }
}

#[cfg(test)]
mod tests {
    use super::*;
    use calendar::instant::Timestamp;
    use commands::command::Shifts;
    use std::process::Abort;
    use std::test::Fail;

    #[derive(Clone, Copy)]
    struct Case {
        line: &'static str,
        outcome: Result<(), CommandError>,
    }

    const CASES: [Case; 21] = [
        Case {
            line: "undo",
            outcome: Ok(()),
        },
        Case {
            line: "row 007",
            outcome: Ok(()),
        },
        Case {
            line: "window 1 2",
            outcome: Ok(()),
        },
        Case {
            line: "window 1 2 +3 -0",
            outcome: Ok(()),
        },
        Case {
            line: "",
            outcome: Ok(()),
        },
        Case {
            line: "   ",
            outcome: Ok(()),
        },
        Case {
            line: "# open a",
            outcome: Ok(()),
        },
        Case {
            line: "#",
            outcome: Ok(()),
        },
        Case {
            line: " # open a",
            outcome: Err(CommandError::UnknownCommand),
        },
        Case {
            line: "Open a",
            outcome: Err(CommandError::UnknownCommand),
        },
        Case {
            line: "undo\r",
            outcome: Err(CommandError::UnknownCommand),
        },
        Case {
            line: "open",
            outcome: Err(CommandError::WordCount { fewest: 1, most: 1 }),
        },
        Case {
            line: "window 1 2 3 4 5 6",
            outcome: Err(CommandError::WordCount { fewest: 2, most: 5 }),
        },
        Case {
            line: "sheet 8193 x",
            outcome: Err(CommandError::TooManyRows { word: 2 }),
        },
        Case {
            line: "sheet 1 18446744073709551616",
            outcome: Err(CommandError::NotANumber { word: 3 }),
        },
        Case {
            line: "cut 4294967296 0 0 0",
            outcome: Err(CommandError::NotANumber { word: 2 }),
        },
        Case {
            line: "entry +1",
            outcome: Err(CommandError::NotANumber { word: 2 }),
        },
        Case {
            line: "row 1.0",
            outcome: Err(CommandError::NotANumber { word: 2 }),
        },
        Case {
            line: "window 1 2 5 9223372036854775808",
            outcome: Err(CommandError::NotANumber { word: 5 }),
        },
        Case {
            line: "window 1 2 -9223372036854775809",
            outcome: Err(CommandError::NotANumber { word: 4 }),
        },
        Case {
            line: "window 1 2 --1",
            outcome: Err(CommandError::NotANumber { word: 4 }),
        },
    ];

    #[test]
    fn outcomes(rt: HostRuntime) {
        for case in CASES {
            assert!(rt; outcome(case.line.as_bytes()) == case.outcome);
        }
    }

    #[test]
    fn paths(rt: HostRuntime) {
        assert!(rt; path_of(b"  open  a.cpf ") == Some(b"a.cpf".as_slice()));
        assert!(rt; path_of(b"paste \xff\r") == Some(b"\xff\r".as_slice()));
        assert!(rt; path_of(b"lines b 1 2") == Some(b"b".as_slice()));
    }

    #[test]
    fn numbers(rt: HostRuntime) {
        assert!(rt;
            matches!(
                Command::try_from(b"sheet 8192 0".as_slice()),
                Ok(Command::Sheet {
                    rows: 8192,
                    taken: 0
                })
            )
        );
        assert!(rt;
            matches!(
                Command::try_from(b"cut 59366 1 4294967295 18446744073709551615".as_slice()),
                Ok(Command::Cut {
                    from: Timestamp {
                        day: 59366,
                        micros: 1
                    },
                    to: Timestamp {
                        day: 4294967295,
                        micros: 18446744073709551615
                    },
                })
            )
        );
        assert!(rt;
            matches!(
                Command::try_from(
                    b"window 1 2 -9223372036854775808 9223372036854775807 +5".as_slice()
                ),
                Ok(Command::Window {
                    shifts: Shifts::Three(i64::MIN, i64::MAX, 5),
                    ..
                })
            )
        );
    }

    fn prints(rt: &impl Abort, heap: Global, line: &[u8], text: &str) -> Result<(), Fail> {
        let sentence = sentence(heap, line)?;
        assert!(rt; sentence.as_str() == text);
        Ok(())
    }

    #[test]
    fn sentences(rt: HostRuntime) -> Result<(), Fail> {
        let heap = rt.alloc();
        prints(&rt, heap, b"move a", "there is no such command")?;
        prints(
            &rt,
            heap,
            b"undo 1",
            "no words follow the name of this command",
        )?;
        prints(
            &rt,
            heap,
            b"row",
            "one word follows the name of this command",
        )?;
        prints(
            &rt,
            heap,
            b"window 1",
            "2 to 5 words follow the name of this command",
        )?;
        prints(&rt, heap, b"sheet 1 8193", "word 3 is more than 8192 rows")?;
        prints(
            &rt,
            heap,
            b"row x",
            "word 2 is not a number of the kind that the command takes there",
        )
    }
}
