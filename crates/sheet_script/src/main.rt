//! Replays a script of calls on a prediction sheet, one command a line, and prints the answers.
#![tactic(auto)]

use failure::Failure;
use model::Row;
use reading::text::LONGEST_TEXT;
use session::Session;
use sheet::sheet::{MOST_ROWS, Sheet};
use std::io;
use std::io::{BufRead, BufReader};

mod command;
mod failure;
mod session;

fn main(rt: HostRuntime) -> io::Result<()> {
    let heap = rt.alloc();
    let mut rows = vec![in heap; Row::blank(); MOST_ROWS]?;
    let mut taken = vec![in heap; Row::blank(); MOST_ROWS]?;
    let mut session = Session {
        rt: &rt,
        sheet: Sheet::new(&mut rows, &mut taken),
        file: vec![in heap; 0u8; LONGEST_TEXT + 1]?,
        out: vec![in heap; 0u8; LONGEST_TEXT]?,
    };
    for line in BufReader::new(heap, rt.stdin())?.lines(heap) {
        let line = line?;
        match session.run(line.as_str()) {
            Ok(()) => {}
            Err(Failure::Output(error)) => return Err(error),
            Err(failure) => println!(rt; "{failure}")?,
        }
    }
    Ok(())
}
