//! Reads a CPF file on standard input and writes its canonical form, or why it is refused.
#![tactic(auto)]

use model::Row;
use rewriting::{LONGEST_INPUT, LONGEST_OUTPUT, ROW_MEMORY, rewrite};
use std::io;
use std::io::Write;
use streams::{fill, first};

mod rewriting;

fn main(rt: HostRuntime) -> io::Result<()> {
    let heap = rt.alloc();
    let mut input = vec![in heap; 0u8; LONGEST_INPUT + 1]?;
    let mut rows = vec![in heap; Row::blank(); ROW_MEMORY]?;
    let mut out = vec![in heap; 0u8; LONGEST_OUTPUT]?;
    let n = fill(&mut rt.stdin(), &mut input)?;
    match rewrite(first(&input, n), &mut rows, &mut out) {
        Ok(len) => rt.stdout().write_all(first(&out, len)),
        Err(refusal) => println!(rt; "{refusal}"),
    }
}
