// Reads a table on standard input and prints the checker's answer.
#![tactic(auto)]

use checker::check;
use input::read_full;
use rules::layout::{MOST_TABLE_BYTES, SCRATCH_WORDS};
use std::io;

// A word more than the longest table, so that longer input is refused by its length.
const INPUT_BYTES: usize = MOST_TABLE_BYTES + 4;

fn main(rt: HostRuntime) -> io::Result<()> {
    let mut input = [0u8; INPUT_BYTES];
    let mut scratch = [0u32; SCRATCH_WORDS];
    let n = read_full(&mut rt.stdin(), &mut input)?;
    match check(&input[..n], &mut scratch) {
        Ok(()) => report::accepted(&rt),
        Err(refusal) => report::refusal(&rt, refusal),
    }
}
