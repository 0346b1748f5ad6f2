// Reads a word L, L bytes of a library, and a table, the program, on standard input. Writes the joined table, or the refusal and which
// of the two it is about.
#![tactic(auto)]

ghost use Rattle.std.specs.Prelude.{◌≡◌, length};
ghost use Rattle.rules.specs.WellFormed.{most_table_bytes};

use input::{INPUT_BYTES, LIBRARY_BEHIND, asked, behind, read_full, table_bytes};
use linker::{LinkRefusal, joined_length};
use rules::layout::MOST_TABLE_BYTES;
use std::io;

// The length told is the one that is taken, and 0 is taken by no pair: `LengthTold` in linker/specs/Joins.antt.
fn link_lent(rt: &impl Print, library: &[u8], program: &[u8], out: &mut [u8]) -> io::Result<()>
    requires { length out.old ≡ most_table_bytes }
{
    let size = joined_length(library, program);
    match linker::link_tables(library, program, &mut out[..size]) {
        Ok(()) => report::table(rt, &out[..size]),
        Err(LinkRefusal::OfLibrary(refusal)) => report::refusal_of(rt, refusal, "library"),
        Err(LinkRefusal::OfProgram(refusal)) => report::refusal_of(rt, refusal, "program"),
    }
}

fn link(rt: &impl Print, input: &[u8]) -> io::Result<()> {
    match asked(input, LIBRARY_BEHIND) {
        Ok(()) => {
            let mut out = [0u8; MOST_TABLE_BYTES];
            link_lent(
                rt,
                table_bytes(input),
                behind(input, LIBRARY_BEHIND),
                &mut out,
            )
        }
        Err(refusal) => report::refusal(rt, refusal),
    }
}

fn main(rt: HostRuntime) -> io::Result<()> {
    let mut input = [0u8; INPUT_BYTES];
    let n = read_full(&mut rt.stdin(), &mut input)?;
    link(&rt, &input[..n])
}
