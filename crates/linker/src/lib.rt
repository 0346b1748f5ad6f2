// Joining a library to a table (request U8). The table that it is joined to is the program.
#![tactic(auto)]

ghost use Rattle.std.specs.Prelude.{◌≡◌, ◌≤◌};
ghost use Rattle.linker.specs.Linking.{joinable, link_answer, link_output, joined_length, Joined};
ghost use Rattle.rules.specs.WellFormed.{most_table_bytes};

use crate::asking::{ask, joined_bytes};
use crate::both::Both;
use crate::writing::write;
use rules::Refusal;

mod asking; // asking.rt: what is asked of the two tables
mod both; // both.rt: the two tables
mod writing; // writing.rt: the joined table's words

// The first question that fails, and whether it is put to the library or to the program.
#[derive(Clone, Copy, Debug, PartialEq, Eq)]
pub enum LinkRefusal {
    OfLibrary(Refusal),
    OfProgram(Refusal),
}

// The answer: the joined table is written, or it is refused.
pub type Link = Result<(), LinkRefusal>;

// Question 29 of the output, and the joined table.
fn link_joinable(library: &[u8], program: &[u8], out: &mut [u8]) -> Link
    requires { joinable library.now program.now ≡ Joined }
    ensures { (result ≡ link_answer library.now program.now out.old)
        × (out.new ≡ link_output library.now program.now out.old) }
{
    let both = Both::of(library, program);
    if out.len() != joined_bytes(&both) {
        return Err(LinkRefusal::OfProgram(Refusal {
            number: 29,
            place: 0,
        }));
    }
    write(&both, out);
    Ok(())
}

pub fn link_tables(library: &[u8], program: &[u8], out: &mut [u8]) -> Link
    ensures { (result ≡ link_answer library.now program.now out.old)
        × (out.new ≡ link_output library.now program.now out.old) }
{
    ask(library, program)?;
    link_joinable(library, program, out)
}

// The length that the output has to have, 0 where no output would do.
pub fn joined_length(library: &[u8], program: &[u8]) -> usize
    ensures { (result ≡ joined_length library.now program.now) × (result ≤ most_table_bytes) }
{
    match ask(library, program) {
        Ok(()) => joined_bytes(&Both::of(library, program)),
        Err(_) => 0,
    }
}
