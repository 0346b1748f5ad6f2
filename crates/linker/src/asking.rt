// What is asked of the two tables: 2 to 12 and 26 of the library, then of the program, and 27 to 29.
ghost use Rattle.std.specs.Prelude.{◌≡◌, ◌+◌, ◌<◌, ◌≤◌};
ghost use Rattle.rules.specs.Answers.{Accepted, ◌then◌};
ghost use Rattle.rules.specs.Choice.{first_failing};
ghost use Rattle.rules.specs.Table.{decode, procedures};
ghost use Rattle.rules.specs.WellFormed.{well_formed};
ghost use Rattle.linker.specs.Linking.{stub, procedure_links, flags_agree, question27, question28, question29, joinable};
ghost use Rattle.linker.specs.Given.{library_of, program_of, Joinable, nodes_of, bytes_of};

use crate::both::Both;
use crate::{Link, LinkRefusal};
use rules::Verdict;
use rules::kinds::NOTHING;
use sweep::{PLANE_WORDS, well_formed};
use table::shape::refused;

// The nodes that a table has at most.
const MOST_NODES: usize = 256;

fn is_stub(both: &Both, p: usize) -> bool
    requires { (p < both.now.library.header.procedures) × (p < both.now.program.header.procedures) }
    ensures { result ≡ stub (library_of both.now) (program_of both.now) p }
{
    if both.program.body(p) != p {
        return false;
    }
    if both.program.kind_at(p) != NOTHING {
        return false;
    }
    both.library.effect_flag(p) == both.program.effect_flag(p)
}

fn procedure_links(both: &Both, p: usize) -> bool
    ensures { result ≡ procedure_links (library_of both.now) (program_of both.now) p }
{
    p < both.program.header.procedures && (both.library.header.procedures <= p || is_stub(both, p))
}

fn first_unlinked(both: &Both) -> usize
    ensures { result ≡ first_failing (procedure_links (library_of both.now) (program_of both.now))
        (1 + procedures (library_of both.now)) }
{
    let count = 1 + both.library.header.procedures;
    for p in 0..count {
        if !procedure_links(both, p) {
            return p;
        }
    }
    count
}

fn first_disagreeing(both: &Both, count: usize) -> usize
    requires { count ≤ 32 }
    ensures { result ≡ first_failing (flags_agree (library_of both.now) (program_of both.now)) count }
{
    for v in 0..count {
        if both.library.flagged(v) != both.program.flagged(v) {
            return v;
        }
    }
    count
}

pub(crate) fn joined_nodes(both: &Both) -> usize
    requires { Joinable both.now }
    ensures { result ≡ nodes_of both.now }
{
    both.library.header.nodes + (both.program.header.nodes - both.library.header.procedures)
}

pub(crate) fn joined_bytes(both: &Both) -> usize
    requires { Joinable both.now }
    ensures { result ≡ bytes_of both.now }
{
    4 * (2 + both.program.header.procedures + joined_nodes(both))
}

// Questions 27 to 29. In 29 the stubs stand on the other side, so that nothing is taken away.
fn ask_both(both: &Both) -> Verdict
    ensures { result ≡ (question27 (library_of both.now) (program_of both.now)
        then question28 (library_of both.now) (program_of both.now)
        then question29 (library_of both.now) (program_of both.now)) }
{
    let library = both.library.header;
    let program = both.program.header;
    let procedure = first_unlinked(both);
    if procedure <= library.procedures {
        return refused(27, procedure as u32);
    }
    let shared = library.variables.min(program.variables);
    let variable = first_disagreeing(both, shared);
    if variable < shared {
        return refused(28, variable as u32);
    }
    if MOST_NODES + library.procedures < library.nodes + program.nodes {
        return refused(29, 0);
    }
    Ok(())
}

// Questions 2 to 12 and 26.
fn ask_alone(table: &[u8]) -> Verdict
    ensures { result ≡ well_formed table.now }
{
    let mut planes = [0u32; PLANE_WORDS];
    well_formed(table, &mut planes)
}

// All that is asked of the program, once the library is well formed.
fn ask_program(library: &[u8], program: &[u8]) -> Verdict
    requires { well_formed library.now ≡ Accepted }
    ensures { result ≡ (well_formed program.now
        then question27 (decode library.now) (decode program.now)
        then question28 (decode library.now) (decode program.now)
        then question29 (decode library.now) (decode program.now)) }
{
    ask_alone(program)?;
    ask_both(&Both::of(library, program))
}

pub(crate) fn ask(library: &[u8], program: &[u8]) -> Link
    ensures { result ≡ joinable library.now program.now }
{
    ask_alone(library).map_err(|refusal| LinkRefusal::OfLibrary(refusal))?;
    ask_program(library, program).map_err(|refusal| LinkRefusal::OfProgram(refusal))
}
