// The library for firmware and hosts in other languages, on numbers and word slices (include/finchchaise.h). Each export
// asks for nothing of its caller: what it answers, and what every lent word then holds, are equations with the rules.
#![tactic(auto)]

ghost use Rattle.std.specs.Prelude.{◌≡◌};
ghost use Rattle.linker.specs.Linking.{link_answer, link_output, joined_length};
ghost use Rattle.rules.specs.Acceptance.{checked, checked_scratch};
ghost use Rattle.rules.specs.Scheduling.{served};
ghost use Rattle.rules.specs.Start.{started, latches_of};
ghost use Rattle.rules.specs.Step.{stepped};
ghost use Rattle.ffi.specs.Numbers.{verdict_number, step_numbers, refusal_numbers, link_numbers, copied_count, copied};
ghost use Rattle.ffi.specs.Numbers.{StartNumbers, StepNumbers, ServeNumbers};

use checker::check;
use linker::{Link, LinkRefusal, joined_length, link_tables};
use machine::team;
use rules::{Stepped, Verdict};
use scheduler::{Service, serve};

// A step's answer in numbers. `number` 0: the step was taken.
#[repr(C)]
#[derive(Clone, Copy)]
pub struct FcStep {
    pub number: u32,
    pub place: u32,
    pub event: u32,
    pub node: u32,
    pub site: u32,
}

// The answer to a call that serves. `number` 0: no refusal was added.
#[repr(C)]
#[derive(Clone, Copy)]
pub struct FcServe {
    pub made: u32,
    pub last: u32,
    pub number: u32,
    pub place: u32,
}

// The answer to a joining. `number` 0: joined. `table` 0: of the library, 1: of the program.
#[repr(C)]
#[derive(Clone, Copy)]
pub struct FcLink {
    pub number: u32,
    pub place: u32,
    pub table: u32,
}

fn verdict_number(verdict: Verdict) -> u64
    ensures { result ≡ verdict_number verdict }
{
    match verdict {
        Ok(()) => 0,
        Err(refusal) => refusal.number as u64 * 4294967296 + refusal.place as u64,
    }
}

impl From<Stepped> for FcStep {
    ghost from_gives = { λ stepped numbers. numbers ≡ step_numbers stepped };

    fn from(stepped: Stepped) -> FcStep {
        match stepped {
            Ok(answer) => FcStep {
                number: 0,
                place: 0,
                event: u32::from(answer.event),
                node: answer.event.node(),
                site: u32::from(answer.team),
            },
            Err(refusal) => FcStep {
                number: refusal.number,
                place: refusal.place,
                event: 0,
                node: 0,
                site: 0,
            },
        }
    }
}

impl From<Service> for FcServe {
    ghost from_gives = { λ service numbers. numbers ≡ refusal_numbers service.made service.last service.answer };

    fn from(service: Service) -> FcServe {
        let made = service.made;
        let last = service.last;
        match service.answer {
            Ok(()) => FcServe {
                made,
                last,
                number: 0,
                place: 0,
            },
            Err(added) => FcServe {
                made,
                last,
                number: added.number,
                place: added.place,
            },
        }
    }
}

impl From<Link> for FcLink {
    ghost from_gives = { λ link numbers. numbers ≡ link_numbers link };

    fn from(link: Link) -> FcLink {
        match link {
            Ok(()) => FcLink {
                number: 0,
                place: 0,
                table: 0,
            },
            Err(LinkRefusal::OfLibrary(refusal)) => FcLink {
                number: refusal.number,
                place: refusal.place,
                table: 0,
            },
            Err(LinkRefusal::OfProgram(refusal)) => FcLink {
                number: refusal.number,
                place: refusal.place,
                table: 1,
            },
        }
    }
}

// The checker. 0 for accepted.
#[unsafe(no_mangle)]
pub extern "C" fn fc_check(table: &[u8], scratch: &mut [u32]) -> u64
    ensures { (result ≡ verdict_number (checked table.now scratch.old))
        × (scratch.new ≡ checked_scratch scratch.old) }
{
    verdict_number(check(table, scratch))
}

// A start. 0 for taken.
#[unsafe(no_mangle)]
pub extern "C" fn fc_start(
    table: &[u8],
    processes: u32,
    start: &[u32],
    state: &mut [u32],
    roll: &mut [u32],
) -> u64
    ensures { StartNumbers
        (started table.now processes start.now state.old roll.old)
        result state.new roll.new }
{
    verdict_number(team::start(table, processes, start, state, roll))
}

// A step of one process.
#[unsafe(no_mangle)]
pub extern "C" fn fc_step(table: &[u8], state: &mut [u32], roll: &mut [u32], process: u32) -> FcStep
    ensures { StepNumbers (stepped table.now state.old roll.old process)
        result state.new roll.new }
{
    FcStep::from(team::step(table, state, roll, process))
}

// So many turns, round robin, after the process served last.
#[unsafe(no_mangle)]
pub extern "C" fn fc_serve(
    table: &[u8],
    state: &mut [u32],
    roll: &mut [u32],
    last: u32,
    turns: u32,
) -> FcServe
    ensures { ServeNumbers (served table.now state.old roll.old last turns)
        result state.new roll.new }
{
    FcServe::from(serve(table, state, roll, last, turns))
}

// The latches of one process, as many as fit. How many were copied. One by one, since a host need not have memmove.
#[unsafe(no_mangle)]
pub extern "C" fn fc_latches(state: &[u32], process: u32, out: &mut [u32]) -> u32
    ensures { (result ≡ copied_count (latches_of state.now process) out.old)
        × (out.new ≡ copied (latches_of state.now process) out.old) }
{
    let latches = team::latches(state, process as usize);
    let n = latches.len().min(out.len());
    for (i, place) in out[..n].iter_mut().enumerate() {
        *place = latches[i];
    }
    n as u32
}

// A library joined to a program, in an output of exactly the joined length.
#[unsafe(no_mangle)]
pub extern "C" fn fc_link(library: &[u8], program: &[u8], out: &mut [u8]) -> FcLink
    ensures { (result ≡ link_numbers (link_answer library.now program.now out.old))
        × (out.new ≡ link_output library.now program.now out.old) }
{
    FcLink::from(link_tables(library, program, out))
}

// The joined length; 0 where the two cannot be joined.
#[unsafe(no_mangle)]
pub extern "C" fn fc_joined_length(library: &[u8], program: &[u8]) -> u32
    ensures { result ≡ joined_length library.now program.now }
{
    joined_length(library, program) as u32
}
