// Turns shared fairly, round robin: the machine chooses whose turn it is. A call asks the questions of a turn up to 23 once; between
// two turns of a call only what the first of them may have changed is asked again.
#![tactic(auto)]

ghost use Rattle.std.specs.Prelude.{◌≡◌, ◌+◌, ◌*◌, ◌%◌, ◌<◌, length};
ghost use Rattle.loops.specs.Upward.{has_leave};
ghost use Rattle.rules.specs.Answers.{Accepted};
ghost use Rattle.rules.specs.Arrivals.{arrival_size, running, status_at};
ghost use Rattle.rules.specs.Scheduling.{serving, served};
ghost use Rattle.rules.specs.Step.{team_verdict, step_taken};
ghost use Rattle.machine.specs.Outcomes.{Asked, Ready};
ghost use Rattle.scheduler.specs.Serving.{service, next_of, unfit_in, Turned, Makes, team_of, Serves};
ghost use Rattle.rules.specs.Table.{decode};

use collectives::arrivals::status_at;
use loops::has_leave;
use machine::team::asked;
use machine::turn::run;
use preconditions::fitting::{first_unfit, leave_fits, leave_on_top};
use preconditions::place_lacked;
use process::stack::process_at;
use rules::kinds::RUNNING;
use rules::layout::ARRIVAL_WORDS;
use rules::{Event, Verdict};
use table::Table;
use table::shape::refused;

// "how many turns were made and which bank was last", and the refusal, if one was added
#[derive(Clone, Copy)]
pub struct Service {
    pub made: u32,
    pub last: u32,
    pub answer: Verdict,
}

fn stopped(made: u32, last: u32, answer: Verdict) -> Service
    ensures { result ≡ service made last answer }
{
    Service { made, last, answer }
}

// The process after p, cyclically.
fn after(p: u32, count: u32) -> u32
    requires { p < count }
    ensures { result ≡ (p + 1) % count }
{
    let next = p + 1;
    if next == count { 0 } else { next }
}

// "the first running bank after that one, cyclically"
fn next_process(roll: &[u32], count: u32, last: u32) -> Option<u32>
    requires { (length roll.now ≡ arrival_size * count) × (last < count) }
    ensures { result ≡ next_of roll.now last }
{
    let mut p = last;
    for _passed in 0..count {
        p = after(p, count);
        if status_at(roll, p as usize) == RUNNING {
            return Some(p);
        }
    }
    None
}

// Question 23 after a turn of process p, put to what the turn may have changed.
fn first_left(
    table: &Table,
    state: &[u32],
    roll: &[u32],
    count: usize,
    p: usize,
    event: Event,
) -> usize
    requires { Turned table.now.bytes.now state.now roll.now count p event }
    ensures { result ≡ unfit_in (decode table.now.bytes.now) state.now roll.now count }
{
    match event {
        Event::Moved => {
            let words = process_at(state, p);
            if leave_on_top(table, words) && !leave_fits(table, words) {
                p
            } else {
                count
            }
        }
        Event::Completed(_) => first_unfit(table, state, roll, count),
        Event::Finished | Event::Arrived(_) | Event::Waiting | Event::Ended => count,
    }
}

// One turn, and the first process that question 23 fails of after it.
fn make_turn(
    table: &Table,
    state: &mut [u32],
    roll: &mut [u32],
    count: u32,
    p: usize,
    leaving: bool,
) -> usize
    requires { Ready table.now.bytes.now state.old roll.old count p × (status_at roll.old p ≡ running)
        × (leaving ≡ has_leave (decode table.now.bytes.now)) }
    ensures { Makes (decode table.now.bytes.now) (step_taken (decode table.now.bytes.now) state.old roll.old count p)
        count result state.new roll.new }
{
    let stepped = run(table, state, roll, count, p);
    if !leaving {
        return count as usize;
    }
    match stepped {
        Ok(answer) => first_left(table, state, roll, count as usize, p, answer.event),
        Err(_) => count as usize,
    }
}

// "until the turns are used or no bank runs"; "If a turn, the first included, would then be refused, serving stops before it"
fn serve_asked(
    table: &Table,
    state: &mut [u32],
    roll: &mut [u32],
    count: u32,
    given: u32,
    turns: u32,
) -> Service
    requires { Asked table.now.bytes.now state.old roll.old count given }
    ensures { Serves (serving table.now.bytes.now turns 0 given (team_of state.old roll.old))
        result state.new roll.new }
{
    // Where the table has no leave, a turn leaves nothing to ask of question 23.
    let leaving = has_leave(table);
    let mut last = given;
    let mut unfit = count as usize;
    for made in 0..turns {
        let Some(next) = next_process(roll, count, last) else {
            return stopped(made, last, Ok(()));
        };
        if unfit < count as usize {
            return stopped(made, last, refused(23, unfit as u32));
        }
        if place_lacked(table, state, roll, count, next as usize) {
            return stopped(made, last, refused(24, next));
        }
        unfit = make_turn(table, state, roll, count, next as usize, leaving);
        last = next;
    }
    stopped(turns, last, Ok(()))
}

fn serve_team(table: &[u8], state: &mut [u32], roll: &mut [u32], last: u32, turns: u32) -> Service
    requires { team_verdict table.now state.old roll.old last ≡ Accepted }
    ensures { Serves (served table.now state.old roll.old last turns)
        result state.new roll.new }
{
    let count = (roll.len() / ARRIVAL_WORDS) as u32;
    serve_asked(&Table::of(table), state, roll, count, last, turns)
}

// "A turn's questions up to 23 are asked first, also when no turn is made."
pub fn serve(table: &[u8], state: &mut [u32], roll: &mut [u32], last: u32, turns: u32) -> Service
    ensures { Serves (served table.now state.old roll.old last turns)
        result state.new roll.new }
{
    match asked(table, state, roll, last) {
        Ok(()) => serve_team(table, state, roll, last, turns),
        Err(refusal) => stopped(0, last, Err(refusal)),
    }
}
