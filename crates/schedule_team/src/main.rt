// Reads a word L, L table bytes, words for the number of banks, the last bank and the number of turns, and the start words,
// exactly, on standard input. Serves the turns, and prints how many were made, which bank was last, and the site.
#![tactic(auto)]

ghost use Rattle.std.specs.Prelude.{◌≡◌, ◌*◌, ◌/◌, length};
ghost use Rattle.rules.specs.Answers.{Accepted};
ghost use Rattle.rules.specs.Arrivals.{arrival_size};
ghost use Rattle.rules.specs.Input.{most_input_bytes, question25, serve_behind};
ghost use Rattle.rules.specs.Process.{process_words, most_processes};

use collectives::arrivals::team_status;
use input::{
    INPUT_BYTES, INPUT_WORDS, SERVE_BEHIND, asked, read_full, serve_words, table_bytes, word_behind,
};
use rules::layout::{ARRIVAL_WORDS, MOST_PROCESSES, PROCESS_WORDS, STATE_WORDS};
use std::io;

// The roll of the largest team.
const ROLL_WORDS: usize = ARRIVAL_WORDS * MOST_PROCESSES;

// After a start a call is refused with 22 alone, and has made no turn then: `ServesTaken` in rules/specs/Scheduling.antt. So
// a refusal is printed alone.
fn serve_started(
    rt: &impl Print,
    input: &[u8],
    table: &[u8],
    state: &mut [u32],
    roll: &mut [u32],
    count: usize,
) -> io::Result<()>
    requires { length roll.old ≡ arrival_size * count }
{
    let last = word_behind(input, 1);
    let turns = word_behind(input, 2);
    let service = scheduler::serve(table, state, roll, last, turns);
    match service.answer {
        Ok(()) => report::served(rt, service.made, service.last, team_status(roll, count)),
        Err(refusal) => report::refusal(rt, refusal),
    }
}

// An input that passed question 25. The start asks the other questions: `ServeStarts` in rules/specs/Input.antt.
fn serve_lent(
    rt: &impl Print,
    input: &[u8],
    words: &mut [u32],
    state: &mut [u32],
    roll: &mut [u32],
) -> io::Result<()>
    requires { (question25 serve_behind input.now ≡ Accepted) × (length words.old ≡ most_input_bytes / 4)
        × (length state.old ≡ process_words * most_processes) × (length roll.old ≡ arrival_size * most_processes) }
{
    let table = table_bytes(input);
    let processes = word_behind(input, 0);
    let taken = serve_words(input, words);
    let count = (processes as usize).min(MOST_PROCESSES);
    let state_end = PROCESS_WORDS * count;
    let roll_end = ARRIVAL_WORDS * count;
    let answer = machine::team::start(
        table,
        processes,
        &words[..taken],
        &mut state[..state_end],
        &mut roll[..roll_end],
    );
    match answer {
        Ok(()) => serve_started(
            rt,
            input,
            table,
            &mut state[..state_end],
            &mut roll[..roll_end],
            count,
        ),
        Err(refusal) => report::refusal(rt, refusal),
    }
}

fn serve_input(rt: &impl Print, input: &[u8]) -> io::Result<()>
    requires { question25 serve_behind input.now ≡ Accepted }
{
    let mut words = [0u32; INPUT_WORDS];
    let mut state = [0u32; STATE_WORDS];
    let mut roll = [0u32; ROLL_WORDS];
    serve_lent(rt, input, &mut words, &mut state, &mut roll)
}

fn serve(rt: &impl Print, input: &[u8]) -> io::Result<()> {
    match asked(input, SERVE_BEHIND) {
        Ok(()) => serve_input(rt, input),
        Err(refusal) => report::refusal(rt, refusal),
    }
}

fn main(rt: HostRuntime) -> io::Result<()> {
    let mut input = [0u8; INPUT_BYTES];
    let n = read_full(&mut rt.stdin(), &mut input)?;
    serve(&rt, &input[..n])
}
