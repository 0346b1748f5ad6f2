// Reads a word L, L table bytes, a word for the number of banks, the start words and a byte a turn on standard input, and
// prints what each turn did.
#![tactic(auto)]

ghost use Rattle.std.specs.Prelude.{◌≡◌, ◌*◌, ◌/◌, length};
ghost use Rattle.rules.specs.Answers.{Accepted};
ghost use Rattle.rules.specs.Input.{most_input_bytes, question25, run_behind};
ghost use Rattle.rules.specs.Process.{process_words, most_processes};

use input::{
    INPUT_BYTES, INPUT_WORDS, RUN_BEHIND, asked, read_full, run_words, table_bytes, turns,
    word_behind,
};
use rules::layout::{MOST_PROCESSES, PROCESS_WORDS, STATE_WORDS};
use rules::{Arrival, Status, Stepped};
use std::io;

// Answers whether the run goes on.
fn report_step(rt: &impl Print, bank: u32, stepped: Stepped) -> io::Result<bool> {
    match stepped {
        Ok(answer) => {
            report::turn(rt, bank, answer)?;
            Ok(true)
        }
        Err(refusal) => {
            report::refusal(rt, refusal)?;
            Ok(false)
        }
    }
}

fn take_turns(
    rt: &impl Print,
    table: &[u8],
    state: &mut [u32],
    roll: [Arrival; MOST_PROCESSES],
    processes: usize,
    turns: &[u8],
) -> io::Result<()> {
    report::header(rt)?;
    let mut records = roll;
    for &turn in turns {
        let bank = u32::from(turn);
        let after = records::step_on(table, state, records, processes, bank);
        records = after.roll;
        if !report_step(rt, bank, after.answer)? {
            return Ok(());
        }
    }
    Ok(())
}

// An input that passed question 25. The start asks the other questions: `RunStarts` in rules/specs/Input.antt.
fn run_lent(rt: &impl Print, input: &[u8], words: &mut [u32], state: &mut [u32]) -> io::Result<()>
    requires { (question25 run_behind input.now ≡ Accepted) × (length words.old ≡ most_input_bytes / 4)
        × (length state.old ≡ process_words * most_processes) }
{
    let table = table_bytes(input);
    let processes = word_behind(input, 0);
    let taken = run_words(input, words);
    let count = (processes as usize).min(MOST_PROCESSES);
    let state_end = PROCESS_WORDS * count;
    let running = Arrival {
        status: Status::Running,
        node: 0,
        value: 0,
        source: 0,
    };
    let after = records::start_on(
        table,
        processes,
        &words[..taken],
        &mut state[..state_end],
        [running; MOST_PROCESSES],
        count,
    );
    let banks = turns(input);
    match after.answer {
        Ok(()) => take_turns(rt, table, &mut state[..state_end], after.roll, count, banks),
        Err(refusal) => report::refusal(rt, refusal),
    }
}

fn run_input(rt: &impl Print, input: &[u8]) -> io::Result<()>
    requires { question25 run_behind input.now ≡ Accepted }
{
    let mut words = [0u32; INPUT_WORDS];
    let mut state = [0u32; STATE_WORDS];
    run_lent(rt, input, &mut words, &mut state)
}

fn run(rt: &impl Print, input: &[u8]) -> io::Result<()> {
    match asked(input, RUN_BEHIND) {
        Ok(()) => run_input(rt, input),
        Err(refusal) => report::refusal(rt, refusal),
    }
}

fn main(rt: HostRuntime) -> io::Result<()> {
    let mut input = [0u8; INPUT_BYTES];
    let n = read_full(&mut rt.stdin(), &mut input)?;
    run(&rt, &input[..n])
}
