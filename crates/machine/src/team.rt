// A team (the paper's site) on plain words: state and roll, so many words a process. "A refusal leaves state,
// roll and any lent output unchanged."
ghost use Rattle.std.specs.Prelude.{◌≡◌, ◌*◌, ◌/◌};
ghost use Rattle.rules.specs.Answers.{Accepted};
ghost use Rattle.rules.specs.Start.{started, latches_of};
ghost use Rattle.rules.specs.Step.{team_verdict, stepped};
ghost use Rattle.rules.specs.WellFormed.{well_formed};
ghost use Rattle.machine.specs.Layout.{Starts};
ghost use Rattle.machine.specs.Outcomes.{Gives};

use crate::start::{start_roll, start_state};
use crate::turn::take_turn;
use preconditions::{place_lacked, sizes_asked, start_asked, team_asked};
use rules::layout::{ARRIVAL_WORDS, LATCH_PLACES, LATCHES_AT, PROCESS_WORDS};
use rules::{Refusal, Stepped, Verdict};
use sweep::{PLANE_WORDS, well_formed};
use table::Table;

fn start_formed(
    table: &[u8],
    processes: u32,
    words: &[u32],
    state: &mut [u32],
    roll: &mut [u32],
) -> Verdict
    requires { well_formed table.now ≡ Accepted }
    ensures { Starts
        (started table.now processes words.now state.old roll.old)
        result state.new roll.new }
{
    start_asked(table, processes, words, state, roll)?;
    start_state(table, processes, words, state);
    start_roll(roll, processes as usize);
    Ok(())
}

// Questions 2 to 12, 26 and 18 to 21, then the words and the records of every process.
pub fn start(
    table: &[u8],
    processes: u32,
    words: &[u32],
    state: &mut [u32],
    roll: &mut [u32],
) -> Verdict
    ensures { Starts
        (started table.now processes words.now state.old roll.old)
        result state.new roll.new }
{
    let mut planes = [0u32; PLANE_WORDS];
    well_formed(table, &mut planes)?;
    start_formed(table, processes, words, state, roll)
}

// Questions 21, 20, 22 and 23 of a table that is well formed.
fn formed_asked(table: &[u8], state: &[u32], roll: &[u32], process: u32) -> Verdict
    requires { well_formed table.now ≡ Accepted }
    ensures { result ≡ team_verdict table.now state.now roll.now process }
{
    sizes_asked(state, roll)?;
    let count = (roll.len() / ARRIVAL_WORDS) as u32;
    team_asked(&Table::of(table), state, roll, count, process)
}

// A step's questions up to 23.
pub fn asked(table: &[u8], state: &[u32], roll: &[u32], process: u32) -> Verdict
    ensures { result ≡ team_verdict table.now state.now roll.now process }
{
    let mut planes = [0u32; PLANE_WORDS];
    well_formed(table, &mut planes)?;
    formed_asked(table, state, roll, process)
}

fn step_asked(table: &[u8], state: &mut [u32], roll: &mut [u32], process: u32) -> Stepped
    requires { team_verdict table.now state.old roll.old process ≡ Accepted }
    ensures { Gives (stepped table.now state.old roll.old process)
        result state.new roll.new }
{
    let count = (roll.len() / ARRIVAL_WORDS) as u32;
    let table = &Table::of(table);
    if place_lacked(table, state, roll, count, process as usize) {
        return Err(Refusal {
            number: 24,
            place: process,
        });
    }
    take_turn(table, state, roll, count, process as usize)
}

// Questions 2 to 12, 26, 21, 20 and 22 to 24, then one step of a process.
pub fn step(table: &[u8], state: &mut [u32], roll: &mut [u32], process: u32) -> Stepped
    ensures { Gives (stepped table.now state.old roll.old process)
        result state.new roll.new }
{
    asked(table, state, roll, process)?;
    step_asked(table, state, roll, process)
}

// A process's latches as the part of the lent state that holds them; empty where the process is missing.
pub fn latches(state: &[u32], process: usize) -> &[u32]
    ensures { result.now ≡ latches_of state.now process }
{
    if state.len() % PROCESS_WORDS != 0 || process >= state.len() / PROCESS_WORDS {
        return &state[0..0];
    }
    let from = PROCESS_WORDS * process + LATCHES_AT;
    let to = from + LATCH_PLACES;
    &state[from..to]
}
