// Questions 18 to 24, which a start and a step put to state and roll once the table is well formed.
#![tactic(auto)]

ghost use Rattle.std.specs.Prelude.{true, ◌≡◌, ◌<◌};
ghost use Rattle.rules.specs.Answers.{Accepted, ◌then◌};
ghost use Rattle.rules.specs.Process.{environment, top, needs_place};
ghost use Rattle.rules.specs.Start.{question18, question19, question20, question21};
ghost use Rattle.rules.specs.Step.{processes_in, process_fits, place_lacked, question22, question23};
ghost use Rattle.rules.specs.Table.{decode, statement_at};
ghost use Rattle.rules.specs.WellFormed.{well_formed};
ghost use Rattle.process.specs.Given.{Topped};
ghost use Rattle.preconditions.specs.Asked.{GivenTeam};

use crate::fitting::{MOST_DEPTH, first_unfit};
use collectives::arrivals::{all_at_one_node, status_at};
use process::stack::{process_at, top};
use rules::kinds::{LOOP, RUNNING, SEQUENCE};
use rules::layout::{ARRIVAL_WORDS, DEPTH_AT, DOOR_PLACES, MOST_PROCESSES, PROCESS_WORDS};
use rules::{Node, Verdict};
use table::Table;
use table::shape::refused;
use table::words::header;
use values::evaluation::evaluate;

pub mod fitting; // fitting.rt: question 23 of one process after another

// Questions 18 to 21 of a start.
pub fn start_asked(
    table: &[u8],
    processes: u32,
    words: &[u32],
    state: &[u32],
    roll: &[u32],
) -> Verdict
    requires { well_formed table.now ≡ Accepted }
    ensures { result ≡ (question18 processes
        then question19 (decode table.now) processes words.now
        then question20 processes state.now
        then question21 processes roll.now) }
{
    let count = processes as usize;
    if count < 1 || count > MOST_PROCESSES {
        return refused(18, 0);
    }
    let size = header(table).variables + DOOR_PLACES;
    if words.len() != size * count {
        return refused(19, 0);
    }
    if state.len() != PROCESS_WORDS * count {
        return refused(20, 0);
    }
    if roll.len() != ARRIVAL_WORDS * count {
        return refused(21, 0);
    }
    Ok(())
}

// Questions 21 and 20 of a step.
pub fn sizes_asked(state: &[u32], roll: &[u32]) -> Verdict
    ensures { result ≡ (question21 (processes_in roll.now) roll.now
        then question20 (processes_in roll.now) state.now) }
{
    let count = roll.len() / ARRIVAL_WORDS;
    if roll.len() != ARRIVAL_WORDS * count || count < 1 || count > MOST_PROCESSES {
        return refused(21, 0);
    }
    if state.len() != PROCESS_WORDS * count {
        return refused(20, 0);
    }
    Ok(())
}

// 24's "if one is needed"
fn needs_place(table: &Table, words: &[u32], own: u32, count: u32, node: Node) -> bool
    requires { Topped table.now.bytes.now words.now count node }
    ensures { result ≡ needs_place (decode table.now.bytes.now) (environment words.now own count)
        (statement_at (decode table.now.bytes.now) (top words.now)) }
{
    match node.kind {
        SEQUENCE => true,
        LOOP => evaluate(table, words, own, count, node.a as usize) != 0,
        _ => false,
    }
}

// 24: "Has the bank a free stack place if one is needed?"
pub fn place_lacked(table: &Table, state: &[u32], roll: &[u32], count: u32, p: usize) -> bool
    requires { GivenTeam table.now.bytes.now state.now roll.now count × (p < count)
        × (process_fits (decode table.now.bytes.now) state.now roll.now p ≡ true) }
    ensures { result ≡ place_lacked (decode table.now.bytes.now) state.now roll.now count p }
{
    if status_at(roll, p) != RUNNING {
        return false;
    }
    let words = process_at(state, p);
    if words[DEPTH_AT] != MOST_DEPTH {
        return false;
    }
    let node = table.node_at(top(words) as usize);
    needs_place(table, words, p as u32, count, node)
}

// Questions 22 and 23 of a step.
pub fn team_asked(table: &Table, state: &[u32], roll: &[u32], count: u32, process: u32) -> Verdict
    requires { GivenTeam table.now.bytes.now state.now roll.now count }
    ensures { result ≡ (question22 count process
        then question23 (decode table.now.bytes.now) state.now roll.now count) }
{
    if process >= count {
        return refused(22, process);
    }
    let unfit = first_unfit(table, state, roll, count as usize);
    if unfit < count as usize {
        return refused(23, unfit as u32);
    }
    if all_at_one_node(roll, count as usize) {
        return refused(23, 0);
    }
    Ok(())
}
