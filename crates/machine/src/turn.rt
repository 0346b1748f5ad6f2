// A step (the paper's turn) that is taken: what it does to state and roll, and what it answers.
ghost use Rattle.std.specs.Prelude.{true, ◌≡◌, ◌+◌, ◌*◌, ◌<◌, length};
ghost use Rattle.rules.specs.Arrivals.{running, status_at, with_arrival};
ghost use Rattle.rules.specs.Collective.{arrival_of};
ghost use Rattle.rules.specs.Process.{process_words, process_at, with_process, environment, top, advanced};
ghost use Rattle.rules.specs.Step.{moved, arrived_at, step_running, step_taken};
ghost use Rattle.rules.specs.Table.{decode, statement_at};
ghost use Rattle.process.specs.Given.{is_collective, Turn, Topped};
ghost use Rattle.collectives.specs.Given.{collective_of};
ghost use Rattle.preconditions.specs.Asked.{GivenTeam};
ghost use Rattle.machine.specs.Outcomes.{Ready, Gives};

use collectives::arrivals::{all_at_one_node, read, status_at, team_status, write};
use collectives::completion::{arrival_of, complete, release};
use process::stack::{process_at, top};
use process::step::{advance, is_collective};
use rules::kinds::{RUNNING, WAITING};
use rules::layout::{DEPTH_AT, PROCESS_WORDS};
use rules::{Answer, Event, Node, Stepped, TeamStatus};
use table::Table;

fn advance_in(table: &Table, state: &mut [u32], count: u32, p: usize, node: Node)
    requires { (length state.old ≡ process_words * count) × (p < count)
        × Turn table.now.bytes.now (process_at state.old p) p count node }
    ensures { state.new ≡ with_process state.old p
        (advanced (decode table.now.bytes.now) (environment (process_at state.old p) p count) (process_at state.old p)
        (statement_at (decode table.now.bytes.now) (top (process_at state.old p)))) }
{
    let at = PROCESS_WORDS * p;
    let end = at + PROCESS_WORDS;
    advance(table, &mut state[at..end], p as u32, count, node);
}

// "finished for a statement other than a meeting that empties the stack"
fn move_on(
    table: &Table,
    state: &mut [u32],
    roll: &mut [u32],
    count: u32,
    p: usize,
    node: Node,
) -> Stepped
    requires { GivenTeam table.now.bytes.now state.old roll.old count × (p < count) × (status_at roll.old p ≡ running)
        × Turn table.now.bytes.now (process_at state.old p) p count node }
    ensures { Gives
        (moved state.old roll.old count p
        (advanced (decode table.now.bytes.now) (environment (process_at state.old p) p count) (process_at state.old p)
        (statement_at (decode table.now.bytes.now) (top (process_at state.old p)))))
        result state.new roll.new }
{
    advance_in(table, state, count, p, node);
    let depth = PROCESS_WORDS * p + DEPTH_AT;
    if state[depth] != 0 {
        return Ok(Answer {
            event: Event::Moved,
            team: TeamStatus::Going,
        });
    }
    let ended = read(roll, p).end();
    write(roll, p, ended);
    let team = team_status(roll, count as usize);
    Ok(Answer {
        event: Event::Finished,
        team,
    })
}

fn arrive_in(table: &Table, state: &[u32], roll: &mut [u32], count: u32, p: usize, node: Node)
    requires { GivenTeam table.now.bytes.now state.now roll.old count × (p < count) × (status_at roll.old p ≡ running)
        × Topped table.now.bytes.now (process_at state.now p) count node × (is_collective node.kind ≡ true) }
    ensures { roll.new ≡ with_arrival roll.old p
        (arrival_of (decode table.now.bytes.now) (environment (process_at state.now p) p count)
        (top (process_at state.now p)) (collective_of node)) }
{
    let words = process_at(state, p);
    let arrival = arrival_of(table, words, p as u32, count, node, read(roll, p));
    write(roll, p, arrival);
}

// "all waiting at the same node, the meeting takes place"; "Met is for the arrival that brings the meeting about"
fn meet(
    table: &Table,
    state: &mut [u32],
    roll: &mut [u32],
    count: u32,
    p: usize,
    node: Node,
) -> Stepped
    requires { Ready table.now.bytes.now state.old roll.old count p × (status_at roll.old p ≡ running)
        × Topped table.now.bytes.now (process_at state.old p) count node × (is_collective node.kind ≡ true) }
    ensures { Gives
        (arrived_at state.old
        (with_arrival roll.old p
        (arrival_of (decode table.now.bytes.now) (environment (process_at state.old p) p count)
        (top (process_at state.old p)) (collective_of node)))
        count (top (process_at state.old p)) (collective_of node))
        result state.new roll.new }
{
    let n = top(process_at(state, p));
    arrive_in(table, state, roll, count, p, node);
    let processes = count as usize;
    if !all_at_one_node(roll, processes) {
        let team = team_status(roll, processes);
        return Ok(Answer {
            event: Event::Arrived(n),
            team,
        });
    }
    complete(state, roll, processes, node);
    release(state, roll, processes);
    let after = team_status(roll, processes);
    Ok(Answer {
        event: Event::Completed(n),
        team: after,
    })
}

// "A turn takes the top statement."
pub fn run(table: &Table, state: &mut [u32], roll: &mut [u32], count: u32, p: usize) -> Stepped
    requires { Ready table.now.bytes.now state.old roll.old count p × (status_at roll.old p ≡ running) }
    ensures { Gives (step_running (decode table.now.bytes.now) state.old roll.old count p)
        result state.new roll.new }
{
    let n = top(process_at(state, p));
    let node = table.node_at(n as usize);
    if !is_collective(node.kind) {
        return move_on(table, state, roll, count, p, node);
    }
    meet(table, state, roll, count, p, node)
}

// "idle while waiting, idle after its end": "An idle turn changes nothing."
pub(crate) fn take_turn(
    table: &Table,
    state: &mut [u32],
    roll: &mut [u32],
    count: u32,
    p: usize,
) -> Stepped
    requires { Ready table.now.bytes.now state.old roll.old count p }
    ensures { Gives (step_taken (decode table.now.bytes.now) state.old roll.old count p)
        result state.new roll.new }
{
    let status = status_at(roll, p);
    if status == RUNNING {
        return run(table, state, roll, count, p);
    }
    let team = team_status(roll, count as usize);
    if status == WAITING {
        return Ok(Answer {
            event: Event::Waiting,
            team,
        });
    }
    Ok(Answer {
        event: Event::Ended,
        team,
    })
}
