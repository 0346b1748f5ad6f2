// The arrivals (the paper's roll) on plain words, four a record; the status of the team.
ghost use Rattle.std.specs.Prelude.{not, ◌≡◌, ◌+◌, ◌*◌, ◌<◌, ◌≤◌, eqb, length};
ghost use Rattle.rules.specs.Arrivals.{arrival_size, running, ended, status_at, arrival_node, arrival_value, arrival_source, with_arrival, team_status, all_at_one_node};
ghost use Rattle.rules.specs.Choice.{all_below};
ghost use Rattle.collectives.specs.Given.{status_of, arrival_at};

use rules::kinds::{ENDED, RUNNING, WAITING};
use rules::layout::ARRIVAL_WORDS;
use rules::{Arrival, Status, TeamStatus};

pub fn status_at(roll: &[u32], p: usize) -> u32
    requires { arrival_size * p + 3 < length roll.now }
    ensures { result ≡ status_at roll.now p }
{
    roll[ARRIVAL_WORDS * p]
}

pub fn node_of(roll: &[u32], p: usize) -> u32
    requires { arrival_size * p + 3 < length roll.now }
    ensures { result ≡ arrival_node roll.now p }
{
    roll[ARRIVAL_WORDS * p + 1]
}

pub fn value_of(roll: &[u32], p: usize) -> u32
    requires { arrival_size * p + 3 < length roll.now }
    ensures { result ≡ arrival_value roll.now p }
{
    roll[ARRIVAL_WORDS * p + 2]
}

pub fn source_of(roll: &[u32], p: usize) -> u32
    requires { arrival_size * p + 3 < length roll.now }
    ensures { result ≡ arrival_source roll.now p }
{
    roll[ARRIVAL_WORDS * p + 3]
}

fn status_of(word: u32) -> Status
    ensures { result ≡ status_of word }
{
    match word {
        RUNNING => Status::Running,
        WAITING => Status::Waiting,
        _ => Status::Ended,
    }
}

pub fn read(roll: &[u32], p: usize) -> Arrival
    requires { arrival_size * p + 3 < length roll.now }
    ensures { result ≡ arrival_at roll.now p }
{
    Arrival {
        status: status_of(status_at(roll, p)),
        node: node_of(roll, p),
        value: value_of(roll, p),
        source: source_of(roll, p),
    }
}

pub fn write(roll: &mut [u32], p: usize, arrival: Arrival)
    requires { arrival_size * p + 3 < length roll.old }
    ensures { roll.new ≡ with_arrival roll.old p arrival }
{
    let at = ARRIVAL_WORDS * p;
    roll[at] = u32::from(arrival.status);
    roll[at + 1] = arrival.node;
    roll[at + 2] = arrival.value;
    roll[at + 3] = arrival.source;
}

// From the last down: in a round it is the last that still run.
fn none_runs(roll: &[u32], count: usize) -> bool
    requires { length roll.now ≡ arrival_size * count }
    ensures { result ≡ all_below (λ p. not (eqb (status_at roll.now p) running)) count }
{
    for p in (0..count).rev() {
        if status_at(roll, p) == RUNNING {
            return false;
        }
    }
    true
}

fn all_ended(roll: &[u32], count: usize) -> bool
    requires { length roll.now ≡ arrival_size * count }
    ensures { result ≡ all_below (λ p. eqb (status_at roll.now p) ended) count }
{
    (0..count).all(|p| status_at(roll, p) == ENDED)
}

pub fn team_status(roll: &[u32], count: usize) -> TeamStatus
    requires { length roll.now ≡ arrival_size * count }
    ensures { result ≡ team_status roll.now count }
{
    if !none_runs(roll, count) {
        return TeamStatus::Going;
    }
    if all_ended(roll, count) {
        TeamStatus::Done
    } else {
        TeamStatus::Deadlocked
    }
}

// From the last down, as `none_runs`.
pub fn all_at_one_node(roll: &[u32], count: usize) -> bool
    requires { (length roll.now ≡ arrival_size * count) × (1 ≤ count) }
    ensures { result ≡ all_at_one_node roll.now count }
{
    let node = node_of(roll, 0);
    for p in (0..count).rev() {
        if status_at(roll, p) != WAITING || node_of(roll, p) != node {
            return false;
        }
    }
    true
}
