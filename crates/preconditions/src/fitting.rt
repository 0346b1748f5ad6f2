// Question 23: does each process's part of state and roll fit?
ghost use Rattle.std.specs.Prelude.{true, false, not, ◌≡◌, ◌+◌, ◌-◌, ◌*◌, ◌<◌, ◌≤◌, eqb, length, get_or};
ghost use Rattle.rules.specs.Arrivals.{arrival_size};
ghost use Rattle.rules.specs.Choice.{first_failing, all_below};
ghost use Rattle.rules.specs.Process.{stack_at, stack_places, process_words, depth, top};
ghost use Rattle.rules.specs.Step.{stack_fits, fields_zero, lacked_zero, wait_fits, leave_fits, record_fits, process_fits};
ghost use Rattle.rules.specs.Table.{decode, statement_of, statement_at, on_collective, is_leave};
ghost use Rattle.rules.specs.WellFormed.{is_statement, well_formed};
ghost use Rattle.table.specs.Header.{Passing};
ghost use Rattle.process.specs.Given.{Stacked};
ghost use Rattle.preconditions.specs.Asked.{words_fit};

use collectives::arrivals::{node_of, source_of, status_at, value_of};
use loops::nearest_loop;
use process::stack::{process_at, top};
use rules::Node;
use rules::kinds::{BARRIER, BROADCAST, ENDED, EXCHANGE, LEAVE, RUNNING, WAITING};
use rules::layout::{DEPTH_AT, STACK_AT, STACK_PLACES};
use table::Table;

// The depth of a full stack, as a word holds it.
pub(crate) const MOST_DEPTH: u32 = STACK_PLACES as u32;

// "each stack entry below depth a statement". Two entries a turn: with one, the turn itself is a third of the time.
fn stack_fits(table: &Table, words: &[u32]) -> bool
    requires { Passing well_formed table.now.bytes.now × (length words.now ≡ process_words)
        × (depth words.now ≤ stack_places) }
    ensures { result ≡ stack_fits (decode table.now.bytes.now) words.now }
{
    let depth = words[DEPTH_AT] as usize;
    let pairs = depth / 2;
    for i in 0..pairs {
        let at = STACK_AT + 2 * i;
        if !table.names_statement(words[at] as usize) {
            return false;
        }
        if !table.names_statement(words[at + 1] as usize) {
            return false;
        }
    }
    if depth % 2 == 0 {
        return true;
    }
    table.names_statement(words[DEPTH_AT + depth] as usize)
}

fn fields_zero(roll: &[u32], p: usize) -> bool
    requires { arrival_size * p + 3 < length roll.now }
    ensures { result ≡ fields_zero roll.now p }
{
    node_of(roll, p) == 0 && value_of(roll, p) == 0 && source_of(roll, p) == 0
}

// "a field the kind lacks is 0", and false of a statement that is no collective
fn lacked_zero(roll: &[u32], p: usize, node: Node) -> bool
    requires { arrival_size * p + 3 < length roll.now }
    ensures { result ≡ on_collective (statement_of node) (lacked_zero roll.now p) false }
{
    match node.kind {
        BARRIER => value_of(roll, p) == 0 && source_of(roll, p) == 0,
        BROADCAST => true,
        EXCHANGE => source_of(roll, p) == 0,
        _ => false,
    }
}

fn wait_fits(table: &Table, words: &[u32], roll: &[u32], p: usize) -> bool
    requires { Passing well_formed table.now.bytes.now × Stacked words.now × (arrival_size * p + 3 < length roll.now)
        × (is_statement (decode table.now.bytes.now) (top words.now) ≡ true) }
    ensures { result ≡ wait_fits (decode table.now.bytes.now) words.now roll.now p }
{
    let entry = top(words);
    if entry != node_of(roll, p) {
        return false;
    }
    lacked_zero(roll, p, table.node_at(entry as usize))
}

// Whether node w lies below the top.
fn lies_below(words: &[u32], w: usize) -> bool
    requires { Stacked words.now }
    ensures { result ≡ not (all_below (λ i. not (eqb (get_or words.now (stack_at + i) 0) w))
        (depth words.now - 1)) }
{
    let below = words[DEPTH_AT] as usize - 1;
    words[STACK_AT..STACK_AT + below]
        .iter()
        .any(|&entry| entry as usize == w)
}

pub fn leave_on_top(table: &Table, words: &[u32]) -> bool
    requires { Passing well_formed table.now.bytes.now × Stacked words.now
        × (is_statement (decode table.now.bytes.now) (top words.now) ≡ true) }
    ensures { result ≡ is_leave (statement_at (decode table.now.bytes.now) (top words.now)) }
{
    let n = top(words) as usize;
    table.kind_at(n) == LEAVE
}

// "A made-up stack with a leave on top and that while not below is number 23." Apart from the test above, which is short enough
// to stand in the callers.
pub fn leave_fits(table: &Table, words: &[u32]) -> bool
    requires { Passing well_formed table.now.bytes.now × Stacked words.now
        × (is_statement (decode table.now.bytes.now) (top words.now) ≡ true)
        × (is_leave (statement_at (decode table.now.bytes.now) (top words.now)) ≡ true) }
    ensures { result ≡ leave_fits (decode table.now.bytes.now) words.now }
{
    lies_below(words, nearest_loop(table, top(words) as usize))
}

fn record_fits(table: &Table, words: &[u32], roll: &[u32], p: usize) -> bool
    requires { Passing well_formed table.now.bytes.now × (length words.now ≡ process_words) × (depth words.now ≤ stack_places)
        × (arrival_size * p + 3 < length roll.now) × (stack_fits (decode table.now.bytes.now) words.now ≡ true) }
    ensures { result ≡ record_fits (decode table.now.bytes.now) words.now roll.now p }
{
    let status = status_at(roll, p);
    let empty = words[DEPTH_AT] == 0;
    if status == ENDED {
        if empty {
            return fields_zero(roll, p);
        }
        return false;
    }
    if empty {
        return false;
    }
    if status == RUNNING {
        if !fields_zero(roll, p) {
            return false;
        }
        if !leave_on_top(table, words) {
            return true;
        }
        return leave_fits(table, words);
    }
    if status == WAITING {
        return wait_fits(table, words, roll, p);
    }
    false
}

// Question 23 of one process's words.
fn words_fit(table: &Table, words: &[u32], roll: &[u32], p: usize) -> bool
    requires { Passing well_formed table.now.bytes.now × (length words.now ≡ process_words)
        × (arrival_size * p + 3 < length roll.now) }
    ensures { result ≡ words_fit (decode table.now.bytes.now) words.now roll.now p }
{
    if words[DEPTH_AT] > MOST_DEPTH || !stack_fits(table, words) {
        return false;
    }
    record_fits(table, words, roll, p)
}

// "for 23 and 24 the first bank failing"
pub fn first_unfit(table: &Table, state: &[u32], roll: &[u32], count: usize) -> usize
    requires { Passing well_formed table.now.bytes.now × (length state.now ≡ process_words * count)
        × (length roll.now ≡ arrival_size * count) }
    ensures { result ≡ first_failing (process_fits (decode table.now.bytes.now) state.now roll.now) count }
{
    // A copy of its own: behind the reference the loop would read the counts again each turn.
    let own = *table;
    for p in 0..count {
        if !words_fit(&own, process_at(state, p), roll, p) {
            return p;
        }
    }
    count
}
