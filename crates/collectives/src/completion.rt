// Collectives (the paper's meetings): what a process brings to one, and what it takes away. Values go straight from the roll
// to each process's words.
ghost use Rattle.std.specs.Prelude.{true, cond, ◌≡◌, ℕ, ◌+◌, ◌*◌, ◌<◌, ◌≤◌, eqb, length};
ghost use Rattle.rules.specs.Arrivals.{arrival_size, waiting, status_at, running_record, ended_record, with_arrival};
ghost use Rattle.rules.specs.Collective.{arrival_of, gathered_from, sent_by, received, completed_state, released_roll};
ghost use Rattle.rules.specs.Process.{process_words, most_processes, process_at, environment, top, popped};
ghost use Rattle.rules.specs.Table.{decode, gathered_areas};
ghost use Rattle.rules.specs.declared.Status.TheVariants.{Running};
ghost use Rattle.process.specs.Given.{Stacked, is_collective, Topped};
ghost use Rattle.collectives.specs.Given.{AtCollective, collective_of};

use crate::arrivals::{read, source_of, value_of, write};
use process::stack::{pop, top};
use rules::kinds::{BARRIER, BROADCAST, EXCHANGE};
use rules::layout::{DEPTH_AT, PROCESS_WORDS, slot_at};
use rules::{Arrival, Node};
use table::Table;
use values::evaluation::value_at;

// "value and source are worked out on arrival"; "a field the kind lacks is 0"
pub fn arrival_of(
    table: &Table,
    words: &[u32],
    own: u32,
    count: u32,
    node: Node,
    arrival: Arrival,
) -> Arrival
    requires { Topped table.now.bytes.now words.now count node × (is_collective node.kind ≡ true) × (arrival.status ≡ Running) }
    ensures { result ≡ arrival_of (decode table.now.bytes.now) (environment words.now own count)
        (top words.now) (collective_of node) }
{
    let n = top(words);
    if node.kind == BARRIER {
        return arrival.arrive(n, 0, 0);
    }
    if node.kind == EXCHANGE {
        let value = value_at(table, words, own, count, node.a as usize);
        return arrival.arrive(n, value, 0);
    }
    let value = value_at(table, words, own, count, node.b as usize);
    let source = value_at(table, words, own, count, node.c as usize);
    arrival.arrive(n, value, source)
}

// "An exchange puts bank i's value into slot i of every roster": of the one that it names, at every bank.
fn gather(words: &mut [u32], roll: &[u32], count: usize, area: usize)
    requires { (length words.old ≡ process_words) × (length roll.now ≡ arrival_size * count)
        × (count ≤ most_processes) × (area < gathered_areas) }
    ensures { words.new ≡ gathered_from roll.now area count words.old }
{
    for i in 0..count {
        let at = slot_at(area, i);
        words[at] = value_of(roll, i);
    }
}

// "a source number at or above the number of banks gives every bank that names it zero"
fn sent_by(roll: &[u32], count: usize, source: usize) -> u32
    requires { length roll.now ≡ arrival_size * count }
    ensures { result ≡ sent_by roll.now count source }
{
    if source < count {
        value_of(roll, source)
    } else {
        0
    }
}

// "A broadcast gives each bank the value of the bank whose number is its own source"
fn receive(words: &mut [u32], roll: &[u32], count: usize, node: Node, p: usize)
    requires { AtCollective roll.now count node × (length words.old ≡ process_words) × (p < count) }
    ensures { words.new ≡ received roll.now count (collective_of node) p words.old }
{
    match node.kind {
        EXCHANGE => gather(words, roll, count, node.b as usize),
        BROADCAST => {
            let source = source_of(roll, p) as usize;
            words[node.a as usize] = sent_by(roll, count, source);
        }
        _ => {}
    }
}

// "A meeting pops every bank's top"
fn complete_one(words: &mut [u32], roll: &[u32], count: usize, node: Node, p: usize)
    requires { AtCollective roll.now count node × Stacked words.old × (p < count) }
    ensures { words.new ≡ popped (received roll.now count (collective_of node) p words.old) }
{
    receive(words, roll, count, node, p);
    pop(words);
}

pub fn complete(state: &mut [u32], roll: &[u32], count: usize, node: Node)
    requires at_collective { AtCollective roll.now count node × (length state.old ≡ process_words * count) }
    requires by_index { (p : ℕ) → p < count → Stacked (process_at state.old p) }
    ensures { state.new ≡ completed_state roll.now count (collective_of node) state.old }
{
    for p in 0..count {
        let at = PROCESS_WORDS * p;
        let end = at + PROCESS_WORDS;
        complete_one(&mut state[at..end], roll, count, node, p);
    }
}

// "from waiting to running or ended"
fn release_one(roll: &mut [u32], p: usize, depth: u32)
    requires { (arrival_size * p + 3 < length roll.old) × (status_at roll.old p ≡ waiting) }
    ensures { roll.new ≡ with_arrival roll.old p (cond (eqb depth 0) ended_record running_record) }
{
    let arrival = read(roll, p);
    if depth == 0 {
        write(roll, p, arrival.end());
    } else {
        write(roll, p, arrival.resume());
    }
}

pub fn release(state: &[u32], roll: &mut [u32], count: usize)
    requires state_len { (length state.now ≡ process_words * count) × (length roll.old ≡ arrival_size * count) }
    requires by_index { (p : ℕ) → p < count → status_at roll.old p ≡ waiting }
    ensures { roll.new ≡ released_roll state.now count roll.old }
{
    for p in 0..count {
        let at = PROCESS_WORDS * p + DEPTH_AT;
        release_one(roll, p, state[at]);
    }
}
