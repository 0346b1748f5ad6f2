// A start: "At start the stack holds the main body; variables and doors are as given; all else is 0. Every record of the roll
// is then running."
ghost use Rattle.std.specs.Prelude.{◌≡◌, ℕ, ◌+◌, ◌*◌, ◌<◌, ◌≤◌, length, get_or, take, drop};
ghost use Rattle.rules.specs.Arrivals.{arrival_size};
ghost use Rattle.rules.specs.Evaluation.{doors};
ghost use Rattle.rules.specs.Process.{variable_places, process_words};
ghost use Rattle.rules.specs.Start.{start_state, start_roll};
ghost use Rattle.machine.specs.Layout.{laid_word, Startable};
ghost use Rattle.rules.specs.Table.{decode};

use collectives::arrivals::write;
use rules::layout::{DEPTH_AT, DOOR_PLACES, DOORS_AT, LATCHES_AT, PROCESS_WORDS, STACK_AT};
use rules::{Arrival, Status};
use table::Table;

fn laid_word(given: &[u32], variables: usize, entry: u32, i: usize) -> u32
    requires { (length given.now ≡ variables + doors) × (variables ≤ variable_places) }
    ensures { result ≡ laid_word variables entry given.now i }
{
    if i < variables {
        return given[i];
    }
    if i < DOORS_AT {
        return 0;
    }
    if i < LATCHES_AT {
        let at = variables + (i - DOORS_AT);
        return given[at];
    }
    if i == DEPTH_AT {
        return 1;
    }
    if i == STACK_AT { entry } else { 0 }
}

fn lay_out(words: &mut [u32], given: &[u32], variables: usize, entry: u32)
    requires { (length words.old ≡ process_words) × (length given.now ≡ variables + doors) × (variables ≤ variable_places) }
    ensures { (i : ℕ) → i < process_words → get_or words.new i 0 ≡ laid_word variables entry given.now i }
{
    for (i, word) in words.iter_mut().enumerate() {
        *word = laid_word(given, variables, entry, i);
    }
}

fn given_to(words: &[u32], size: usize, p: usize) -> &[u32]
    requires { size * p + size ≤ length words.now }
    ensures { result.now ≡ take size (drop (size * p) words.now) }
{
    let from = size * p;
    let to = from + size;
    &words[from..to]
}

pub(crate) fn start_state(table: &[u8], count: u32, words: &[u32], state: &mut [u32])
    requires { Startable table.now count words.now state.old }
    ensures { state.new ≡ start_state (decode table.now) count words.now state.old }
{
    let table = Table::of(table);
    let variables = table.header.variables;
    let entry = table.body(table.header.procedures - 1) as u32;
    for p in 0..count as usize {
        let at = PROCESS_WORDS * p;
        let end = at + PROCESS_WORDS;
        let given = given_to(words, variables + DOOR_PLACES, p);
        lay_out(&mut state[at..end], given, variables, entry);
    }
}

pub(crate) fn start_roll(roll: &mut [u32], count: usize)
    requires { length roll.old ≡ arrival_size * count }
    ensures { roll.new ≡ start_roll count roll.old }
{
    for p in 0..count {
        let running = Arrival {
            status: Status::Running,
            node: 0,
            value: 0,
            source: 0,
        };
        write(roll, p, running);
    }
}
