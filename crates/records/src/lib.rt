// The team's start, step and serving with the arrivals (the paper's roll) lent as a slice of records. The core works on plain words:
// the records are loaded into an array of words, which is lent to the core, and saved from it.
#![tactic(auto)]

ghost use Rattle.std.specs.Prelude.{◌≡◌, length, min, take, drop};
ghost use Rattle.rules.specs.Scheduling.{served};
ghost use Rattle.rules.specs.Start.{started};
ghost use Rattle.rules.specs.Step.{stepped};
ghost use Rattle.machine.specs.Layout.{Starts};
ghost use Rattle.machine.specs.Outcomes.{Gives};
ghost use Rattle.scheduler.specs.Serving.{Serves};
ghost use Rattle.rules.specs.Process.{most_processes};
ghost use Rattle.records.specs.Roll.{roll_words, lent_records, loaded, saved};
ghost use Rattle.records.specs.Held.{GivesTwo, ThroughWords, OnFirst};

use collectives::arrivals::{read, write};
use machine::team;
use rules::layout::{ARRIVAL_WORDS, MOST_PROCESSES};
use rules::{Arrival, Stepped, Verdict};
use scheduler::Service;
// A host sees a process's latches through the team.
pub use machine::team::latches;

// Of a roll of too many records, one more than the most is lent to the core.
const MOST_LENT: usize = MOST_PROCESSES + 1;

const LENT_WORDS: usize = ARRIVAL_WORDS * MOST_LENT;

// The words of the roll's first records. A roll of too many is refused for its length: those lent say as much.
fn load(roll: &[Arrival]) -> [u32; LENT_WORDS]
    ensures { result ≡ loaded roll.now (lent_records (length roll.now)) }
{
    let mut words = [0; LENT_WORDS];
    for p in 0..roll.len().min(MOST_LENT) {
        write(&mut words, p, roll[p]);
    }
    words
}

fn save(roll: &mut [Arrival], words: &[u32; LENT_WORDS])
    ensures { roll.new ≡ saved words.now (lent_records (length roll.old)) roll.old }
{
    for p in 0..roll.len().min(MOST_LENT) {
        roll[p] = read(words, p);
    }
}

// A call of the core on the words of a roll lent as records.
fn through_words<A, F: FnOnce(&mut [u32], &mut [u32]) -> A>(
    state: &mut [u32],
    roll: &mut [Arrival],
    call: F,
) -> A
    requires { F.IsAlwaysCallable call }
    ensures { ThroughWords (λ before after. GivesTwo F.FnOnce call state.old before result state.new after) roll.old roll.new }
{
    let mut words = load(roll);
    let end = ARRIVAL_WORDS * roll.len().min(MOST_LENT);
    let answer = call(state, &mut words[..end]);
    save(roll, &words);
    answer
}

// A start whose roll is lent as records.
pub fn start(
    table: &[u8],
    processes: u32,
    words: &[u32],
    state: &mut [u32],
    roll: &mut [Arrival],
) -> Verdict
    ensures { Starts
        (started table.now processes words.now state.old (roll_words roll.old))
        result state.new (roll_words roll.new) }
{
    through_words(state, roll, |state, lent| {
        team::start(table, processes, words, state, lent)
    })
}

// A step whose roll is lent as records.
pub fn step(table: &[u8], state: &mut [u32], roll: &mut [Arrival], process: u32) -> Stepped
    ensures { Gives (stepped table.now state.old (roll_words roll.old) process)
        result state.new (roll_words roll.new) }
{
    through_words(state, roll, |state, lent| {
        team::step(table, state, lent, process)
    })
}

// Turns shared fairly, where the roll is lent as records.
pub fn serve(
    table: &[u8],
    state: &mut [u32],
    roll: &mut [Arrival],
    last: u32,
    turns: u32,
) -> Service
    ensures { Serves (served table.now state.old (roll_words roll.old) last turns)
        result state.new (roll_words roll.new) }
{
    through_words(state, roll, |state, lent| {
        scheduler::serve(table, state, lent, last, turns)
    })
}

// What a call on a team's records answers, and the records as it leaves them.
#[derive(Clone, Copy)]
pub struct OnRecords<A> {
    pub answer: A,
    pub roll: [Arrival; MOST_PROCESSES],
}

// A call on the first `count` records of a team that holds them by value; the others stay.
fn on_first<A, F: FnOnce(&mut [u32], &mut [Arrival]) -> A>(
    state: &mut [u32],
    roll: [Arrival; MOST_PROCESSES],
    count: usize,
    call: F,
) -> OnRecords<A>
    requires { F.IsAlwaysCallable call }
    ensures { OnFirst (λ before after. GivesTwo F.FnOnce call state.old before result.answer state.new after)
        (min count most_processes) roll result.roll }
{
    let mut records = roll;
    let lent = count.min(MOST_PROCESSES);
    let answer = call(state, &mut records[..lent]);
    OnRecords {
        answer,
        roll: records,
    }
}

// A start of a team whose records are held by value: the first `count` are lent to `start`, the others stay.
pub fn start_on(
    table: &[u8],
    processes: u32,
    words: &[u32],
    state: &mut [u32],
    roll: [Arrival; MOST_PROCESSES],
    count: usize,
) -> OnRecords<Verdict>
    ensures { Starts
        (started table.now processes words.now state.old (roll_words (take count roll)))
        result.answer state.new (roll_words (take count result.roll))
        × (drop count result.roll ≡ drop count roll) }
{
    on_first(state, roll, count, |state, lent| {
        start(table, processes, words, state, lent)
    })
}

// A step of a team whose records are held by value: the first `count` are lent to `step`, the others stay.
pub fn step_on(
    table: &[u8],
    state: &mut [u32],
    roll: [Arrival; MOST_PROCESSES],
    count: usize,
    process: u32,
) -> OnRecords<Stepped>
    ensures { Gives (stepped table.now state.old (roll_words (take count roll)) process)
        result.answer state.new (roll_words (take count result.roll))
        × (drop count result.roll ≡ drop count roll) }
{
    on_first(state, roll, count, |state, first| {
        step(table, state, first, process)
    })
}
