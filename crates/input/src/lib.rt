// The input of the programs that read more than a table: a word L, L table bytes, words that each program names, and what stands
// behind them. Which part of the bytes is which is said in rules/specs/Input.antt. As there, parts are cut out of any bytes, and
// past the end of them all is 0: question 25 is asked once, and no part asks again.
#![tactic(auto)]

mod source;

ghost use Rattle.std.specs.Prelude.{◌∷◌, [], ◌++◌, ◌≡◌, ◌*◌, ◌/◌, ◌≤◌, min, length, get_or, take, drop};
ghost use Rattle.rules.specs.Answers.{Accepted};
ghost use Rattle.rules.specs.Input.{table_bytes, end_behind, behind, word_behind, words_of, words_taken, words_exactly};
ghost use Rattle.rules.specs.Input.{most_input_bytes, question25, run_behind, serve_behind, run_input, serve_input};
ghost use Rattle.rules.specs.Start.{start_size};
ghost use Rattle.rules.specs.Table.{decode, word_at};

use rules::Verdict;
use rules::layout::DOOR_PLACES;
pub use source::read_full;
use table::shape::refused;
use table::words::{header, word};

// The most that question 25 allows, and the words in it.
const MOST_INPUT_BYTES: usize = 32768;

pub const INPUT_WORDS: usize = MOST_INPUT_BYTES / 4;

// The words behind the table: a run's number of banks; a serve's, with the last bank and the number of turns; none behind a library.
pub const RUN_BEHIND: u32 = 1;

pub const SERVE_BEHIND: u32 = 3;

pub const LIBRARY_BEHIND: u32 = 0;

// A byte more, so that longer input shows.
pub const INPUT_BYTES: usize = MOST_INPUT_BYTES + 1;

fn byte_at(bytes: &[u8], i: usize) -> u8
    ensures { result ≡ get_or bytes.now i 0 }
{
    bytes.get(i).copied().unwrap_or(0)
}

fn first_bytes(bytes: &[u8]) -> [u8; 4]
    ensures { result ≡ get_or bytes.now 0 0 ∷ get_or bytes.now 1 0 ∷ get_or bytes.now 2 0
        ∷ get_or bytes.now 3 0 ∷ [] }
{
    [0, 1, 2, 3].map(|i| byte_at(bytes, i))
}

fn first_word(bytes: &[u8]) -> u32
    ensures { result ≡ word_at bytes.now 0 }
{
    let four = first_bytes(bytes);
    word(&four, 0)
}

fn front(bytes: &[u8], count: usize) -> &[u8]
    ensures { result.now ≡ take count bytes.now }
{
    &bytes[..count.min(bytes.len())]
}

fn rest(bytes: &[u8], at: usize) -> &[u8]
    ensures { result.now ≡ drop at bytes.now }
{
    &bytes[at.min(bytes.len())..]
}

// "a word L, L table bytes"
pub fn table_bytes(input: &[u8]) -> &[u8]
    ensures { result.now ≡ table_bytes input.now }
{
    let length = first_word(input) as usize;
    front(rest(input, 4), length)
}

fn end_behind(input: &[u8], words: u32) -> usize
    ensures { result ≡ end_behind words input.now }
{
    4 + first_word(input) as usize + 4 * words as usize
}

// What stands behind the table and so many words.
pub fn behind(input: &[u8], words: u32) -> &[u8]
    ensures { result.now ≡ behind words input.now }
{
    rest(input, end_behind(input, words))
}

pub fn word_behind(input: &[u8], words: u32) -> u32
    ensures { result ≡ word_behind words input.now }
{
    first_word(behind(input, words))
}

// Question 25 of a program with so many words behind the table.
pub fn asked(input: &[u8], words: u32) -> Verdict
    ensures { result ≡ question25 words input.now }
{
    if input.len() > MOST_INPUT_BYTES || input.len() < end_behind(input, words) {
        return refused(25, 0);
    }
    Ok(())
}

// The start words of one process, if this is a table.
fn start_size(table: &[u8]) -> usize
    ensures { (result ≡ start_size (decode table.now)) × (result ≤ 75) }
{
    let first = first_bytes(table);
    header(&first).variables + DOOR_PLACES
}

// How many start words a run's input has.
fn words_taken(input: &[u8]) -> usize
    ensures { result ≡ words_taken input.now }
{
    let each = start_size(table_bytes(input));
    let given = behind(input, RUN_BEHIND);
    (each * word_behind(input, 0) as usize).min(given.len() / 4)
}

// "then one byte a turn"
pub fn turns(input: &[u8]) -> &[u8]
    ensures { result.now ≡ (run_input input.now).turns }
{
    rest(behind(input, RUN_BEHIND), 4 * words_taken(input))
}

// How many words some bytes are; none if they are no whole number of words.
fn words_exactly(bytes: &[u8]) -> usize
    ensures { result ≡ words_exactly bytes.now }
{
    let length = bytes.len();
    if length % 4 == 0 { length / 4 } else { 0 }
}

// The first words of some bytes, and how many they are. The words behind them stay.
fn read_words(bytes: &[u8], count: usize, words: &mut [u32]) -> usize
    requires { (4 * count ≤ length bytes.now) × (count ≤ length words.old) }
    ensures { (result ≡ count) × (words.new ≡ words_of count bytes.now ++ drop count words.old) }
{
    for (i, place) in words[..count].iter_mut().enumerate() {
        *place = word(bytes, i);
    }
    count
}

// How many start words there are, and the words at the front of a place that all the words of an input fit, if question 25 was
// passed.
pub fn run_words(input: &[u8], words: &mut [u32]) -> usize
    requires { (question25 run_behind input.now ≡ Accepted) × (length words.old ≡ most_input_bytes / 4) }
    ensures { (result ≤ most_input_bytes / 4) × (take result words.new ≡ (run_input input.now).words) }
{
    read_words(behind(input, RUN_BEHIND), words_taken(input), words)
}

pub fn serve_words(input: &[u8], words: &mut [u32]) -> usize
    requires { (question25 serve_behind input.now ≡ Accepted) × (length words.old ≡ most_input_bytes / 4) }
    ensures { (result ≤ most_input_bytes / 4) × (take result words.new ≡ (serve_input input.now).words) }
{
    let given = behind(input, SERVE_BEHIND);
    read_words(given, words_exactly(given), words)
}
