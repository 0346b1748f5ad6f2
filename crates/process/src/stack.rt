// The words of one process in the lent state, and its stack.
ghost use Rattle.std.specs.Prelude.{◌≡◌, ◌+◌, ◌*◌, ◌<◌, ◌≤◌, length};
ghost use Rattle.rules.specs.Process.{stack_places, process_words, process_at, depth, top, popped, replaced, pushed, unwound};
ghost use Rattle.process.specs.Given.{Stacked};

use rules::layout::{DEPTH_AT, PROCESS_WORDS, STACK_AT};

pub fn process_at(state: &[u32], p: usize) -> &[u32]
    requires { process_words * p + process_words ≤ length state.now }
    ensures { result.now ≡ process_at state.now p }
{
    let at = PROCESS_WORDS * p;
    let end = at + PROCESS_WORDS;
    &state[at..end]
}

pub fn top(words: &[u32]) -> u32
    requires { Stacked words.now }
    ensures { result ≡ top words.now }
{
    let at = DEPTH_AT + words[DEPTH_AT] as usize;
    words[at]
}

// "Vacated stack places are 0."
pub fn pop(words: &mut [u32])
    requires { Stacked words.old }
    ensures { words.new ≡ popped words.old }
{
    let depth = words[DEPTH_AT];
    let at = DEPTH_AT + depth as usize;
    words[at] = 0;
    words[DEPTH_AT] = depth - 1;
}

pub(crate) fn replace(words: &mut [u32], n: u32)
    requires { Stacked words.old }
    ensures { words.new ≡ replaced words.old n }
{
    let at = DEPTH_AT + words[DEPTH_AT] as usize;
    words[at] = n;
}

pub(crate) fn push(words: &mut [u32], n: u32)
    requires { (length words.old ≡ process_words) × (depth words.old < stack_places) }
    ensures { words.new ≡ pushed words.old n }
{
    let depth = words[DEPTH_AT];
    let at = STACK_AT + depth as usize;
    words[at] = n;
    words[DEPTH_AT] = depth + 1;
}

// "the stack is popped down to and including the highest entry of that while"
pub(crate) fn unwind(words: &mut [u32], w: u32)
    requires { (length words.old ≡ process_words) × (depth words.old ≤ stack_places) }
    ensures { words.new ≡ unwound w (depth words.old) words.old }
{
    // No count to go over: each turn takes an entry off the stack, and may be the last.
    while words[DEPTH_AT] != 0 {
        let entry = top(words);
        pop(words);
        if entry == w {
            return;
        }
    }
}
