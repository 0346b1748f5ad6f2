// The step of a statement that is no collective, on one process's words. Values are worked out before a word is written.
ghost use Rattle.std.specs.Prelude.{true, cond, ◌≡◌, ◌+◌, ◌<◌, ltb, length, set};
ghost use Rattle.rules.specs.Process.{variable_places, latch_places, stack_places, latches_at, process_words};
ghost use Rattle.rules.specs.Process.{environment, depth, top, replaced, pushed, unwound, advanced, needs_place};
ghost use Rattle.rules.specs.Table.{decode, Statement, procedures, nodes, body, statement_at};
ghost use Rattle.rules.specs.WellFormed.{nearest_loop, well_formed};
ghost use Rattle.table.specs.Header.{Passing};
ghost use Rattle.values.specs.Given.{Given, Part};
ghost use Rattle.process.specs.Given.{Stacked, is_collective, Turn};

use crate::stack::{pop, push, replace, top, unwind};
use loops::nearest_loop;
use rules::Node;
use rules::kinds::{ASSIGN, BARRIER, BRANCH, CALL, EXCHANGE, LATCH, LEAVE, LOOP, SEQUENCE};
use rules::layout::{LATCH_PLACES, LATCHES_AT};
use table::Table;
use values::evaluation::value_at;

fn assign(table: &Table, words: &mut [u32], own: u32, count: u32, a: usize, b: usize)
    requires { Given table.now.bytes.now words.old count × Stacked words.old × (a < variable_places)
        × Part (decode table.now.bytes.now) b }
    ensures { words.new
        ≡ advanced (decode table.now.bytes.now) (environment words.old own count) words.old
        (Statement.assign a b) }
{
    let value = value_at(table, words, own, count, b);
    words[a] = value;
    pop(words);
}

fn sequence(words: &mut [u32], a: u32, b: u32)
    requires { Stacked words.old × (depth words.old < stack_places) }
    ensures { words.new ≡ pushed (replaced words.old b) a }
{
    replace(words, b);
    push(words, a);
}

fn branch(table: &Table, words: &mut [u32], own: u32, count: u32, node: Node)
    requires { Given table.now.bytes.now words.old count × Stacked words.old × Part (decode table.now.bytes.now) node.a }
    ensures { words.new
        ≡ advanced (decode table.now.bytes.now) (environment words.old own count) words.old
        (Statement.branch node.a node.b node.c) }
{
    let test = value_at(table, words, own, count, node.a as usize);
    if test == 0 {
        replace(words, node.c);
    } else {
        replace(words, node.b);
    }
}

fn repeat(table: &Table, words: &mut [u32], own: u32, count: u32, node: Node)
    requires given { Given table.now.bytes.now words.old count × Stacked words.old × Part (decode table.now.bytes.now) node.a }
    requires words_bound { needs_place (decode table.now.bytes.now) (environment words.old own count)
        (Statement.loop node.a node.b) ≡ true
        → depth words.old < stack_places }
    ensures { words.new
        ≡ advanced (decode table.now.bytes.now) (environment words.old own count) words.old
        (Statement.loop node.a node.b) }
{
    let test = value_at(table, words, own, count, node.a as usize);
    if test == 0 {
        pop(words);
    } else {
        push(words, node.b);
    }
}

fn call(table: &Table, words: &mut [u32], p: usize)
    requires stacked { Stacked words.old × (p < procedures (decode table.now.bytes.now)) }
    requires p_bound { body (decode table.now.bytes.now) p < 256 }
    ensures { words.new ≡ replaced words.old (body (decode table.now.bytes.now) p) }
{
    let entry = table.body(p);
    replace(words, entry as u32);
}

// "from 12 on nothing is changed"
fn write_latch(words: &mut [u32], place: u32, value: u32)
    requires { length words.old ≡ process_words }
    ensures { words.new
        ≡ cond (ltb place latch_places) (set words.old (latches_at + place) value) words.old }
{
    let place = place as usize;
    if place < LATCH_PLACES {
        let at = LATCHES_AT + place;
        words[at] = value;
    }
}

fn latch(table: &Table, words: &mut [u32], own: u32, count: u32, a: usize, b: usize)
    requires { Given table.now.bytes.now words.old count × Stacked words.old
        × Part (decode table.now.bytes.now) a × Part (decode table.now.bytes.now) b }
    ensures { words.new
        ≡ advanced (decode table.now.bytes.now) (environment words.old own count) words.old
        (Statement.latch a b) }
{
    let place = value_at(table, words, own, count, a);
    let value = value_at(table, words, own, count, b);
    write_latch(words, place, value);
    pop(words);
}

// "ends the nearest while around it in the same procedure"
fn leave(table: &Table, words: &mut [u32])
    requires { Passing well_formed table.now.bytes.now × Stacked words.old
        × (top words.old < nodes (decode table.now.bytes.now)) }
    ensures { words.new
        ≡ unwound (nearest_loop (decode table.now.bytes.now) (top words.old)) (depth words.old) words.old }
{
    let w = nearest_loop(table, top(words) as usize);
    unwind(words, w as u32);
}

// Kinds 23 to 25 are the collectives.
pub fn is_collective(kind: u32) -> bool
    ensures { result ≡ is_collective kind }
{
    matches!(kind, BARRIER..=EXCHANGE)
}

// The step of the top statement, which is no collective.
pub fn advance(table: &Table, words: &mut [u32], own: u32, count: u32, node: Node)
    requires { Turn table.now.bytes.now words.old own count node }
    ensures { words.new
        ≡ advanced (decode table.now.bytes.now) (environment words.old own count) words.old
        (statement_at (decode table.now.bytes.now) (top words.old)) }
{
    let a = node.a as usize;
    let b = node.b as usize;
    match node.kind {
        ASSIGN => assign(table, words, own, count, a, b),
        SEQUENCE => sequence(words, node.a, node.b),
        BRANCH => branch(table, words, own, count, node),
        LOOP => repeat(table, words, own, count, node),
        CALL => call(table, words, a),
        LATCH => latch(table, words, own, count, a, b),
        LEAVE => leave(table, words),
        _ => pop(words),
    }
}
