// The value of an expression: "worked out by recursion from its node down to its parts".
ghost use Rattle.std.specs.Prelude.{◌≡◌, ℕ, ◌+◌, ◌*◌, ◌/◌, ◌<◌, ◌≤◌, length, if◌then◌else◌, nat_lt, slice_index};
ghost use Rattle.rules.specs.Evaluation.{applied, value_of, value, doors, gathered_slot};
ghost use Rattle.rules.specs.Process.{most_processes, gathered_at, doors_at, process_words, environment};
ghost use Rattle.rules.specs.Table.{decode, expression_of, gathered_areas};
ghost use Rattle.values.specs.Given.{Given, Part, operator_of};

use rules::Node;
use rules::kinds::{
    CONSTANT, DIFFERENCE, DOOR, EQUAL, LESS, OWN_NUMBER, PRODUCT, QUOTIENT, SLOT, SUM, VARIABLE,
};
use rules::layout::{DOOR_PLACES, DOORS_AT, slot_at};
use table::Table;

// Kinds 6 to 12 on the values of the two parts.
pub(crate) fn apply(kind: u32, x: u32, y: u32) -> u32
    requires { 6 ≤ kind }
    ensures { result ≡ applied (operator_of kind) x y }
{
    match kind {
        SUM => x.wrapping_add(y),
        DIFFERENCE => x.wrapping_sub(y),
        PRODUCT => x.wrapping_mul(y),
        QUOTIENT => x.checked_div(y).unwrap_or(0),
        LESS => u32::from(x < y),
        EQUAL => u32::from(x == y),
        _ => u32::from(x != 0 && y != 0),
    }
}

// "constant: B × 512 + C"
pub(crate) fn constant(node: Node) -> u32
    requires { (node.b < 512) × (node.c < 512) }
    ensures { result ≡ node.b * 512 + node.c }
{
    node.b * 512 + node.c
}

// Kinds 0 to 3, which have no parts.
fn leaf(node: Node, words: &[u32], own: u32, count: u32) -> u32
    requires kind_bound { (node.kind < 4) × (node.b < 512) × (node.c < 512) × (length words.now ≡ process_words) }
    requires a_lt_process_words { node.kind ≡ 1 → node.a < process_words }
    ensures { (part : ℕ → ℕ)
        → result ≡ value_of (environment words.now own count) part (expression_of node) }
{
    match node.kind {
        CONSTANT => constant(node),
        VARIABLE => words[node.a as usize],
        OWN_NUMBER => own,
        _ => count,
    }
}

// "own door word, door A; from 12 on the value is 0"
fn door(words: &[u32], x: u32) -> u32
    requires { length words.now ≡ process_words }
    ensures { result ≡ (if nat_lt x doors then slice_index words.now (doors_at + x) else 0) }
{
    let place = x as usize;
    if place < DOOR_PLACES {
        words[DOORS_AT + place]
    } else {
        0
    }
}

// "roster slot A; from the number of banks on the value is 0", of the roster that B names
fn slot(words: &[u32], count: u32, x: u32, area: usize) -> u32
    requires { (length words.now ≡ process_words) × (count ≤ most_processes) × (area < gathered_areas) }
    ensures { result ≡ (if nat_lt x count then slice_index words.now (gathered_at + gathered_slot area x) else 0) }
{
    if x < count {
        let at = slot_at(area, x as usize);
        words[at]
    } else {
        0
    }
}

// Calls itself, through `value_at`, on the parts, which lie below the node: the node number falls.
#[cycle(evaluate_value_at)]
pub fn evaluate(table: &Table, words: &[u32], own: u32, count: u32, n: usize) -> u32
    requires given { Given table.now.bytes.now words.now count }
    requires part { Part (decode table.now.bytes.now) n }
    ensures { result ≡ value (decode table.now.bytes.now) (environment words.now own count) n }
{
    let node = table.node_at(n);
    if node.kind < DOOR {
        return leaf(node, words, own, count);
    }
    let x = value_at(table, words, own, count, node.a as usize);
    if node.kind == DOOR {
        return door(words, x);
    }
    if node.kind == SLOT {
        return slot(words, count, x, node.b as usize);
    }
    let y = value_at(table, words, own, count, node.b as usize);
    apply(node.kind, x, y)
}

// The same, and short enough to stand in its callers: most parts are leaves, and a call would cost more than they do.
#[cycle(evaluate_value_at)]
pub fn value_at(table: &Table, words: &[u32], own: u32, count: u32, n: usize) -> u32
    requires given { Given table.now.bytes.now words.now count }
    requires part { Part (decode table.now.bytes.now) n }
    ensures { result ≡ value (decode table.now.bytes.now) (environment words.now own count) n }
{
    let node = table.node_at(n);
    if node.kind < DOOR {
        return leaf(node, words, own, count);
    }
    evaluate(table, words, own, count, n)
}
