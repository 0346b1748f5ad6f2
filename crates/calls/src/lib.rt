// Question 12: does each call name a procedure below its own? A walk from each body down: statements that may hold a call wait,
// which are marked, and the highest of them is visited next.
#![tactic(auto)]

ghost use Rattle.std.specs.Prelude.{cond, [], ◌∷◌, ◌≡◌, ◌+◌, ◌/◌, ◌<◌, ◌≤◌, ◌^◌, length, replicate};
ghost use Rattle.rules.specs.Choice.{first_failing};
ghost use Rattle.rules.specs.Table.{decode, nodes, statement_at};
ghost use Rattle.rules.specs.WellFormed.{called_below};
ghost use Rattle.calls.specs.Walk.{may_call, callers, waiting, calls_below, own_calls, ClearFrom, Topped};
ghost use Rattle.table.specs.Marks.{with_bit, with_bits};
ghost use Rattle.table.specs.Uses.{Fitting};

use rules::kinds::{BRANCH, CALL, LOOP, SEQUENCE};
use table::Table;
use table::marks::mark;

// Takes the highest node out of the first `from` words of the marks, if there is one.
fn take_top(marks: &mut [u32], from: usize) -> Option<usize>
    requires { (length marks.old ≡ 8) × (from ≤ 8) × ClearFrom marks.old from }
    ensures { Topped marks.old marks.new result }
{
    for k in (0..from).rev() {
        let word = marks[k];
        if word != 0 {
            let bit = word.ilog2();
            let one: u32 = 1 << bit;
            marks[k] = word - one;
            return Some(32 * k + bit as usize);
        }
    }
    None
}

// The highest node that waits, once node n is visited.
fn highest(marks: &mut [u32], n: usize) -> Option<usize>
    requires { (length marks.old ≡ 8) × (n < 256) × ClearFrom marks.old (n / 32 + 1) }
    ensures { Topped marks.old marks.new result }
{
    take_top(marks, n / 32 + 1)
}

// Whether node n may hold a call: it is a sequence, a branch, a loop or a call.
#[tactic(auto, unfolding(crate::specs::Walk::may_call))]
fn may_call(table: &Table, n: usize) -> bool
    requires { Fitting table.now.bytes.now × (n < table.now.header.nodes) }
    ensures { result ≡ may_call (decode table.now.bytes.now) n }
{
    matches!(table.kind_at(n), SEQUENCE..=CALL)
}

// Node n waits from now on if it may hold a call.
fn wait(table: &Table, marks: &mut [u32], n: usize)
    requires { Fitting table.now.bytes.now × (n < table.now.header.nodes) × (length marks.old ≡ 8) }
    ensures { marks.new ≡ with_bits marks.old (callers (decode table.now.bytes.now) (n ∷ [])) }
{
    if may_call(table, n) {
        mark(marks, n);
    }
}

// Node a waits, and the highest is taken. It is a itself where nothing waits above it in the word of node n, and then nothing is
// written: what the visit before wrote would have to be read again first.
fn go_on(marks: &mut [u32], n: usize, a: usize) -> Option<usize>
    requires { (length marks.old ≡ 8) × (n < 256) × (a < n) × ClearFrom marks.old (n / 32 + 1) }
    ensures { Topped (with_bit marks.old a) marks.new result }
{
    if a / 32 == n / 32 && marks[a / 32] >> (a % 32) == 0 {
        return Some(a);
    }
    mark(marks, a);
    highest(marks, n)
}

// Parts a and b of node n wait if they may hold a call, and the highest of all is taken.
fn on_to_either(table: &Table, marks: &mut [u32], n: usize, a: usize, b: usize) -> Option<usize>
    requires { Fitting table.now.bytes.now × (n < table.now.header.nodes) × (a < n) × (b < n)
        × (length marks.old ≡ 8) × ClearFrom marks.old (n / 32 + 1) }
    ensures { Topped (with_bits marks.old (callers (decode table.now.bytes.now) (a ∷ b ∷ []))) marks.new result }
{
    if may_call(table, b) {
        wait(table, marks, a);
        return go_on(marks, n, b);
    }
    if may_call(table, a) {
        return go_on(marks, n, a);
    }
    highest(marks, n)
}

// From node n on the way down: its statement parts that may hold a call wait from now on, and the highest is taken. The one part of a
// loop stands for both.
fn descend(table: &Table, marks: &mut [u32], n: usize) -> Option<usize>
    requires { Fitting table.now.bytes.now × (n < table.now.header.nodes) × (length marks.old ≡ 8)
        × ClearFrom marks.old (n / 32 + 1) }
    ensures { Topped (with_bits marks.old (waiting (decode table.now.bytes.now) n)) marks.new result }
{
    let node = table.node_at(n);
    match node.kind {
        SEQUENCE => on_to_either(table, marks, n, node.a as usize, node.b as usize),
        BRANCH => on_to_either(table, marks, n, node.b as usize, node.c as usize),
        LOOP => on_to_either(table, marks, n, node.b as usize, node.b as usize),
        _ => highest(marks, n),
    }
}

// The lowest call so far that does not call below p, once node n is visited.
fn lowest_call(table: &Table, p: usize, n: usize, lowest: usize) -> usize
    requires { Fitting table.now.bytes.now × (n < table.now.header.nodes) }
    ensures { result ≡ cond (calls_below p (statement_at (decode table.now.bytes.now) n)) lowest n }
{
    let node = table.node_at(n);
    if node.kind != CALL {
        return lowest;
    }
    if (node.a as usize) < p { lowest } else { n }
}

// The first call in procedure p's tree that does not call below p.
fn first_high_call(table: &Table, marks: &mut [u32], p: usize) -> usize
    requires { Fitting table.now.bytes.now × (p < table.now.header.procedures) × (marks.old ≡ replicate 8 0) }
    ensures value { result ≡ first_failing (own_calls (decode table.now.bytes.now) p) (nodes (decode table.now.bytes.now)) }
    ensures marks_after { marks.new ≡ replicate 8 0 }
{
    let mut lowest = table.header.nodes;
    let mut next = Some(table.body(p));
    while let Some(n) = next {
        lowest = lowest_call(table, p, n, lowest);
        next = descend(table, marks, n);
    }
    lowest
}

// The first call that does not call below its own procedure.
pub fn first_miscalled(table: &Table, marks: &mut [u32]) -> usize
    requires { Fitting table.now.bytes.now × (marks.old ≡ replicate 8 0) }
    ensures value { result ≡ first_failing
        (λ n. called_below (decode table.now.bytes.now) n (statement_at (decode table.now.bytes.now) n))
        (nodes (decode table.now.bytes.now)) }
    ensures marks_after { marks.new ≡ replicate 8 0 }
{
    let mut lowest = table.header.nodes;
    for p in 0..table.header.procedures {
        lowest = lowest.min(first_high_call(table, marks, p));
    }
    lowest
}
