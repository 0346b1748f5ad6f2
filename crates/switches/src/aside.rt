// The statements of dead branches, a bit a node, from the bodies down: what names a node lies above it.
ghost use Rattle.std.specs.Prelude.{cond, ◌∷◌, [], ◌≡◌, ◌<◌, eqb, length, replicate};
ghost use Rattle.rules.specs.Table.{decode, nodes, statement_at};
ghost use Rattle.rules.specs.WellFormed.{well_formed};
ghost use Rattle.table.specs.Header.{Passing};
ghost use Rattle.switches.specs.Aside.{inner_parts, never_parts, aside_marks, Aside};
ghost use Rattle.table.specs.Marks.{with_bits};
ghost use Rattle.visit.specs.Fields.{plane_words};

use rules::kinds::{BRANCH, LOOP, SEQUENCE};
use table::Table;
use table::marks::{mark, marked};
use values::fixing::fixing;

// Both of two statements.
fn set_both(aside: &mut [u32], x: u32, y: u32)
    requires { (x < 256) × (y < 256) × (length aside.old ≡ plane_words) }
    ensures { aside.new ≡ with_bits aside.old (x ∷ y ∷ []) }
{
    mark(aside, x as usize);
    mark(aside, y as usize);
}

// All statements that node n, which is set aside, has as parts.
fn set_parts(table: &Table, aside: &mut [u32], n: usize)
    requires { Passing well_formed table.now.bytes.now × (n < nodes (decode table.now.bytes.now))
        × (length aside.old ≡ plane_words) }
    ensures { aside.new ≡ with_bits aside.old (inner_parts (statement_at (decode table.now.bytes.now) n)) }
{
    let node = table.node_at(n);
    match node.kind {
        SEQUENCE => set_both(aside, node.a, node.b),
        BRANCH => set_both(aside, node.b, node.c),
        LOOP => mark(aside, node.b as usize),
        _ => {}
    }
}

// Of an if's branches, by the value of its condition, the one that is not taken.
fn not_taken(value: u32, first: u32, second: u32) -> u32
    ensures { result ≡ cond (eqb value 0) first second }
{
    if value == 0 { first } else { second }
}

// Of node n, if it is an if with a fixed condition, the branch that will never be taken.
fn set_branch(table: &Table, aside: &mut [u32], n: usize)
    requires { Passing well_formed table.now.bytes.now × (n < nodes (decode table.now.bytes.now))
        × (length aside.old ≡ plane_words) }
    ensures { aside.new ≡ with_bits aside.old
        (never_parts (decode table.now.bytes.now) (statement_at (decode table.now.bytes.now) n)) }
{
    let node = table.node_at(n);
    if node.kind != BRANCH {
        return;
    }
    let Some(value) = fixing(table, node.a as usize) else {
        return;
    };
    mark(aside, not_taken(value, node.b, node.c) as usize);
}

// Most nodes are expressions, and no kind below that of a sequence has a statement as a part.
fn set_node(table: &Table, aside: &mut [u32], n: usize)
    requires { Passing well_formed table.now.bytes.now × (n < nodes (decode table.now.bytes.now))
        × (length aside.old ≡ plane_words) }
    ensures { aside.new ≡ aside_marks (decode table.now.bytes.now) n aside.old }
{
    if table.kind_at(n) < SEQUENCE {
        return;
    }
    if marked(aside, n) {
        set_parts(table, aside, n);
    } else {
        set_branch(table, aside, n);
    }
}

pub(crate) fn set_aside(table: &Table, aside: &mut [u32])
    requires { Passing well_formed table.now.bytes.now × (aside.old ≡ replicate plane_words 0) }
    ensures { Aside (decode table.now.bytes.now) aside.new }
{
    for n in (0..table.header.nodes).rev() {
        set_node(table, aside, n);
    }
}
