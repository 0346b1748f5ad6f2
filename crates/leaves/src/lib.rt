// The leaves of a table that passes 2 to 12, in a pass of their own over the nodes, which a table without leaves does not need: question
// 26, and question 16 of a while that is left locally. A bit a node says whether it holds a leave; another, in the plane that 11 and 12
// need no more, whether it is left locally.
#![tactic(auto)]

ghost use Rattle.std.specs.Prelude.{cond, ◌&&◌, ◌||◌, ◌≡◌, ◌%◌, ◌<◌, ◌≤◌, length};
ghost use Rattle.leaves.specs.Leaves.{left_plane, either_bit, Joined, NodePassed, NodesPassed, Cleared, LeavesPassed};
ghost use Rattle.rules.specs.Table.{decode, nodes, statement_at};
ghost use Rattle.rules.specs.WellFormed.{well_built};
ghost use Rattle.table.specs.Header.{Passing};
ghost use Rattle.table.specs.Marks.{bit_at, with_bit};
ghost use Rattle.visit.specs.Facts.{NotedTo};
ghost use Rattle.visit.specs.Fields.{facts_plane, leaves_plane, all_planes, plane_words};
ghost use Rattle.visit.specs.Least.{none, code};

use rules::kinds::{BRANCH, LEAVE, LOOP, SEQUENCE};
use table::Table;
use table::marks::{clear, mark, marked, none_marked};
use visit::facts::fact;
use visit::least::{NONE, lesser, worse};
use visit::noted::note_leave;
use visit::{LEAVES, PLANE, PLANES};

pub mod loose; // loose.rt: question 26

pub(crate) fn holds(planes: &[u32], n: u32) -> bool
    requires { length planes.now ≡ all_planes }
    ensures { result ≡ bit_at (leaves_plane planes.now) (n % 256) }
{
    marked(&planes[LEAVES..PLANES], (n % 256) as usize)
}

fn is_left(planes: &[u32], n: u32) -> bool
    requires { length planes.now ≡ all_planes }
    ensures { result ≡ bit_at (left_plane planes.now) (n % 256) }
{
    marked(&planes[0..PLANE], (n % 256) as usize)
}

fn either_holds(planes: &[u32], x: u32, y: u32) -> bool
    requires { length planes.now ≡ all_planes }
    ensures { result ≡ either_bit (leaves_plane planes.now) x y }
{
    holds(planes, x) || holds(planes, y)
}

// Whether a node is left locally: by itself, if it is local and holds a leave, or since its part x or y is.
fn left_by(planes: &[u32], local: bool, held: bool, x: u32, y: u32) -> bool
    requires { length planes.now ≡ all_planes }
    ensures { result ≡ ((local && held) || either_bit (left_plane planes.now) x y) }
{
    (local && held) || is_left(planes, x) || is_left(planes, y)
}

fn mark_if(marks: &mut [u32], n: usize, bit: bool)
    requires { (n < 256) × (length marks.old ≡ plane_words) }
    ensures { marks.new ≡ cond bit (with_bit marks.old n) marks.old }
{
    if bit {
        mark(marks, n);
    }
}

// Node n, which stands in the same while as its parts x and y; `local` says that it takes one of them by an own condition.
fn join(planes: &mut [u32], n: usize, local: bool, x: u32, y: u32)
    requires { (n < 256) × (length planes.old ≡ all_planes) }
    ensures { Joined n local x y planes.old planes.new }
{
    let held = either_holds(planes, x, y);
    let left = left_by(planes, local, held, x, y);
    mark_if(&mut planes[LEAVES..PLANES], n, held);
    mark_if(&mut planes[0..PLANE], n, left);
}

// Question 16 of while n with body b, where it is left locally.
fn left_by_leave(planes: &[u32], n: usize, b: u32) -> usize
    requires { (n < 256) × (length planes.now ≡ all_planes) }
    ensures { result ≡ cond (bit_at (left_plane planes.now) (b % 256) && bit_at (facts_plane planes.now) (b % 256))
        (code 16 n) none }
{
    if is_left(planes, b) && fact(planes, b) {
        worse(NONE, 16, n)
    } else {
        NONE
    }
}

fn pass_node(table: &Table, planes: &mut [u32], n: usize) -> usize
    requires { Passing well_built table.now.bytes.now × (n < nodes (decode table.now.bytes.now))
        × (length planes.old ≡ all_planes) }
    ensures { NodePassed (decode table.now.bytes.now) n planes.old planes.new result }
{
    match table.kind_at(n) {
        SEQUENCE => {
            let node = table.node_at(n);
            join(planes, n, false, node.a, node.b);
            NONE
        }
        BRANCH => {
            let node = table.node_at(n);
            let local = fact(planes, node.a);
            join(planes, n, local, node.b, node.c);
            NONE
        }
        LOOP => {
            let node = table.node_at(n);
            left_by_leave(planes, n, node.b)
        }
        LEAVE => {
            note_leave(true, planes, n);
            NONE
        }
        _ => NONE,
    }
}

// The nodes from `first` up to `end`, and the least refusal on from `start`.
pub fn pass_nodes(
    table: &Table,
    planes: &mut [u32],
    start: usize,
    first: usize,
    end: usize,
) -> usize
    requires { Passing well_built table.now.bytes.now × (start ≤ none) × (length planes.old ≡ all_planes) × (first ≤ end)
        × (end ≤ nodes (decode table.now.bytes.now)) }
    ensures { NodesPassed (decode table.now.bytes.now) first end start planes.old planes.new result }
{
    // A copy of its own: behind the pointer the loop would read bytes and counts again each turn.
    let own = *table;
    let mut least = start;
    for n in first..end {
        least = lesser(least, pass_node(&own, planes, n));
    }
    least
}

// Both planes of a pass, before its first node.
pub fn clear_leaves(planes: &mut [u32])
    requires { length planes.old ≡ all_planes }
    ensures { Cleared planes.old planes.new }
{
    clear(&mut planes[0..PLANE]);
    clear(&mut planes[LEAVES..PLANES]);
}

// The least refusal once 16 is asked of whiles that are left locally; which nodes hold a leave is kept.
pub fn pass_leaves(table: &Table, planes: &mut [u32], rule: usize) -> usize
    requires passing { Passing well_built table.now.bytes.now × (rule ≤ none) × (length planes.old ≡ all_planes) }
    requires noted_to { NotedTo (decode table.now.bytes.now) (nodes (decode table.now.bytes.now)) (leaves_plane planes.old) }
    ensures { LeavesPassed (decode table.now.bytes.now) (statement_at (decode table.now.bytes.now))
        rule planes.old planes.new result }
{
    if none_marked(&planes[LEAVES..PLANES]) {
        return rule;
    }
    clear_leaves(planes);
    pass_nodes(table, planes, rule, 0, table.header.nodes)
}
