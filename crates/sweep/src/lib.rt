// Questions 2 to 12, 26 and 13 to 17 in one exact sweep: each node once, each procedure once, and the least refusal kept. "Lowest number
// first, then lowest place" is the least of all refusals, so they may be met in any order. Where there are leaves, the nodes are passed
// over once more for them. Every node counts as what it is here; what a switch leaves out is for crate `switches`.
#![tactic(auto)]

ghost use Rattle.std.specs.Prelude.{true, ◌≡◌, length, replicate};
ghost use Rattle.rules.specs.Acceptance.{judged_by};
ghost use Rattle.rules.specs.Answers.{◌then◌, Accepted};
ghost use Rattle.rules.specs.Table.{decode, nodes, statement_at};
ghost use Rattle.rules.specs.WellFormed.{question12, well_formed};
ghost use Rattle.sweep.specs.Asked.{Filled, FirstCall, calls_asked, asked};
ghost use Rattle.sweep.specs.Nodes.{KeptTo};
ghost use Rattle.sweep.specs.Swept.{filled_verdict};
ghost use Rattle.table.specs.Sized.{shape_verdict};
ghost use Rattle.visit.specs.Fields.{all_planes};

use crate::bodies::{sweep_uses, unflagged};
use crate::nodes::sweep_nodes;
use calls::first_miscalled;
use leaves::loose::first_loose;
use leaves::pass_leaves;
use rules::Verdict;
use table::Table;
use table::marks::clear;
use table::shape::{refused, shape};
use visit::least::{NONE, verdict};
use visit::{PLANE, PLANES};

pub mod bodies; // bodies.rt: questions 6, 10 and 17, and 11 of nodes that are not used
pub mod nodes; // nodes.rt: questions 7, 8, 9, 13 to 16 and 11 of nodes that are used twice

// The words of the planes; once the nodes are swept, the first plane serves question 12 and then the leaves.
pub const PLANE_WORDS: usize = PLANES;

// How far a sweep got, and the least refusal of 13 to 16 on the way, as far as that does not look at leaves.
#[derive(Clone, Copy)]
pub struct Reached {
    pub node: usize,
    pub rule: usize,
}

// The same of a sweep by blocks, and whether the bodies stood in their procedures' order and every call went down.
#[derive(Clone, Copy)]
pub struct Blocked {
    pub reached: Reached,
    pub ordered: bool,
}

// Of all nodes: the least refusal of 7, 8, 9 and 11, and that of 13 to 16, as far as that does not look at leaves.
#[derive(Clone, Copy)]
pub struct Found {
    pub best: usize,
    pub rule: usize,
    pub ordered: bool,
}

// Question 12 of a table that passes 2 to 11: the walk only where the bodies do not stand in order, or a call seems to go up.
fn first_call(table: &Table, planes: &mut [u32], ordered: bool) -> usize
    requires { Filled table.now.bytes.now × (length planes.old ≡ all_planes)
        × (ordered ≡ true → question12 (decode table.now.bytes.now) ≡ Accepted) }
    ensures { FirstCall (decode table.now.bytes.now) planes.old planes.new result }
{
    if ordered {
        return table.header.nodes;
    }
    clear(&mut planes[0..PLANE]);
    first_miscalled(table, &mut planes[0..PLANE])
}

// Questions 12, 26 and 13 to 17 of a table that passes 2 to 11, the last five only if it is judged.
fn ask_calls(table: &Table, planes: &mut [u32], judged: bool, found: Found) -> Verdict
    requires filled { Filled table.now.bytes.now × (length planes.old ≡ all_planes)
        × (found.ordered ≡ true → question12 (decode table.now.bytes.now) ≡ Accepted) }
    requires kept_to { KeptTo (decode table.now.bytes.now) (nodes (decode table.now.bytes.now)) found.rule planes.old }
    ensures { result ≡ calls_asked judged (decode table.now.bytes.now) }
{
    let call = first_call(table, planes, found.ordered);
    if call < table.header.nodes {
        return refused(12, call as u32);
    }
    let rule = pass_leaves(table, planes, found.rule);
    let leave = first_loose(table, planes);
    if leave < table.header.nodes {
        return refused(26, leave as u32);
    }
    if judged {
        return verdict(unflagged(table, planes, rule));
    }
    Ok(())
}

// Questions 6 to 12, 26 and 13 to 17 of a table that passes 2 to 5.
fn ask_contents(table: &Table, planes: &mut [u32], judged: bool) -> Verdict
    requires { (shape_verdict table.now.bytes.now ≡ Accepted) × (planes.old ≡ replicate all_planes 0) }
    ensures { result ≡ (filled_verdict table.now.bytes.now then calls_asked judged (decode table.now.bytes.now)) }
{
    let found = sweep_nodes(table, planes);
    let best = sweep_uses(table, &mut planes[0..PLANE], found.best);
    if best < NONE {
        return verdict(best);
    }
    ask_calls(table, planes, judged, found)
}

// Questions 2 to 12, 26 and 13 to 17, the last five only if the table is judged, over planes that are zero.
fn ask(table: &[u8], planes: &mut [u32], judged: bool) -> Verdict
    requires { planes.old ≡ replicate all_planes 0 }
    ensures { result ≡ asked judged table.now }
{
    shape(table)?;
    ask_contents(&Table::of(table), planes, judged)
}

// Questions 2 to 12 and 26.
pub fn well_formed(table: &[u8], planes: &mut [u32]) -> Verdict
    requires { planes.old ≡ replicate all_planes 0 }
    ensures { result ≡ well_formed table.now }
{
    ask(table, planes, false)
}

// Questions 2 to 12, 26 and 13 to 17, where every node counts.
pub fn accepted(table: &[u8], planes: &mut [u32]) -> Verdict
    requires { planes.old ≡ replicate all_planes 0 }
    ensures { result ≡ (well_formed table.now then judged_by (decode table.now) (statement_at (decode table.now))) }
{
    ask(table, planes, true)
}
