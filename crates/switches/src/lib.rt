// Questions 13 to 17 of a table with switches: "Of an if with a fixed condition only the branch that will be taken is put to questions 13
// to 16 and counted for effects and for U1's own conditions". The sweep counts every node, and what it accepts is accepted. Where it
// refuses by 13 to 17, the statements of dead branches are set aside, a bit a node, and the others are put to the same rules again.
#![tactic(auto)]

ghost use Rattle.std.specs.Prelude.{◌&&◌, ◌≡◌, leb, length, replicate};
ghost use Rattle.rules.specs.Acceptance.{judged_by, judged};
ghost use Rattle.rules.specs.Answers.{◌then◌};
ghost use Rattle.rules.specs.Table.{decode, statement_at};
ghost use Rattle.rules.specs.WellFormed.{well_formed};
ghost use Rattle.table.specs.Header.{Passing};
ghost use Rattle.switches.specs.Again.{Beside};
ghost use Rattle.switches.specs.Aside.{aside_plane, four_planes};
ghost use Rattle.visit.specs.Fields.{plane_words};

use crate::again::{pass_again, visit_again};
use crate::aside::set_aside;
use leaves::clear_leaves;
use rules::Verdict;
use sweep::accepted;
use sweep::bodies::unflagged;
use table::Table;
use table::marks::{clear, none_marked};
use visit::least::verdict;
use visit::{PLANE, PLANES};

mod again; // again.rt: the rules again, over the nodes that count
mod aside; // aside.rt: the statements of dead branches

// The planes of the sweep come first, then that of the statements set aside.
pub const ASIDE: usize = PLANES;

pub const FOUR_PLANES: usize = ASIDE + PLANE;

// Whether a refusal is by one of 13 to 17.
fn by_rules(number: u32) -> bool
    ensures { result ≡ (leb 13 number && leb number 17) }
{
    matches!(number, 13..=17)
}

// Questions 13 to 17 of a table that passes 2 to 12 and 26, where the statements of dead branches are set aside.
fn judge_counted(table: &Table, planes: &mut [u32]) -> Verdict
    requires { Passing well_formed table.now.bytes.now × Beside (decode table.now.bytes.now) planes.old }
    ensures { result ≡ judged (decode table.now.bytes.now) }
{
    clear(&mut planes[0..ASIDE]);
    let guards = visit_again(table, planes);
    clear_leaves(&mut planes[0..ASIDE]);
    let rule = pass_again(table, planes, guards);
    verdict(unflagged(table, &planes[0..ASIDE], rule))
}

// The same of one that gets the answer `whole` if every node counts, which stands where nothing is to be set aside.
fn judge_again(table: &Table, planes: &mut [u32], whole: Verdict) -> Verdict
    requires { Passing well_formed table.now.bytes.now × (length planes.old ≡ four_planes)
        × (aside_plane planes.old ≡ replicate plane_words 0)
        × (whole ≡ judged_by (decode table.now.bytes.now) (statement_at (decode table.now.bytes.now))) }
    ensures { result ≡ judged (decode table.now.bytes.now) }
{
    set_aside(table, &mut planes[ASIDE..FOUR_PLANES]);
    if none_marked(&planes[ASIDE..FOUR_PLANES]) {
        return whole;
    }
    judge_counted(table, planes)
}

// Questions 2 to 12, 26 and 13 to 17, over planes that are zero.
pub fn answer(table: &[u8], planes: &mut [u32]) -> Verdict
    requires { planes.old ≡ replicate four_planes 0 }
    ensures { result ≡ (well_formed table.now then judged (decode table.now)) }
{
    let whole = accepted(table, &mut planes[0..ASIDE]);
    match whole {
        Err(refusal) if by_rules(refusal.number) => judge_again(&Table::of(table), planes, whole),
        _ => whole,
    }
}
