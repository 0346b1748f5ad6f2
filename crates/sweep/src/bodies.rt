// The procedures of a table whose nodes are swept: questions 6, 10, 11 of bodies and of nodes that are not used, and 17.
ghost use Rattle.std.specs.Prelude.{◌≡◌, ◌<◌, ◌≤◌, min, length};
ghost use Rattle.rules.specs.Table.{decode, procedures};
ghost use Rattle.sweep.specs.Asked.{Filled, effect_code};
ghost use Rattle.sweep.specs.Swept.{body_best, body_marks, unused_best, AfterNodes, AfterBodies, Uses};
ghost use Rattle.visit.specs.Fields.{facts_plane, all_planes, plane_words};
ghost use Rattle.visit.specs.Least.{none, least_below};

use table::Table;
use table::marks::{first_unmarked, marked};
use visit::exact::note;
use visit::least::worse;
use visit::{LEAVES, PLANE};

// The least refusal by question 11.
const UNUSED: usize = 11 * 65536;

// Questions 6 and 10 of a procedure, and 11 as far as its body was used before.
fn sweep_body(table: &Table, marks: &mut [u32], best: usize, p: usize) -> usize
    requires { (p < table.now.header.procedures) × (length marks.old ≡ plane_words) }
    ensures { (result ≡ body_best table.now.bytes.now p marks.old best)
        × (marks.new ≡ body_marks table.now.bytes.now p marks.old) }
{
    if !table.procedure_fits(p) {
        return worse(best, 6, p);
    }
    if !table.body_is_statement(p) {
        return worse(best, 10, p);
    }
    note(marks, best, table.body(p))
}

fn sweep_bodies(table: &Table, marks: &mut [u32], first: usize) -> usize
    requires { (length marks.old ≡ plane_words) × AfterNodes (decode table.now.bytes.now) first marks.old }
    ensures { AfterBodies table.now.bytes.now result marks.new × (length marks.new ≡ plane_words) × (result ≤ first) }
{
    let mut best = first;
    for p in 0..table.header.procedures {
        best = sweep_body(table, marks, best, p);
    }
    best
}

// Question 11 of nodes that were never used, unless an earlier question fails.
fn unused(marks: &[u32], count: usize, best: usize) -> usize
    requires { (length marks.now ≡ plane_words) × (count ≤ 256) × (best ≤ none) }
    ensures { result ≡ unused_best count marks.now best }
{
    if best < UNUSED {
        return best;
    }
    let place = first_unmarked(marks, count);
    if count <= place {
        return best;
    }
    worse(best, 11, place)
}

// The least refusal of 6 to 11 once the nodes are swept.
pub(crate) fn sweep_uses(table: &Table, marks: &mut [u32], first: usize) -> usize
    requires { (length marks.old ≡ plane_words) × AfterNodes (decode table.now.bytes.now) first marks.old }
    ensures { Uses table.now.bytes.now first result }
{
    let best = sweep_bodies(table, marks, first);
    unused(marks, table.header.nodes, best)
}

// Question 17 of a procedure, by the fact of its body.
fn flag_body(table: &Table, planes: &[u32], best: usize, p: usize) -> usize
    requires { Filled table.now.bytes.now × (p < table.now.header.procedures) × (length planes.now ≡ all_planes) × (best ≤ none) }
    ensures { result ≡ min best (effect_code (decode table.now.bytes.now) (facts_plane planes.now) p) }
{
    if !marked(&planes[PLANE..LEAVES], table.body(p)) {
        return best;
    }
    if table.effect_flag(p) {
        return best;
    }
    worse(best, 17, p)
}

// The least refusal of 13 to 17 from that of 13 to 16.
pub fn unflagged(table: &Table, planes: &[u32], rule: usize) -> usize
    requires { Filled table.now.bytes.now × (length planes.now ≡ all_planes) × (rule ≤ none) }
    ensures { result ≡ min rule (least_below (effect_code (decode table.now.bytes.now) (facts_plane planes.now))
        (procedures (decode table.now.bytes.now))) }
{
    let mut best = rule;
    for p in 0..table.header.procedures {
        best = flag_body(table, planes, best, p);
    }
    best
}
