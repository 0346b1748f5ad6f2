// The rules again, over the nodes that count: each stretch of them is swept as the first time, and passed over for its leaves.
ghost use Rattle.std.specs.Prelude.{◌≡◌, ◌≤◌, ◌<◌, ℕ, length, replicate, MatchOption};
ghost use Rattle.leaves.specs.Leaves.{left_plane, LeavesPassed};
ghost use Rattle.rules.specs.Judgement.{counted};
ghost use Rattle.rules.specs.Table.{decode, nodes};
ghost use Rattle.rules.specs.WellFormed.{well_formed};
ghost use Rattle.table.specs.Header.{Passing};
ghost use Rattle.switches.specs.Again.{Stretch, AllMarked, Beside, VisitedTo};
ghost use Rattle.switches.specs.Aside.{four_planes, work_planes, aside_plane};
ghost use Rattle.visit.specs.Fields.{leaves_plane, plane_words, all_planes};
ghost use Rattle.visit.specs.Least.{none};

use crate::{ASIDE, FOUR_PLANES};
use leaves::pass_nodes;
use loops::has_leave;
use sweep::nodes::sweep_quickly;
use table::Table;
use table::marks::marked;
use visit::Visit;
use visit::least::NONE;

// Where the nodes from n on that count end: at one that is set aside, or behind the last.
fn stretch_end(planes: &[u32], n: usize, count: usize) -> usize
    requires { (length planes.now ≡ four_planes) × (n ≤ count) × (count ≤ 256) }
    ensures { Stretch (aside_plane planes.now) n count result }
{
    for end in n..count {
        if marked(&planes[ASIDE..FOUR_PLANES], end) {
            return end;
        }
    }
    count
}

// The next stretch of nodes that count, from n on: its first node and its end. There is none where all are set aside.
fn next_stretch(planes: &[u32], n: usize, count: usize) -> Option<(usize, usize)>
    requires { (length planes.now ≡ four_planes) × (n ≤ count) × (count ≤ 256) }
    ensures { MatchOption result (AllMarked (aside_plane planes.now) n count)
        (λ (s : ℕ × ℕ). AllMarked (aside_plane planes.now) n s.0 × (n ≤ s.0) × (s.0 < s.1) × Stretch (aside_plane planes.now) s.0 count s.1) }
{
    for first in n..count {
        if !marked(&planes[ASIDE..FOUR_PLANES], first) {
            return Some((first, stretch_end(planes, first, count)));
        }
    }
    None
}

// The least refusal of 13 to 16 at the nodes that count, as far as that does not look at leaves; their facts are kept.
pub(crate) fn visit_again(table: &Table, planes: &mut [u32]) -> usize
    requires { Passing well_formed table.now.bytes.now × Beside (decode table.now.bytes.now) planes.old
        × (work_planes planes.old ≡ replicate all_planes 0) }
    ensures { Beside (decode table.now.bytes.now) planes.new
        × VisitedTo (decode table.now.bytes.now) (nodes (decode table.now.bytes.now)) (work_planes planes.new) result }
{
    let mut least = NONE;
    let mut n = 0;
    while let Some((node, end)) = next_stretch(planes, n, table.header.nodes) {
        let first = Visit {
            node,
            limit: table.header.procedures,
        };
        least = sweep_quickly(table, &mut planes[0..ASIDE], first, end, least).rule;
        n = end;
    }
    least
}

// The least refusal once 16 is asked of whiles that are left locally and count, over planes that are cleared for it.
pub(crate) fn pass_again(table: &Table, planes: &mut [u32], rule: usize) -> usize
    requires passing { Passing well_formed table.now.bytes.now × Beside (decode table.now.bytes.now) planes.old × (rule ≤ none) }
    requires planes_value { (left_plane (work_planes planes.old) ≡ replicate plane_words 0) × (leaves_plane (work_planes planes.old) ≡ replicate plane_words 0) }
    ensures { Beside (decode table.now.bytes.now) planes.new
        × LeavesPassed (decode table.now.bytes.now) (counted (decode table.now.bytes.now)) rule
        (work_planes planes.old) (work_planes planes.new) result }
{
    if !has_leave(table) {
        return rule;
    }
    let mut least = rule;
    let mut n = 0;
    while let Some((first, end)) = next_stretch(planes, n, table.header.nodes) {
        least = pass_nodes(table, &mut planes[0..ASIDE], least, first, end);
        n = end;
    }
    least
}
