// The facts, a bit a node: an expression that is not single, or a statement with a global effect. A rule of 13 to 16 fails where a
// statement has an effect and the expression that guards it is not single.
ghost use Rattle.std.specs.Prelude.{true, ◌||◌, ◌≡◌, ◌%◌, ◌<◌, length};
ghost use Rattle.table.specs.Marks.{bit_at};
ghost use Rattle.visit.specs.declared.facts.Source.TheVariants.{Called};
ghost use Rattle.visit.specs.Facts.{sourced, Settled, ruled};
ghost use Rattle.visit.specs.Fields.{facts_plane, all_planes};
ghost use Rattle.rules.specs.Table.{decode};

use crate::least::{NONE, worse};
use crate::{LEAVES, PLANE, STUCK, Visit};
use rules::Node;
use table::Table;
use table::marks::{mark, marked};

// Where a node's fact comes from.
#[derive(Clone, Copy, Debug, PartialEq, Eq)]
pub enum Source {
    Never,
    Always,
    Unflagged,
    Flagged,
    Called,
    OfA,
    OfB,
    OfAOrB,
    OfBOrC,
}

// The question of a node that is put to none of 13 to 16.
pub const UNRULED: usize = 0;

pub fn fact(planes: &[u32], n: u32) -> bool
    requires { length planes.now ≡ all_planes }
    ensures { result ≡ bit_at (facts_plane planes.now) (n % 256) }
{
    marked(&planes[PLANE..LEAVES], (n % 256) as usize)
}

fn either(planes: &[u32], a: u32, b: u32) -> bool
    requires { length planes.now ≡ all_planes }
    ensures { result ≡ (bit_at (facts_plane planes.now) (a % 256) || bit_at (facts_plane planes.now) (b % 256)) }
{
    fact(planes, a) || fact(planes, b)
}

fn fact_from(table: &Table, planes: &[u32], node: Node, source: Source) -> bool
    requires { (length planes.now ≡ all_planes) × (source ≡ Called → node.a < table.now.header.procedures) }
    ensures { result ≡ sourced (decode table.now.bytes.now) (facts_plane planes.now) node source }
{
    match source {
        Source::Never => false,
        Source::Always => true,
        Source::Unflagged => !table.flagged((node.a % 32) as usize),
        Source::Flagged => table.flagged((node.a % 32) as usize),
        Source::Called => table.effect_flag(node.a as usize),
        Source::OfA => fact(planes, node.a),
        Source::OfB => fact(planes, node.b),
        Source::OfAOrB => either(planes, node.a, node.b),
        Source::OfBOrC => either(planes, node.b, node.c),
    }
}

// The fact of a node whose fields passed, and the refusal by its rule: `question`, whose guard is the expression named.
pub fn settled(
    used: bool,
    table: &Table,
    planes: &mut [u32],
    visit: Visit,
    node: Node,
    source: Source,
    question: usize,
    guard: u32,
) -> usize
    requires inside { (visit.node < table.now.header.nodes) × (length planes.old ≡ all_planes) }
    requires question_bound { (question < 17) × (used ≡ true → source ≡ Called → node.a < table.now.header.procedures) }
    ensures { Settled (decode table.now.bytes.now) visit node used source question guard planes.old planes.new result }
{
    if !used {
        return STUCK;
    }
    if !fact_from(table, planes, node, source) {
        return NONE;
    }
    let local = fact(planes, guard);
    mark(&mut planes[PLANE..LEAVES], visit.node % 256);
    ruled(local, question, visit.node)
}

#[tactic(auto, unfolding(crate::specs::Facts::ruled))]
fn ruled(local: bool, question: usize, n: usize) -> usize
    requires { (question < 17) × (n < 256) }
    ensures { result ≡ ruled local question n }
{
    if question != UNRULED && local {
        return worse(NONE, question, n);
    }
    NONE
}
