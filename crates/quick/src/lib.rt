// A node at which nothing fails: one match on the kind gives the roles of its fields, where its fact comes from, and its rule.
#![tactic(auto)]

ghost use Rattle.std.specs.Prelude.{◌≡◌, ◌<◌, length};
ghost use Rattle.rules.specs.Table.{decode, unpacked, node_at};
ghost use Rattle.quick.specs.Visited.{Visited};
ghost use Rattle.visit.specs.Fields.{all_planes};

use rules::kinds::{
    ASSIGN, BARRIER, BOTH, BRANCH, BROADCAST, CALL, CONSTANT, DIFFERENCE, DOOR, EQUAL, EXCHANGE,
    LATCH, LEAVE, LESS, LOOP, NOTHING, OWN_NUMBER, PROCESS_COUNT, PRODUCT, QUOTIENT, SEQUENCE,
    SLOT, SUM, VARIABLE,
};
use table::Table;
use table::fields::Role::{Area, Expression, Half, Procedure, Statement, Unnamed, Variable};
use table::words::{kind_of, unpacked};
use visit::facts::Source::{Always, Called, Flagged, Never, OfA, OfAOrB, OfB, OfBOrC, Unflagged};
use visit::facts::{UNRULED, settled};
use visit::fields::fields;
use visit::noted::note_leave;
use visit::{STUCK, Visit};

// The refusal by the node's rule, once its parts are used, its fact and a leave noted; STUCK, and nothing changed, where a field does not
// pass. Whether a while is left locally is not looked at here.
pub fn quick(table: &Table, planes: &mut [u32], visit: Visit, packed: u32) -> usize
    requires inside { (visit.node < table.now.header.nodes) × (length planes.old ≡ all_planes) }
    requires packed_value { unpacked packed ≡ node_at (decode table.now.bytes.now) visit.node }
    ensures { Visited (decode table.now.bytes.now) visit planes.old planes.new result }
{
    match kind_of(packed) {
        CONSTANT => {
            let node = unpacked(packed);
            let used = fields(table, planes, visit, node, Unnamed, Half, Half);
            settled(used, table, planes, visit, node, Never, UNRULED, node.a)
        }
        VARIABLE => {
            let node = unpacked(packed);
            let used = fields(table, planes, visit, node, Variable, Unnamed, Unnamed);
            settled(used, table, planes, visit, node, Unflagged, UNRULED, node.a)
        }
        OWN_NUMBER | BARRIER => {
            let node = unpacked(packed);
            let used = fields(table, planes, visit, node, Unnamed, Unnamed, Unnamed);
            settled(used, table, planes, visit, node, Always, UNRULED, node.a)
        }
        PROCESS_COUNT | NOTHING => {
            let node = unpacked(packed);
            let used = fields(table, planes, visit, node, Unnamed, Unnamed, Unnamed);
            settled(used, table, planes, visit, node, Never, UNRULED, node.a)
        }
        DOOR => {
            let node = unpacked(packed);
            let used = fields(table, planes, visit, node, Expression, Unnamed, Unnamed);
            settled(used, table, planes, visit, node, Always, UNRULED, node.a)
        }
        SLOT => {
            let node = unpacked(packed);
            let used = fields(table, planes, visit, node, Expression, Area, Unnamed);
            settled(used, table, planes, visit, node, OfA, UNRULED, node.a)
        }
        SUM | DIFFERENCE | PRODUCT | QUOTIENT | LESS | EQUAL | BOTH => {
            let node = unpacked(packed);
            let used = fields(table, planes, visit, node, Expression, Expression, Unnamed);
            settled(used, table, planes, visit, node, OfAOrB, UNRULED, node.a)
        }
        ASSIGN => {
            let node = unpacked(packed);
            let used = fields(table, planes, visit, node, Variable, Expression, Unnamed);
            settled(used, table, planes, visit, node, Flagged, 13, node.b)
        }
        SEQUENCE => {
            let node = unpacked(packed);
            let used = fields(table, planes, visit, node, Statement, Statement, Unnamed);
            settled(used, table, planes, visit, node, OfAOrB, UNRULED, node.a)
        }
        BRANCH => {
            let node = unpacked(packed);
            let used = fields(table, planes, visit, node, Expression, Statement, Statement);
            settled(used, table, planes, visit, node, OfBOrC, 15, node.a)
        }
        LOOP => {
            let node = unpacked(packed);
            let used = fields(table, planes, visit, node, Expression, Statement, Unnamed);
            settled(used, table, planes, visit, node, OfB, 16, node.a)
        }
        CALL => {
            let node = unpacked(packed);
            let used = fields(table, planes, visit, node, Procedure, Unnamed, Unnamed);
            settled(used, table, planes, visit, node, Called, UNRULED, node.a)
        }
        LATCH => {
            let node = unpacked(packed);
            let used = fields(table, planes, visit, node, Expression, Expression, Unnamed);
            settled(used, table, planes, visit, node, Never, UNRULED, node.a)
        }
        BROADCAST => {
            let node = unpacked(packed);
            let used = fields(table, planes, visit, node, Variable, Expression, Expression);
            settled(used, table, planes, visit, node, Always, 14, node.c)
        }
        EXCHANGE => {
            let node = unpacked(packed);
            let used = fields(table, planes, visit, node, Expression, Area, Unnamed);
            settled(used, table, planes, visit, node, Always, UNRULED, node.a)
        }
        LEAVE => {
            let node = unpacked(packed);
            let used = fields(table, planes, visit, node, Unnamed, Unnamed, Unnamed);
            note_leave(used, planes, visit.node);
            settled(used, table, planes, visit, node, Never, UNRULED, node.a)
        }
        _ => STUCK,
    }
}
