// All nodes in their order: quickly while nothing fails, from body to body as long as these stand in their procedures' order.
ghost use Rattle.std.specs.Prelude.{◌≡◌, ◌≤◌, length, replicate};
ghost use Rattle.rules.specs.Table.{decode};
ghost use Rattle.sweep.specs.Nodes.{Quickly, InBlocks, AllNodes};
ghost use Rattle.visit.specs.Least.{none};
ghost use Rattle.visit.specs.Fields.{all_planes};

use crate::{Blocked, Found, Reached};
use quick::quick;
use table::Table;
use visit::exact::exact;
use visit::least::{NONE, lesser};
use visit::{PLANE, STUCK, Visit};

// On over the nodes at which nothing fails, up to `end` or the first that is stuck.
pub fn sweep_quickly(
    table: &Table,
    planes: &mut [u32],
    first: Visit,
    end: usize,
    start: usize,
) -> Reached
    requires { (first.node ≤ end) × (end ≤ table.now.header.nodes) × (length planes.old ≡ all_planes) × (start ≤ none) }
    ensures { Quickly (decode table.now.bytes.now) first end start planes.old planes.new result }
{
    // A copy of its own: behind the pointer the loop would read bytes and counts again each turn.
    let own = *table;
    let mut rule = start;
    for node in first.node..end {
        let visit = Visit {
            node,
            limit: first.limit,
        };
        let packed = own.packed_at(node);
        let found = quick(&own, planes, visit, packed);
        if found == STUCK {
            return Reached { node, rule };
        }
        rule = lesser(rule, found);
    }
    Reached { node: end, rule }
}

// Block by block, each the nodes up to its procedure's body, as long as the bodies stand in their procedures' order and the nodes call
// lower ones only.
fn sweep_blocks(table: &Table, planes: &mut [u32]) -> Blocked
    requires { planes.old ≡ replicate all_planes 0 }
    ensures { InBlocks (decode table.now.bytes.now) planes.new result }
{
    let mut reached = Reached {
        node: 0,
        rule: NONE,
    };
    for p in 0..table.header.procedures {
        let last = table.body(p);
        if last < reached.node || table.header.nodes <= last {
            return Blocked {
                reached,
                ordered: false,
            };
        }
        let first = Visit {
            node: reached.node,
            limit: p,
        };
        reached = sweep_quickly(table, planes, first, last + 1, reached.rule);
        if reached.node <= last {
            return Blocked {
                reached,
                ordered: false,
            };
        }
    }
    Blocked {
        reached,
        ordered: true,
    }
}

// The nodes from there on, wherever they stand.
fn sweep_rest(table: &Table, planes: &mut [u32], blocked: Blocked) -> Found
    requires { InBlocks (decode table.now.bytes.now) planes.old blocked }
    ensures { AllNodes (decode table.now.bytes.now) planes.new result }
{
    let count = table.header.nodes;
    let limit = table.header.procedures;
    let mut best = NONE;
    let first = Visit {
        node: blocked.reached.node,
        limit,
    };
    let mut reached = sweep_quickly(table, planes, first, count, blocked.reached.rule);
    // A quick sweep says itself how far it got.
    while reached.node < count {
        let n = reached.node;
        best = exact(table, &mut planes[0..PLANE], best, n);
        let next = Visit { node: n + 1, limit };
        reached = sweep_quickly(table, planes, next, count, reached.rule);
    }
    Found {
        best,
        rule: reached.rule,
        ordered: blocked.ordered,
    }
}

pub(crate) fn sweep_nodes(table: &Table, planes: &mut [u32]) -> Found
    requires { planes.old ≡ replicate all_planes 0 }
    ensures { AllNodes (decode table.now.bytes.now) planes.new result }
{
    let blocked = sweep_blocks(table, planes);
    sweep_rest(table, planes, blocked)
}
