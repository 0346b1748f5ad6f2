// The nearest while (a loop) around a statement: on the way up to its procedure's body, the first while. And whether there is a leave
// at all, which is what asks for it.
#![tactic(auto)]

ghost use Rattle.std.specs.Prelude.{cond, ◌≡◌, ◌<◌};
ghost use Rattle.rules.specs.Table.{decode, nodes};
ghost use Rattle.rules.specs.WellFormed.{nearest_loop, well_built};
ghost use Rattle.table.specs.Header.{Passing};
ghost use Rattle.loops.specs.Upward.{has_body, has_part, has_leave};

use rules::Node;
use rules::kinds::{BRANCH, LEAVE, LOOP, SEQUENCE};
use table::Table;

fn has_body(node: Node, n: usize) -> bool
    ensures { result ≡ has_body node n }
{
    node.kind == LOOP && node.b as usize == n
}

fn has_part(node: Node, n: usize) -> bool
    ensures { result ≡ has_part node n }
{
    match node.kind {
        SEQUENCE => node.a as usize == n || node.b as usize == n,
        BRANCH => node.b as usize == n || node.c as usize == n,
        _ => false,
    }
}

// Node m if it has node n as such a part, and else n still.
fn outward(node: Node, m: usize, n: usize) -> usize
    ensures { result ≡ cond (has_part node n) m n }
{
    if has_part(node, n) { m } else { n }
}

// "the nearest while around it in the same procedure", or the number of nodes. Parts lie below the node that names them, so one
// pass up the nodes meets what names a node after it.
pub fn nearest_loop(table: &Table, n: usize) -> usize
    requires { Passing well_built table.now.bytes.now × (n < nodes (decode table.now.bytes.now)) }
    ensures { result ≡ nearest_loop (decode table.now.bytes.now) n }
{
    let mut inner = n;
    for m in n + 1..table.header.nodes {
        let node = table.node_at(m);
        if has_body(node, inner) {
            return m;
        }
        inner = outward(node, m, inner);
    }
    table.header.nodes
}

// Whether the table has a leave.
pub fn has_leave(table: &Table) -> bool
    requires { Passing well_built table.now.bytes.now }
    ensures { result ≡ has_leave (decode table.now.bytes.now) }
{
    (0..table.header.nodes).any(|n| table.kind_at(n) == LEAVE)
}
