// Question 26: has each leave a while around it? It has if no procedure's body holds a leave that stands in no while; else the
// first that has none is looked for.
ghost use Rattle.std.specs.Prelude.{not, ◌≡◌, ◌%◌, ◌<◌, length};
ghost use Rattle.leaves.specs.Leaves.{HeldTo};
ghost use Rattle.rules.specs.Choice.{first_failing, all_below};
ghost use Rattle.rules.specs.Table.{decode, procedures, nodes, body, statement_at};
ghost use Rattle.rules.specs.WellFormed.{leave_enclosed, well_built};
ghost use Rattle.table.specs.Header.{Passing};
ghost use Rattle.table.specs.Marks.{bit_at};
ghost use Rattle.visit.specs.Fields.{leaves_plane, all_planes};

use crate::holds;
use loops::nearest_loop;
use rules::kinds::LEAVE;
use table::Table;

// Whether the body of procedure p holds no leave.
fn body_closed(table: &Table, planes: &[u32], p: usize) -> bool
    requires { Passing well_built table.now.bytes.now × (length planes.now ≡ all_planes) × (p < table.now.header.procedures) }
    ensures { result ≡ not (bit_at (leaves_plane planes.now) (body (decode table.now.bytes.now) p % 256)) }
{
    !holds(planes, table.body(p) as u32)
}

fn bodies_closed(table: &Table, planes: &[u32]) -> bool
    requires { Passing well_built table.now.bytes.now × (length planes.now ≡ all_planes) }
    ensures { result ≡ all_below (λ p. not (bit_at (leaves_plane planes.now) (body (decode table.now.bytes.now) p % 256)))
        (procedures (decode table.now.bytes.now)) }
{
    (0..table.header.procedures).all(|p| body_closed(table, planes, p))
}

fn enclosed(table: &Table, n: usize) -> bool
    requires { Passing well_built table.now.bytes.now × (n < nodes (decode table.now.bytes.now)) }
    ensures { result ≡ leave_enclosed (decode table.now.bytes.now) n }
{
    table.kind_at(n) != LEAVE || nearest_loop(table, n) < table.header.nodes
}

fn first_open(table: &Table) -> usize
    requires { Passing well_built table.now.bytes.now }
    ensures { result ≡ first_failing (leave_enclosed (decode table.now.bytes.now)) (nodes (decode table.now.bytes.now)) }
{
    for n in 0..table.header.nodes {
        if !enclosed(table, n) {
            return n;
        }
    }
    table.header.nodes
}

// The first leave with no while around it, in a table whose nodes are all visited.
pub fn first_loose(table: &Table, planes: &[u32]) -> usize
    requires passing { Passing well_built table.now.bytes.now × (length planes.now ≡ all_planes) }
    requires held_to { HeldTo (decode table.now.bytes.now) (statement_at (decode table.now.bytes.now))
        (nodes (decode table.now.bytes.now)) (leaves_plane planes.now) }
    ensures { result ≡ first_failing (leave_enclosed (decode table.now.bytes.now)) (nodes (decode table.now.bytes.now)) }
{
    if bodies_closed(table, planes) {
        return table.header.nodes;
    }
    first_open(table)
}
