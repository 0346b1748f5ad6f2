// What a table fixes: "Constants are fixed, and so are kinds 6 to 12 over fixed parts", with the value that evaluation gives.
ghost use Rattle.std.specs.Prelude.{◌≡◌};
ghost use Rattle.rules.specs.Judgement.{fixing};
ghost use Rattle.values.specs.Fixed.{fixed_as};
ghost use Rattle.values.specs.Given.{Part};
ghost use Rattle.rules.specs.Table.{decode};
ghost use Rattle.rules.specs.WellFormed.{well_formed};
ghost use Rattle.table.specs.Header.{Passing};

use crate::evaluation::{apply, constant};
use rules::kinds::{CONSTANT, SUM};
use table::Table;

// Calls itself on the parts, which lie below the node: the node number falls.
pub fn fixing(table: &Table, n: usize) -> Option<u32>
    requires { Passing well_formed table.now.bytes.now × Part (decode table.now.bytes.now) n }
    ensures { fixed_as result ≡ fixing (decode table.now.bytes.now) n }
{
    let node = table.node_at(n);
    if node.kind == CONSTANT {
        return Some(constant(node));
    }
    if node.kind < SUM {
        return None;
    }
    let first = fixing(table, node.a as usize)?;
    let second = fixing(table, node.b as usize)?;
    Some(apply(node.kind, first, second))
}
