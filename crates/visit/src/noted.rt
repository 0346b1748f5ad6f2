// The leaves of a table, a bit a node, noted as they are met. What holds them is for crate `leaves`.
ghost use Rattle.std.specs.Prelude.{true, ◌≡◌, ◌<◌, length};
ghost use Rattle.table.specs.Marks.{with_bit};
ghost use Rattle.visit.specs.Fields.{leaves_plane, all_planes, Kept};

use crate::{LEAVES, PLANES};
use table::marks::mark;

// Notes leave n, where its fields passed.
pub fn note_leave(used: bool, planes: &mut [u32], n: usize)
    requires { (n < 256) × (length planes.old ≡ all_planes) }
    ensures kept { Kept used planes.old planes.new }
    ensures planes_after { used ≡ true → leaves_plane planes.new ≡ with_bit (leaves_plane planes.old) n }
{
    if used {
        mark(&mut planes[LEAVES..PLANES], n);
    }
}
