// What exactly fails at a node at which something does.
ghost use Rattle.std.specs.Prelude.{true, [], ◌∷◌, ◌≡◌, ◌*◌, ◌<◌, length};
ghost use Rattle.rules.specs.Table.{decode, node_at};
ghost use Rattle.rules.specs.WellFormed.{node_fits, parts_at};
ghost use Rattle.visit.specs.Exact.{noted_code, repeated_code, node_best, node_marks};
ghost use Rattle.table.specs.Marks.{with_bit, with_bits};
ghost use Rattle.table.specs.Roles.{is_part, field_parts};
ghost use Rattle.visit.specs.Fields.{plane_words};

use crate::least::worse;
use table::Table;
use table::fields::{Role, is_part, roles_of, unnamed_zero};
use table::marks::{mark, marked};

// Marks node n, and answers the least refusal then.
pub fn note(marks: &mut [u32], best: usize, n: usize) -> usize
    requires { (n < 256) × (length marks.old ≡ plane_words) }
    ensures { (result ≡ noted_code marks.old best n) × (marks.new ≡ with_bit marks.old n) }
{
    if marked(marks, n) {
        return worse(best, 11, n);
    }
    mark(marks, n);
    best
}

fn note_field(marks: &mut [u32], best: usize, role: Role, value: usize) -> usize
    requires { (is_part role ≡ true → value < 256) × (length marks.old ≡ plane_words) }
    ensures { (result ≡ repeated_code marks.old best (field_parts role value))
        × (marks.new ≡ with_bits marks.old (field_parts role value)) }
{
    if is_part(role) {
        return note(marks, best, value);
    }
    best
}

fn note_parts(table: &Table, marks: &mut [u32], best: usize, n: usize) -> usize
    requires { (n < table.now.header.nodes) × (length marks.old ≡ plane_words)
        × (node_fits (decode table.now.bytes.now) n ≡ true) }
    ensures { (result ≡ repeated_code marks.old best (parts_at (decode table.now.bytes.now) n))
        × (marks.new ≡ with_bits marks.old (parts_at (decode table.now.bytes.now) n)) }
{
    let node = table.node_at(n);
    let roles = roles_of(node.kind);
    let after_a = note_field(marks, best, roles.a, node.a as usize);
    let after_b = note_field(marks, after_a, roles.b, node.b as usize);
    note_field(marks, after_b, roles.c, node.c as usize)
}

pub fn exact(table: &Table, marks: &mut [u32], best: usize, n: usize) -> usize
    requires { (n < table.now.header.nodes) × (length marks.old ≡ plane_words) }
    ensures { (result ≡ node_best (decode table.now.bytes.now) n marks.old best)
        × (marks.new ≡ node_marks (decode table.now.bytes.now) n marks.old) }
{
    if !table.kind_known(n) {
        return worse(best, 7, n);
    }
    if !unnamed_zero(table.node_at(n)) {
        return worse(best, 8, n);
    }
    if !table.node_fits(n) {
        return worse(best, 9, n);
    }
    note_parts(table, marks, best, n)
}
