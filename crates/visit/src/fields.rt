// The fields of a node at which nothing fails. Nothing is marked until all tests have passed.
ghost use Rattle.std.specs.Prelude.{true, false, ◌≡◌, ◌<◌, length};
ghost use Rattle.table.specs.Marks.{with_bits};
ghost use Rattle.table.specs.Roles.{three, is_part, field_parts};
ghost use Rattle.visit.specs.Fields.{within, field_free, distinct, fields_free, Used, Fields, all_planes, plane_words};
ghost use Rattle.rules.specs.Table.{decode};

use crate::{PLANE, Visit};
use rules::Node;
use table::Table;
use table::fields::{Role, field_zero, is_part};
use table::marks::{mark, marked};

fn within(visit: Visit, role: Role, value: usize) -> bool
    ensures { result ≡ within visit.limit role value }
{
    match role {
        Role::Procedure => value < visit.limit,
        _ => true,
    }
}

#[tactic(auto, unfolding(crate::specs::Fields::field_free))]
fn field_free(table: &Table, marks: &[u32], visit: Visit, role: Role, value: u32) -> bool
    requires { (visit.node < table.now.header.nodes) × (length marks.now ≡ plane_words) }
    ensures { result ≡ field_free (decode table.now.bytes.now) marks.now visit role value }
{
    field_zero(role, value)
        && table.field_fits(visit.node, role, value as usize)
        && within(visit, role, value as usize)
        && (!is_part(role) || !marked(marks, value as usize))
}

#[tactic(auto, unfolding(crate::specs::Fields::distinct))]
fn distinct(r: Role, x: u32, s: Role, y: u32) -> bool
    ensures { result ≡ distinct r x s y }
{
    !is_part(r) || !is_part(s) || x != y
}

#[tactic(auto, unfolding(crate::specs::Fields::fields_free))]
fn fields_free(
    table: &Table,
    marks: &[u32],
    visit: Visit,
    node: Node,
    a: Role,
    b: Role,
    c: Role,
) -> bool
    requires { (visit.node < table.now.header.nodes) × (length marks.now ≡ plane_words) }
    ensures { result ≡ fields_free (decode table.now.bytes.now) marks.now visit node (three a b c) }
{
    field_free(table, marks, visit, a, node.a)
        && field_free(table, marks, visit, b, node.b)
        && field_free(table, marks, visit, c, node.c)
        && distinct(a, node.a, b, node.b)
        && distinct(a, node.a, c, node.c)
        && distinct(b, node.b, c, node.c)
}

fn take(marks: &mut [u32], role: Role, value: usize)
    requires { (is_part role ≡ true → value < 256) × (length marks.old ≡ plane_words) }
    ensures { marks.new ≡ with_bits marks.old (field_parts role value) }
{
    if is_part(role) {
        mark(marks, value);
    }
}

fn take_fields(
    table: &Table,
    marks: &mut [u32],
    visit: Visit,
    node: Node,
    a: Role,
    b: Role,
    c: Role,
) -> bool
    requires { (visit.node < table.now.header.nodes) × (length marks.old ≡ plane_words) }
    ensures value { result ≡ fields_free (decode table.now.bytes.now) marks.old visit node (three a b c) }
    ensures used { result ≡ true → Used (decode table.now.bytes.now) visit node (three a b c) marks.old marks.new }
    ensures marks_unchanged { result ≡ false → marks.new ≡ marks.old }
{
    if !fields_free(table, marks, visit, node, a, b, c) {
        return false;
    }
    take(marks, a, node.a as usize);
    take(marks, b, node.b as usize);
    take(marks, c, node.c as usize);
    true
}

// The plane of the nodes used is the first of the planes.
pub fn fields(
    table: &Table,
    planes: &mut [u32],
    visit: Visit,
    node: Node,
    a: Role,
    b: Role,
    c: Role,
) -> bool
    requires { (visit.node < table.now.header.nodes) × (length planes.old ≡ all_planes) }
    ensures { Fields (decode table.now.bytes.now) visit node (three a b c) planes.old planes.new result }
{
    take_fields(table, &mut planes[0..PLANE], visit, node, a, b, c)
}
