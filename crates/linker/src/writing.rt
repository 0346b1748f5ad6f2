// The joined table's words. The library's are as they were; in the program's, the numbers of nodes are other ones, in the same bits.
ghost use Rattle.std.specs.Prelude.{◌≡◌, ℕ, ◌+◌, ◌*◌, ◌^◌, ◌≤◌, max, length};
ghost use Rattle.std.proofs.lemmas.List.Edits.{sets};
ghost use Rattle.linker.specs.Given.{library_of, program_of, Joinable, nodes_of, bytes_of, moved_word, Movable};
ghost use Rattle.linker.specs.Given.{bodies_behind, nodes_behind, part_units, moved_procedure, node_behind, moved_node};
ghost use Rattle.linker.specs.Linking.{linked};
ghost use Rattle.rules.specs.Encoding.{word_bytes, flag_bits, word_of, encode};
ghost use Rattle.rules.specs.Table.{flagged};
ghost use Rattle.rules.specs.WellFormed.{joined};
ghost use Rattle.writer.specs.Written.{Begins};

use crate::asking::joined_nodes;
use crate::both::Both;
use rules::kinds::{
    ASSIGN, BOTH, BRANCH, BROADCAST, DIFFERENCE, DOOR, EQUAL, EXCHANGE, LATCH, LESS, LOOP, PRODUCT,
    QUOTIENT, SEQUENCE, SLOT, SUM,
};
use table::words::{kind_of, word};
use writer::{copy_words, put_word};

// What a 1 in field A, B or C counts in a node's word, and a 1 of the body in a procedure's.
const A: u32 = 262144;

const B: u32 = 512;

const C: u32 = 1;

const BODY: u32 = 16777216;

// What a 1 in each part counts, by kind.
fn part_unit(kind: u32) -> u32
    ensures { (a b c : ℕ) → result ≡ part_units (record { kind = kind; a = a; b = b; c = c }) }
{
    match kind {
        DOOR | SLOT | EXCHANGE => A,
        SUM | DIFFERENCE | PRODUCT | QUOTIENT | LESS | EQUAL | BOTH => A + B,
        ASSIGN => B,
        SEQUENCE => A + B,
        BRANCH => A + B + C,
        LOOP | LATCH => A + B,
        BROADCAST => B + C,
        _ => 0,
    }
}

fn moved(both: &Both, word: u32, one: u32) -> u32
    requires { Movable both.now one word }
    ensures { result ≡ moved_word both.now one word }
{
    word - both.library.header.procedures as u32 * one + both.library.header.nodes as u32 * one
}

fn header_word(both: &Both) -> u32
    requires { Joinable both.now }
    ensures { result ≡ 2 ^ 28 + max both.now.library.header.variables both.now.program.header.variables * 2 ^ 22
        + both.now.program.header.procedures * 2 ^ 17 + nodes_of both.now * 2 ^ 8 }
{
    let library = both.library.header;
    let program = both.program.header;
    let variables = library.variables.max(program.variables);
    268435456
        + variables as u32 * 4194304
        + program.procedures as u32 * 131072
        + joined_nodes(both) as u32 * 256
}

// Word 1 of the table that has more variables: the other's flags are the same as far as they go.
fn flags_word(both: &Both) -> u32
    requires { Joinable both.now }
    ensures { result ≡ flag_bits (flagged (linked (library_of both.now) (program_of both.now))) 32 }
{
    if both.library.header.variables < both.program.header.variables {
        word(both.program.bytes, 1)
    } else {
        word(both.library.bytes, 1)
    }
}

// The program's procedures behind its stubs.
fn write_bodies(both: &Both, out: &mut [u8])
    requires { Joinable both.now × (4 * (2 + both.now.program.header.procedures) ≤ length out.old) }
    ensures { out.new ≡ sets out.old (4 * (2 + both.now.library.header.procedures))
        (joined (λ k. word_bytes (moved_procedure both.now k)) (bodies_behind both.now)) }
{
    let first = 2 + both.library.header.procedures;
    let count = both.program.header.procedures - both.library.header.procedures;
    for k in 0..count {
        let procedure = word(both.program.bytes, first + k);
        put_word(out, first + k, moved(both, procedure, BODY));
    }
}

// The program's nodes behind its stubs' bodies, as those behind the library's.
fn write_nodes(both: &Both, out: &mut [u8])
    requires { Joinable both.now × (bytes_of both.now ≤ length out.old) }
    ensures { out.new ≡ sets out.old (4 * (2 + both.now.program.header.procedures + both.now.library.header.nodes))
        (joined (λ k. word_bytes (moved_node both.now (node_behind both.now k))) (nodes_behind both.now)) }
{
    let stubs = both.library.header.procedures;
    let first = 2 + both.program.header.procedures + both.library.header.nodes;
    let count = both.program.header.nodes - stubs;
    for k in 0..count {
        let node = both.program.packed_at(stubs + k);
        let one = part_unit(kind_of(node));
        put_word(out, first + k, moved(both, node, one));
    }
}

// The words before the nodes.
fn write_front(both: &Both, out: &mut [u8])
    requires { Joinable both.now × (length out.old ≡ bytes_of both.now) }
    ensures { Begins (word_of (linked (library_of both.now) (program_of both.now)))
        (2 + both.now.program.header.procedures) out.new }
{
    let library = both.library;
    put_word(out, 0, header_word(both));
    put_word(out, 1, flags_word(both));
    copy_words(library.bytes, 2, out, 2, library.header.procedures);
    write_bodies(both, out);
}

pub(crate) fn write(both: &Both, out: &mut [u8])
    requires { Joinable both.now × (length out.old ≡ bytes_of both.now) }
    ensures { out.new ≡ encode (linked (library_of both.now) (program_of both.now)) }
{
    let library = both.library;
    let from = 2 + library.header.procedures;
    let to = 2 + both.program.header.procedures;
    write_front(both, out);
    copy_words(library.bytes, from, out, to, library.header.nodes);
    write_nodes(both, out);
}
