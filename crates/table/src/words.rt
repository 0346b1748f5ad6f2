// Words out of bytes, high byte first, and what they pack. A node's place is known to `node_at`, `kind_at` and `packed_at` alone.
ghost use Rattle.std.specs.Prelude.{◌≡◌, ◌+◌, ◌*◌, ◌<◌, ◌≤◌, length};
ghost use Rattle.rules.specs.Table.{decode, word_at, procedures, flagged, body, effect_flag, unpacked, node_at};
ghost use Rattle.rules.specs.Answers.{Accepted};
ghost use Rattle.table.specs.Header.{header_of};
ghost use Rattle.table.specs.Sized.{shape_verdict};

use crate::{Header, Table};
use rules::Node;

// A sum, of which the compiler reads the bytes alone that are asked for. Of a word by `from_be_bytes` it reads all four: a step of
// a waiting process with full stacks took 39 in 100 more instructions.
pub fn word(table: &[u8], i: usize) -> u32
    requires { 4 * i + 3 < length table.now }
    ensures { result ≡ word_at table.now i }
{
    let at = 4 * i;
    u32::from(table[at]) * 16777216
        + u32::from(table[at + 1]) * 65536
        + u32::from(table[at + 2]) * 256
        + u32::from(table[at + 3])
}

pub fn header(table: &[u8]) -> Header
    requires { 4 ≤ length table.now }
    ensures { result ≡ header_of table.now }
{
    let first = word(table, 0);
    Header {
        variables: (first / 4194304 % 64) as usize,
        procedures: (first / 131072 % 32) as usize,
        nodes: (first / 256 % 512) as usize,
    }
}

pub fn flagged(table: &[u8], a: usize) -> bool
    requires { (8 ≤ length table.now) × (a < 32) }
    ensures { result ≡ flagged (decode table.now) a }
{
    (word(table, 1) >> (31 - a)) % 2 == 1
}

pub fn body(table: &[u8], p: usize) -> usize
    requires { (4 * (2 + p) + 3 < length table.now) × (p < procedures (decode table.now)) }
    ensures { result ≡ body (decode table.now) p }
{
    (word(table, 2 + p) / 16777216) as usize
}

pub fn effect_flag(table: &[u8], p: usize) -> bool
    requires { (4 * (2 + p) + 3 < length table.now) × (p < procedures (decode table.now)) }
    ensures { result ≡ effect_flag (decode table.now) p }
{
    word(table, 2 + p) / 8388608 % 2 == 1
}

pub fn unpacked(packed: u32) -> Node
    ensures { result ≡ unpacked packed }
{
    Node {
        kind: packed / 134217728,
        a: packed / 262144 % 512,
        b: packed / 512 % 512,
        c: packed % 512,
    }
}

pub fn node_at(table: &[u8], header: Header, n: usize) -> Node
    requires { (header ≡ header_of table.now) × (4 * (2 + header.procedures + n) + 3 < length table.now) }
    ensures { result ≡ node_at (decode table.now) n }
{
    unpacked(word(table, 2 + header.procedures + n))
}

// The kind alone, for a jump by it before any field is read.
pub fn kind_of(packed: u32) -> u32
    ensures { result ≡ (unpacked packed).kind }
{
    packed / 134217728
}

pub fn kind_at(table: &[u8], header: Header, n: usize) -> u32
    requires { (header ≡ header_of table.now) × (4 * (2 + header.procedures + n) + 3 < length table.now) }
    ensures { result ≡ (node_at (decode table.now) n).kind }
{
    kind_of(word(table, 2 + header.procedures + n))
}

// The word of node n, whole, of a table that has so many. The test always holds; with it the compiler reads the word at once and
// not byte by byte, a field's bytes where that field is asked for.
pub fn packed_at(table: &[u8], header: Header, n: usize) -> u32
    requires { (header ≡ header_of table.now) × (4 * (2 + header.procedures + n) + 3 < length table.now) × (n < header.nodes) }
    ensures { unpacked result ≡ node_at (decode table.now) n }
{
    if n < header.nodes {
        return word(table, 2 + header.procedures + n);
    }
    n as u32
}

impl<'a> Table<'a> {
    // The table in bytes that passed questions 2 to 5.
    pub fn of(bytes: &'a [u8]) -> Table<'a>
        requires { shape_verdict bytes.now ≡ Accepted }
        ensures { result.bytes.now ≡ bytes.now }
    {
        Table {
            bytes,
            header: header(bytes),
        }
    }

    pub fn flagged(&self, a: usize) -> bool
        requires { a < 32 }
        ensures { result ≡ flagged (decode self.now.bytes.now) a }
    {
        flagged(self.bytes, a)
    }

    pub fn body(&self, p: usize) -> usize
        requires { p < self.now.header.procedures }
        ensures { result ≡ body (decode self.now.bytes.now) p }
    {
        body(self.bytes, p)
    }

    pub fn effect_flag(&self, p: usize) -> bool
        requires { p < self.now.header.procedures }
        ensures { result ≡ effect_flag (decode self.now.bytes.now) p }
    {
        effect_flag(self.bytes, p)
    }

    pub fn node_at(&self, n: usize) -> Node
        requires { n < self.now.header.nodes }
        ensures { result ≡ node_at (decode self.now.bytes.now) n }
    {
        node_at(self.bytes, self.header, n)
    }

    pub fn kind_at(&self, n: usize) -> u32
        requires { n < self.now.header.nodes }
        ensures { result ≡ (node_at (decode self.now.bytes.now) n).kind }
    {
        kind_at(self.bytes, self.header, n)
    }

    // The word of node n, whole.
    pub fn packed_at(&self, n: usize) -> u32
        requires { n < self.now.header.nodes }
        ensures { unpacked result ≡ node_at (decode self.now.bytes.now) n }
    {
        packed_at(self.bytes, self.header, n)
    }
}
