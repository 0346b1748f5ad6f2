// The table (the paper's site table) read out of its bytes; questions 2 to 5, and 6 to 10 of one procedure or node.
#![tactic(auto)]

ghost use Rattle.table.specs.Sized.{Sized};

pub mod fields; // fields.rt: questions 6 to 10 of one procedure or node
pub mod marks; // marks.rt: a set of nodes as bits in lent words
pub mod shape; // shape.rt: questions 2 to 5
pub mod words; // words.rt: header, words, procedures and nodes out of bytes

// The counts in word 0.
#[derive(Clone, Copy, Debug, PartialEq, Eq)]
pub struct Header {
    pub variables: usize,
    pub procedures: usize,
    pub nodes: usize,
}

// A table that passed questions 2 to 5, with its counts.
#[derive(Clone, Copy)]
pub struct Table<'a> {
    pub bytes: &'a [u8],
    pub header: Header,
    pub ghost sized: { Sized bytes.now header },
}
