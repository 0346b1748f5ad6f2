// Questions 2 to 5: the length of the table, word 0 and the flags.
ghost use Rattle.std.specs.Prelude.{◌&&◌, ◌≡◌, ◌-◌, ◌%◌, ◌^◌, ◌≤◌, leb, eqb};
ghost use Rattle.rules.specs.WellFormed.{most_table_bytes};
ghost use Rattle.rules.specs.Answers.{refused};
ghost use Rattle.table.specs.Sized.{header_test, shape_verdict};

use crate::Header;
use crate::words::{header, word};
use rules::layout::MOST_TABLE_BYTES;
use rules::{Refusal, Verdict};

pub fn refused(number: u32, place: u32) -> Verdict
    ensures { result ≡ refused number place }
{
    Err(Refusal { number, place })
}

pub fn between(low: usize, x: usize, high: usize) -> bool
    ensures { result ≡ (leb low x && leb x high) }
{
    low <= x && x <= high
}

// Question 2.
fn length_fits(bytes: usize) -> bool
    ensures { result ≡ (eqb (bytes % 4) 0 && leb 16 bytes && leb bytes most_table_bytes) }
{
    bytes % 4 == 0 && between(16, bytes, MOST_TABLE_BYTES)
}

// Question 3, of word 0 and the counts that it packs.
fn header_fits(first: u32, counts: Header) -> bool
    ensures { result ≡ header_test first counts }
{
    first / 268435456 == 1
        && between(1, counts.variables, 32)
        && between(1, counts.procedures, 16)
        && between(1, counts.nodes, 256)
        && first % 256 == 0
}

// Question 5.
fn flags_fit(flags: u32, variables: usize) -> bool
    requires { (1 ≤ variables) × (variables ≤ 32) }
    ensures { result ≡ eqb (flags % 2 ^ (32 - variables)) 0 }
{
    let above: u32 = 1 << (32 - variables);
    flags % above == 0
}

pub fn shape(table: &[u8]) -> Verdict
    ensures { result ≡ shape_verdict table.now }
{
    let bytes = table.len();
    if !length_fits(bytes) {
        return refused(2, 0);
    }
    let counts = header(table);
    if !header_fits(word(table, 0), counts) {
        return refused(3, 0);
    }
    if bytes != 4 * (2 + counts.procedures + counts.nodes) {
        return refused(4, 0);
    }
    if !flags_fit(word(table, 1), counts.variables) {
        return refused(5, 0);
    }
    Ok(())
}
