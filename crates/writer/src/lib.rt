// A table's words written into lent bytes: the other way round from table::words.
#![tactic(auto)]

ghost use Rattle.std.specs.Prelude.{◌≡◌, ◌+◌, ◌*◌, ◌<◌, ◌≤◌, length};
ghost use Rattle.std.proofs.lemmas.List.Edits.{sets};
ghost use Rattle.rules.specs.Encoding.{word_bytes};
ghost use Rattle.rules.specs.Table.{word_at};
ghost use Rattle.rules.specs.WellFormed.{joined};

use table::words::word;

pub fn put_word(out: &mut [u8], i: usize, word: u32)
    requires { 4 * i + 3 < length out.old }
    ensures { out.new ≡ sets out.old (4 * i) (word_bytes word) }
{
    let at = 4 * i;
    out[at..at + 4].copy_from_slice(&word.to_be_bytes());
}

// So many words of a table, from one of its words on, as the output's words from another on. Word by word: a copy of so many bytes
// in one calls memmove, which a host of the archive for C need not have.
pub fn copy_words(table: &[u8], from: usize, out: &mut [u8], to: usize, count: usize)
    requires { (4 * (from + count) ≤ length table.now) × (4 * (to + count) ≤ length out.old) }
    ensures { out.new ≡ sets out.old (4 * to)
        (joined (λ k. word_bytes (word_at table.now (from + k))) count) }
{
    for k in 0..count {
        put_word(out, to + k, word(table, from + k));
    }
}
