// A set of nodes as bits in lent words: node n is bit n % 32 of word n / 32.
ghost use Rattle.std.specs.Prelude.{◌≡◌, ◌+◌, ◌*◌, ◌<◌, ◌≤◌, eqb, length, get_or, replicate};
ghost use Rattle.rules.specs.Choice.{first_failing, all_below};
ghost use Rattle.table.specs.Marks.{bit_at, with_bit};

pub fn marked(marks: &[u32], n: usize) -> bool
    requires { n < 32 * length marks.now }
    ensures { result ≡ bit_at marks.now n }
{
    (marks[n / 32] >> (n % 32)) % 2 == 1
}

pub fn mark(marks: &mut [u32], n: usize)
    requires { n < 32 * length marks.old }
    ensures { marks.new ≡ with_bit marks.old n }
{
    let bit: u32 = 1 << (n % 32);
    marks[n / 32] |= bit;
}

pub fn clear(marks: &mut [u32])
    ensures { marks.new ≡ replicate (length marks.old) 0 }
{
    marks.fill(0);
}

pub fn first_unmarked(marks: &[u32], count: usize) -> usize
    requires { (length marks.now ≡ 8) × (count ≤ 256) }
    ensures { result ≡ first_failing (bit_at marks.now) count }
{
    for (i, &word) in marks.iter().enumerate() {
        if word != u32::MAX {
            return count.min(32 * i + word.trailing_ones() as usize);
        }
    }
    count
}

pub fn none_marked(marks: &[u32]) -> bool
    requires { length marks.now ≡ 8 }
    ensures { result ≡ all_below (λ i. eqb (get_or marks.now i 0) 0) (length marks.now) }
{
    marks.iter().all(|&word| word == 0)
}
