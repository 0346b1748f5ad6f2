// Refusals as numbers: the first of a row of questions is the least.
ghost use Rattle.std.specs.Prelude.{◌≡◌, ◌<◌, ◌≤◌, min};
ghost use Rattle.visit.specs.Least.{none, code, verdict_of};

use rules::Verdict;
use table::shape::refused;

// No refusal.
pub const NONE: usize = 4294967295;

// The lesser of a refusal and what was found so far.
pub fn worse(best: usize, number: usize, place: usize) -> usize
    requires { (number < 65535) × (place < 65536) }
    ensures { result ≡ min best (code number place) }
{
    best.min(number * 65536 + place)
}

// Most nodes have no refusal, and then nothing is compared.
pub fn lesser(rule: usize, found: usize) -> usize
    requires { rule ≤ none }
    ensures { result ≡ min rule found }
{
    if found == NONE {
        return rule;
    }
    if found < rule { found } else { rule }
}

pub fn verdict(best: usize) -> Verdict
    requires { best ≤ none }
    ensures { result ≡ verdict_of best }
{
    if best < NONE {
        return refused((best / 65536) as u32, (best % 65536) as u32);
    }
    Ok(())
}
