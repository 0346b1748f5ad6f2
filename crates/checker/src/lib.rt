// The checker: question 1, then 2 to 12, 26 and 13 to 17 over lent scratch.
#![tactic(auto)]

ghost use Rattle.std.specs.Prelude.{◌≡◌, length};
ghost use Rattle.rules.specs.Acceptance.{scratch_words, judged, checked, checked_scratch};
ghost use Rattle.rules.specs.Answers.{◌then◌};
ghost use Rattle.rules.specs.WellFormed.{well_formed};
ghost use Rattle.rules.specs.Table.{decode};

use rules::Verdict;
use rules::layout::SCRATCH_WORDS;
use switches::answer;
use table::marks::clear;
use table::shape::refused;

// Questions 2 to 12, 26 and 13 to 17. The words, which may hold anything before, are the planes.
fn answer_in(table: &[u8], planes: &mut [u32]) -> Verdict
    requires { length planes.old ≡ scratch_words }
    ensures { result ≡ (well_formed table.now then judged (decode table.now)) }
{
    clear(planes);
    answer(table, planes)
}

pub fn check(table: &[u8], scratch: &mut [u32]) -> Verdict
    ensures { (result ≡ checked table.now scratch.old)
        × (scratch.new ≡ checked_scratch scratch.old) }
{
    if scratch.len() < SCRATCH_WORDS {
        return refused(1, 0);
    }
    let verdict = answer_in(table, &mut scratch[0..SCRATCH_WORDS]);
    clear(&mut scratch[0..SCRATCH_WORDS]);
    verdict
}
