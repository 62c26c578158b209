// The check of a plan, a claimed pair count and a table from other software, for a job file.
ghost use Rattle.std.specs.Prelude.{◌≡◌, ◌≤◌, length};
ghost use Rattle.file_calls.specs.Calls.{check_in};
ghost use Rattle.file_calls.specs.Rules.{CheckRuleOf};
ghost use Rattle.tipshare_c.specs.Answer.{number_in, answer_in, seen};
ghost use Rattle.cases.specs.Cases.{Told};
ghost use Rattle.file_calls.specs.Cases.{check_cases};

use crate::answers::{PLACES, SHORT_ANSWER, put_answer};

#[tactic(auto, unfolding(crate::specs::Answer::if_short))]
#[unsafe(no_mangle)]
pub extern "C" fn tipshare_check(
    file: &[u8],
    plan: &[u8],
    claim: u32,
    table: &[u32],
    answer: &mut [u64],
) -> u32
    ensures number { result ≡ number_in answer.old
        (check_in file.now plan.now claim table.now) }
    ensures answer { answer.new ≡ answer_in answer.old
        (check_in file.now plan.now claim table.now) }
    ensures rule { 4 ≤ length answer.old
        → CheckRuleOf file.now plan.now claim table.now (seen result answer.new) }
    ensures cases { 4 ≤ length answer.old
        → Told (check_cases file.now plan.now claim table.now) (seen result answer.new).refusal }
{
    let Some(places) = answer.first_chunk_mut::<PLACES>() else {
        return SHORT_ANSWER;
    };
    let outcome = file_calls::check_outcome(file, plan, claim, table);
    put_answer(outcome, places)
}
