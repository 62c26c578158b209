// The Junior with two holders on a job file.
ghost use Rattle.std.specs.Prelude.{◌≡◌, ◌≤◌, length};
ghost use Rattle.model.specs.Limits.{most_pairs};
ghost use Rattle.file_calls.specs.Junior.{junior_in, junior_plan_in, JuniorRuleOf};
ghost use Rattle.tipshare_c.specs.Answer.{if_short, number_in, answer_in, seen};
ghost use Rattle.cases.specs.Cases.{Told};
ghost use Rattle.file_calls.specs.Cases.{junior_cases};

use crate::answers::{PLACES, SHORT_ANSWER, put_answer};

#[tactic(auto, unfolding(crate::specs::Answer::if_short))]
#[unsafe(no_mangle)]
pub extern "C" fn tipshare_junior(file: &[u8], plan: &mut [u8], answer: &mut [u64]) -> u32
    ensures number { result ≡ number_in answer.old (junior_in file.now (length plan.old)) }
    ensures answer { answer.new ≡ answer_in answer.old (junior_in file.now (length plan.old)) }
    ensures plan { plan.new
        ≡ if_short answer.old plan.old (junior_plan_in file.now plan.old) }
    ensures rule { 4 ≤ length answer.old
        → JuniorRuleOf file.now (length plan.old) plan.new (seen result answer.new) }
    ensures cases { 4 ≤ length answer.old
        → Told (junior_cases file.now (length plan.old)) (seen result answer.new).refusal }
    ensures few { 4 ≤ length answer.old → (seen result answer.new).first ≤ most_pairs }
{
    let Some(places) = answer.first_chunk_mut::<PLACES>() else {
        return SHORT_ANSWER;
    };
    let outcome = file_calls::junior_outcome(file, plan);
    put_answer(outcome, places)
}
