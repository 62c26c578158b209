// Quick sharing of two job files, each alone.
ghost use Rattle.std.specs.Prelude.{◌≡◌, ◌≤◌, length};
ghost use Rattle.model.specs.Limits.{most_pairs};
ghost use Rattle.file_calls.specs.Panel.{alone_in, alone_plan_in, AloneRuleOf};
ghost use Rattle.tipshare_c.specs.Answer.{if_short, number_in, answer_in, seen};
ghost use Rattle.cases.specs.Cases.{Told};
ghost use Rattle.file_calls.specs.Cases.{alone_cases};

use crate::answers::{PLACES, SHORT_ANSWER, put_answer};

#[tactic(auto, unfolding(crate::specs::Answer::if_short))]
#[unsafe(no_mangle)]
pub extern "C" fn tipshare_alone(
    first: &[u8],
    second: &[u8],
    plan: &mut [u8],
    answer: &mut [u64],
) -> u32
    ensures number { result ≡ number_in answer.old
        (alone_in first.now second.now (length plan.old)) }
    ensures answer { answer.new ≡ answer_in answer.old
        (alone_in first.now second.now (length plan.old)) }
    ensures plan { plan.new ≡ if_short answer.old plan.old
        (alone_plan_in first.now second.now plan.old) }
    ensures rule { 4 ≤ length answer.old
        → AloneRuleOf first.now second.now plan.new (seen result answer.new) }
    ensures cases { 4 ≤ length answer.old
        → Told (alone_cases first.now second.now (length plan.old)) (seen result answer.new).refusal }
    ensures first_few { 4 ≤ length answer.old → (seen result answer.new).first ≤ most_pairs }
    ensures second_few { 4 ≤ length answer.old → (seen result answer.new).second ≤ most_pairs }
{
    let Some(places) = answer.first_chunk_mut::<PLACES>() else {
        return SHORT_ANSWER;
    };
    let outcome = file_calls::alone_outcome(first, second, plan);
    put_answer(outcome, places)
}
