// Two job files merged into one.
ghost use Rattle.std.specs.Prelude.{◌≡◌, ◌≤◌, length};
ghost use Rattle.file_calls.specs.Panel.{merge_of_files, merge_file_in, MergeRuleOf};
ghost use Rattle.tipshare_c.specs.Answer.{if_short, number_in, answer_in, seen};
ghost use Rattle.cases.specs.Cases.{Told};
ghost use Rattle.file_calls.specs.Cases.{merge_cases};

use crate::answers::{PLACES, SHORT_ANSWER, put_answer};

#[tactic(auto, unfolding(crate::specs::Answer::if_short))]
#[unsafe(no_mangle)]
pub extern "C" fn tipshare_merge(
    first: &[u8],
    second: &[u8],
    out: &mut [u8],
    answer: &mut [u64],
) -> u32
    ensures number { result ≡ number_in answer.old
        (merge_of_files first.now second.now (length out.old)) }
    ensures answer { answer.new ≡ answer_in answer.old
        (merge_of_files first.now second.now (length out.old)) }
    ensures out { out.new ≡ if_short answer.old out.old
        (merge_file_in first.now second.now out.old) }
    ensures rule { 4 ≤ length answer.old
        → MergeRuleOf first.now second.now out.new (seen result answer.new) }
    ensures cases { 4 ≤ length answer.old
        → Told (merge_cases first.now second.now (length out.old)) (seen result answer.new).refusal }
{
    let Some(places) = answer.first_chunk_mut::<PLACES>() else {
        return SHORT_ANSWER;
    };
    let outcome = file_calls::merge_outcome(first, second, out);
    put_answer(outcome, places)
}
