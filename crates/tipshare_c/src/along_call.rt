// The plan of a job file with the fewest tip changes along the list of its lines.
ghost use Rattle.std.specs.Prelude.{◌≡◌, ◌≤◌, length};
ghost use Rattle.model.specs.Limits.{most_pairs};
ghost use Rattle.file_calls.specs.Along.{along_in, along_plan_in, AlongRuleOf};
ghost use Rattle.tipshare_c.specs.Answer.{if_short, number_in, answer_in, seen, mounted_by};
ghost use Rattle.cases.specs.Cases.{Told};
ghost use Rattle.file_calls.specs.Cases.{along_cases};

use crate::answers::{PLACES, SHORT_ANSWER, mounted_by, put_answer};

#[tactic(auto, unfolding(crate::specs::Answer::if_short))]
#[unsafe(no_mangle)]
pub extern "C" fn tipshare_along(
    file: &[u8],
    mounted: usize,
    plan: &mut [u8],
    answer: &mut [u64],
) -> u32
    ensures number { result ≡ number_in answer.old
        (along_in file.now (mounted_by mounted) (length plan.old)) }
    ensures answer { answer.new ≡ answer_in answer.old
        (along_in file.now (mounted_by mounted) (length plan.old)) }
    ensures plan { plan.new ≡ if_short answer.old plan.old
        (along_plan_in file.now (mounted_by mounted) plan.old) }
    ensures rule { AlongRuleOf file.now (mounted_by mounted) plan.new (seen result answer.new) }
    ensures cases { 4 ≤ length answer.old
        → Told (along_cases file.now (mounted_by mounted) (length plan.old)) (seen result answer.new).refusal }
    ensures few { 4 ≤ length answer.old → (seen result answer.new).second ≤ most_pairs }
{
    let Some(places) = answer.first_chunk_mut::<PLACES>() else {
        return SHORT_ANSWER;
    };
    let outcome = file_calls::along_outcome(file, mounted_by(mounted), plan);
    put_answer(outcome, places)
}
