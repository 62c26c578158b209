// Strike the tips that miss a pair goal, on a job file.
ghost use Rattle.std.specs.Prelude.{◌≡◌, ◌≤◌, length};
ghost use Rattle.file_calls.specs.Goal.{goal_in, goal_file_in, GoalRuleOf};
ghost use Rattle.tipshare_c.specs.Answer.{if_short, number_in, answer_in, seen};
ghost use Rattle.cases.specs.Cases.{Told};
ghost use Rattle.file_calls.specs.Cases.{goal_cases};

use crate::answers::{PLACES, SHORT_ANSWER, put_answer};

#[tactic(auto, unfolding(crate::specs::Answer::if_short))]
#[unsafe(no_mangle)]
pub extern "C" fn tipshare_goal(file: &[u8], goal: u32, out: &mut [u8], answer: &mut [u64]) -> u32
    ensures number { result ≡ number_in answer.old (goal_in file.now goal (length out.old)) }
    ensures answer { answer.new
        ≡ answer_in answer.old (goal_in file.now goal (length out.old)) }
    ensures out { out.new
        ≡ if_short answer.old out.old (goal_file_in file.now goal out.old) }
    ensures rule { 4 ≤ length answer.old
        → GoalRuleOf file.now goal out.new (seen result answer.new) }
    ensures cases { 4 ≤ length answer.old
        → Told (goal_cases file.now goal (length out.old)) (seen result answer.new).refusal }
{
    let Some(places) = answer.first_chunk_mut::<PLACES>() else {
        return SHORT_ANSWER;
    };
    let outcome = file_calls::goal_outcome(file, goal, out);
    put_answer(outcome, places)
}
