// Reading a job file.
ghost use Rattle.std.specs.Prelude.{◌≡◌, ◌≤◌, length};
ghost use Rattle.file_calls.specs.Calls.{read_in};
ghost use Rattle.tipshare_c.specs.Answer.{number_in, answer_in, seen};
ghost use Rattle.cases.specs.Cases.{Told};
ghost use Rattle.file_calls.specs.Cases.{read_cases};
ghost use Rattle.file_calls.specs.Rules.{ReadRuleOf};

use crate::answers::{PLACES, SHORT_ANSWER, put_answer};

#[tactic(auto, unfolding(crate::specs::Answer::if_short))]
#[unsafe(no_mangle)]
pub extern "C" fn tipshare_read(file: &[u8], answer: &mut [u64]) -> u32
    ensures number { result ≡ number_in answer.old (read_in file.now) }
    ensures answer { answer.new ≡ answer_in answer.old (read_in file.now) }
    ensures cases { 4 ≤ length answer.old
        → Told (read_cases file.now) (seen result answer.new).refusal }
    ensures rule { ReadRuleOf file.now (seen result answer.new) }
{
    let Some(places) = answer.first_chunk_mut::<PLACES>() else {
        return SHORT_ANSWER;
    };
    put_answer(file_calls::read_outcome(file), places)
}
