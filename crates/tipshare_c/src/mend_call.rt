// Mending of a job file.
ghost use Rattle.std.specs.Prelude.{◌≡◌, ◌≤◌, length};
ghost use Rattle.mend.specs.Call.{out_after, report_after};
ghost use Rattle.tipshare_c.specs.Answer.{if_short, number_in, answer_in, seen};
ghost use Rattle.cases.specs.Cases.{Told};
ghost use Rattle.mend.specs.Cases.{mend_cases};
ghost use Rattle.file_calls.specs.Mend.{mend_in, MendRuleIn};

use crate::answers::{PLACES, SHORT_ANSWER, put_answer};

#[tactic(auto, unfolding(crate::specs::Answer::if_short))]
#[unsafe(no_mangle)]
pub extern "C" fn tipshare_mend(
    file: &[u8],
    out: &mut [u8],
    report: &mut [u8],
    answer: &mut [u64],
) -> u32
    ensures number { result ≡ number_in answer.old
        (mend_in file.now (length out.old) (length report.old)) }
    ensures answer { answer.new ≡ answer_in answer.old
        (mend_in file.now (length out.old) (length report.old)) }
    ensures out { out.new ≡ if_short answer.old out.old
        (out_after file.now out.old (length report.old)) }
    ensures report { report.new ≡ if_short answer.old report.old
        (report_after file.now (length out.old) report.old) }
    ensures rule { MendRuleIn file.now out.new report.new (seen result answer.new) }
    ensures cases { 4 ≤ length answer.old
        → Told (mend_cases file.now (length out.old) (length report.old)) (seen result answer.new).refusal }
{
    let Some(places) = answer.first_chunk_mut::<PLACES>() else {
        return SHORT_ANSWER;
    };
    let outcome = file_calls::mend_outcome(file, out, report);
    put_answer(outcome, places)
}
