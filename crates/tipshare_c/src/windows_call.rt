// The positions that the parts can have in a placing order, for parts and rules as plain numbers.
ghost use Rattle.std.specs.Prelude.{◌≡◌, ◌≤◌, length};
ghost use Rattle.file_calls.specs.Outcomes.{outcome_of};
ghost use Rattle.part_windows.specs.Call.{room};
ghost use Rattle.number_calls.specs.Windows.{first_after_in, last_after_in, WindowsRuleIn};
ghost use Rattle.tipshare_c.specs.Answer.{if_short, number_in, answer_in, seen};
ghost use Rattle.cases.specs.Cases.{Told};
ghost use Rattle.number_calls.specs.Cases.{numbers_cases};
ghost use Rattle.tipshare_c.specs.Order.{ordered_in};

use crate::answers::{PLACES, SHORT_ANSWER, put_answer};
use file_calls::Counts;
use refusal::Refused;

// The count is that of the parts.
fn windows_outcome(
    parts: &[u32],
    rules: &[u32],
    first: &mut [u8],
    last: &mut [u8],
) -> Result<Counts, Refused>
    ensures outcome { outcome_of result ≡ ordered_in parts.now rules.now (room first.old last.old) }
    ensures first { first.new ≡ first_after_in parts.now rules.now first.old last.old }
    ensures last { last.new ≡ last_after_in parts.now rules.now first.old last.old }
    ensures rule { WindowsRuleIn parts.now rules.now (room first.old last.old) first.new last.new (outcome_of result).refusal }
    ensures cases { Told (numbers_cases parts.now rules.now (room first.old last.old)) (outcome_of result).refusal }
{
    number_calls::window_numbers(parts, rules, first, last)?;
    Ok(Counts::one((parts.len() / 4) as u64))
}

#[tactic(auto, unfolding(crate::specs::Answer::if_short))]
#[unsafe(no_mangle)]
pub extern "C" fn tipshare_windows(
    parts: &[u32],
    rules: &[u32],
    first: &mut [u8],
    last: &mut [u8],
    answer: &mut [u64],
) -> u32
    ensures number { result ≡ number_in answer.old
        (ordered_in parts.now rules.now (room first.old last.old)) }
    ensures answer { answer.new ≡ answer_in answer.old
        (ordered_in parts.now rules.now (room first.old last.old)) }
    ensures first { first.new ≡ if_short answer.old first.old
        (first_after_in parts.now rules.now first.old last.old) }
    ensures last { last.new ≡ if_short answer.old last.old
        (last_after_in parts.now rules.now first.old last.old) }
    ensures rule { 4 ≤ length answer.old
        → WindowsRuleIn parts.now rules.now (room first.old last.old) first.new last.new
        (seen result answer.new).refusal }
    ensures cases { 4 ≤ length answer.old
        → Told (numbers_cases parts.now rules.now (room first.old last.old)) (seen result answer.new).refusal }
{
    let Some(places) = answer.first_chunk_mut::<PLACES>() else {
        return SHORT_ANSWER;
    };
    put_answer(windows_outcome(parts, rules, first, last), places)
}
