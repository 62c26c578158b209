// The placing order of parts and rules as plain numbers.
ghost use Rattle.std.specs.Prelude.{◌≡◌, ◌≤◌, length};
ghost use Rattle.file_calls.specs.Outcomes.{outcome_of};
ghost use Rattle.number_calls.specs.Numbers.{order_after_in, PlacingRuleIn};
ghost use Rattle.tipshare_c.specs.Answer.{if_short, number_in, answer_in, seen};
ghost use Rattle.cases.specs.Cases.{Told};
ghost use Rattle.number_calls.specs.Cases.{numbers_cases};
ghost use Rattle.tipshare_c.specs.Order.{ordered_in};

use crate::answers::{PLACES, SHORT_ANSWER, put_answer};
use file_calls::Counts;
use refusal::Refused;

// The count is that of the parts.
fn order_outcome(parts: &[u32], rules: &[u32], order: &mut [u8]) -> Result<Counts, Refused>
    ensures outcome { outcome_of result ≡ ordered_in parts.now rules.now (length order.old) }
    ensures order { order.new ≡ order_after_in parts.now rules.now order.old }
    ensures rule { PlacingRuleIn parts.now rules.now (length order.old) order.new (outcome_of result).refusal }
    ensures cases { Told (numbers_cases parts.now rules.now (length order.old)) (outcome_of result).refusal }
{
    number_calls::order_numbers(parts, rules, order)?;
    Ok(Counts::one((parts.len() / 4) as u64))
}

#[tactic(auto, unfolding(crate::specs::Answer::if_short))]
#[unsafe(no_mangle)]
pub extern "C" fn tipshare_order(
    parts: &[u32],
    rules: &[u32],
    order: &mut [u8],
    answer: &mut [u64],
) -> u32
    ensures number { result ≡ number_in answer.old
        (ordered_in parts.now rules.now (length order.old)) }
    ensures answer { answer.new ≡ answer_in answer.old
        (ordered_in parts.now rules.now (length order.old)) }
    ensures order { order.new ≡ if_short answer.old order.old
        (order_after_in parts.now rules.now order.old) }
    ensures rule { 4 ≤ length answer.old
        → PlacingRuleIn parts.now rules.now (length order.old) order.new
        (seen result answer.new).refusal }
    ensures cases { 4 ≤ length answer.old
        → Told (numbers_cases parts.now rules.now (length order.old)) (seen result answer.new).refusal }
{
    let Some(places) = answer.first_chunk_mut::<PLACES>() else {
        return SHORT_ANSWER;
    };
    put_answer(order_outcome(parts, rules, order), places)
}
