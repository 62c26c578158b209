// The placing order by tips of parts and rules as plain numbers.
ghost use Rattle.std.specs.Prelude.{◌≡◌, ◌≤◌, length};
ghost use Rattle.head.specs.OnHead.{on_head};
ghost use Rattle.file_calls.specs.Outcomes.{outcome_of};
ghost use Rattle.number_calls.specs.ByTips.{buffer_by_tips_in, TipsRuleIn};
ghost use Rattle.tipshare_c.specs.Answer.{if_short, number_in, answer_in, seen, mounted_by};
ghost use Rattle.cases.specs.Cases.{Told};
ghost use Rattle.number_calls.specs.Cases.{numbers_by_tips_cases};
ghost use Rattle.tipshare_c.specs.Order.{ordered_by_tips_in};

use crate::answers::{PLACES, SHORT_ANSWER, mounted_by, put_answer};
use file_calls::Counts;
use refusal::Refused;

// The counts are those of the parts and of the changes.
fn order_by_tips_outcome(
    parts: &[u32],
    rules: &[u32],
    plan: &[u8],
    mounted: Option<usize>,
    order: &mut [u8],
) -> Result<Counts, Refused>
    ensures outcome { outcome_of result
        ≡ ordered_by_tips_in parts.now rules.now plan.now (on_head mounted) (length order.old) }
    ensures order { order.new ≡ buffer_by_tips_in parts.now rules.now plan.now (on_head mounted) order.old }
    ensures rule { TipsRuleIn parts.now rules.now plan.now (on_head mounted) (length order.old) order.new
        (outcome_of result).refusal (outcome_of result).second }
    ensures cases { Told (numbers_by_tips_cases parts.now rules.now plan.now (on_head mounted) (length order.old))
        (outcome_of result).refusal }
{
    let changes = number_calls::order_by_tips(parts, rules, plan, mounted, order)?;
    Ok(Counts {
        first: (parts.len() / 4) as u64,
        second: changes as u64,
        third: 0,
    })
}

#[tactic(auto, unfolding(crate::specs::Answer::if_short))]
#[unsafe(no_mangle)]
pub extern "C" fn tipshare_order_by_tips(
    parts: &[u32],
    rules: &[u32],
    plan: &[u8],
    mounted: usize,
    order: &mut [u8],
    answer: &mut [u64],
) -> u32
    ensures number { result ≡ number_in answer.old
        (ordered_by_tips_in parts.now rules.now plan.now (mounted_by mounted) (length order.old)) }
    ensures answer { answer.new ≡ answer_in answer.old
        (ordered_by_tips_in parts.now rules.now plan.now (mounted_by mounted) (length order.old)) }
    ensures order { order.new ≡ if_short answer.old order.old
        (buffer_by_tips_in parts.now rules.now plan.now (mounted_by mounted) order.old) }
    ensures rule { 4 ≤ length answer.old
        → TipsRuleIn parts.now rules.now plan.now (mounted_by mounted) (length order.old) order.new
        (seen result answer.new).refusal (seen result answer.new).second }
    ensures cases { 4 ≤ length answer.old
        → Told (numbers_by_tips_cases parts.now rules.now plan.now (mounted_by mounted) (length order.old))
        (seen result answer.new).refusal }
{
    let Some(places) = answer.first_chunk_mut::<PLACES>() else {
        return SHORT_ANSWER;
    };
    let outcome = order_by_tips_outcome(parts, rules, plan, mounted_by(mounted), order);
    put_answer(outcome, places)
}
