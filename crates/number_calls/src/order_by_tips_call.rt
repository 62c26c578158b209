// The placing order by tips.
ghost use Rattle.std.specs.Prelude.{◌≡◌, length};
ghost use Rattle.refusal.specs.Reasons.{refusal_of, count_in};
ghost use Rattle.cases.specs.Cases.{Told};
ghost use Rattle.head.specs.OnHead.{on_head};
ghost use Rattle.number_calls.specs.Cases.{numbers_by_tips_cases};
ghost use Rattle.number_calls.specs.ByTips.{refusal_by_tips_in, buffer_by_tips_in, changes_by_tips_in, TipsRuleIn};

use crate::records::{part_of, records_of, rule_of};
use placing::place_by_tips;
use refusal::Refused;

// The placing order by tips of the parts and the rules that the numbers stand for.
pub fn order_by_tips(
    parts: &[u32],
    rules: &[u32],
    plan: &[u8],
    mounted: Option<usize>,
    order: &mut [u8],
) -> Result<usize, Refused>
    ensures refusal { refusal_of result ≡ refusal_by_tips_in parts.now rules.now plan.now (on_head mounted) (length order.old) }
    ensures order { order.new ≡ buffer_by_tips_in parts.now rules.now plan.now (on_head mounted) order.old }
    ensures changes { count_in result ≡ changes_by_tips_in parts.now rules.now plan.now (on_head mounted) (length order.old) }
    ensures rule { TipsRuleIn parts.now rules.now plan.now (on_head mounted) (length order.old) order.new (refusal_of result)
        (count_in result) }
    ensures cases { Told (numbers_by_tips_cases parts.now rules.now plan.now (on_head mounted) (length order.old)) (refusal_of result) }
{
    let (records, pairs) = records_of(parts, rules)?;
    place_by_tips(
        records.len(),
        |i| part_of(&records[i]),
        pairs.len(),
        |i| rule_of(&pairs[i]),
        plan,
        mounted,
        order,
    )
}
