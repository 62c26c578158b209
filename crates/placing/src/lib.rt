// The placing order and the placing order by tips, without a search: the last positions are settled, then each position takes the part that
// is preferred of those that fit.
#![tactic(auto)]

ghost use Rattle.std.specs.Prelude.{◌≡◌, length};
ghost use Rattle.refusal.specs.Reasons.{refusal_of, count_in};
ghost use Rattle.order_rules.specs.Call.{order_refusal, order_after, PlacingRule};
ghost use Rattle.cases.specs.Cases.{Told};
ghost use Rattle.order_cases.specs.Cases.{order_cases, tip_order_cases};
ghost use Rattle.head.specs.OnHead.{on_head};
ghost use Rattle.order_rules.specs.TipCall.{refusal_by_tips, buffer_by_tips, changes_by_tips, TipsRule};

mod by_tips;
mod flags;
pub mod flat;
mod marking;
mod placement;

pub use by_tips::place_by_tips;
use order_rules::{Part, Rule};
pub use placement::place;
use refusal::Refused;

// The placing order: one byte a position, the bytes past it untouched.
pub fn order_parts(parts: &[Part], rules: &[Rule], order: &mut [u8]) -> Result<(), Refused>
    ensures refusal { refusal_of result ≡ order_refusal parts.now rules.now (length order.old) }
    ensures order { order.new ≡ order_after parts.now rules.now order.old }
    ensures rule { PlacingRule parts.now rules.now (length order.old) order.new (refusal_of result) }
    ensures cases { Told (order_cases parts.now rules.now (length order.old)) (refusal_of result) }
{
    place(parts.len(), |i| parts[i], rules.len(), |i| rules[i], order)
}

// The placing order by tips: a part on the tip of the part before it, at the start on the mounted tip, comes before any other. The plan has
// each part's tip, one byte a part. Returns how often the tip is changed.
pub fn order_by_tips(
    parts: &[Part],
    rules: &[Rule],
    plan: &[u8],
    mounted: Option<usize>,
    order: &mut [u8],
) -> Result<usize, Refused>
    ensures refusal { refusal_of result ≡ refusal_by_tips parts.now rules.now plan.now (on_head mounted) (length order.old) }
    ensures order { order.new ≡ buffer_by_tips parts.now rules.now plan.now (on_head mounted) order.old }
    ensures changes { count_in result ≡ changes_by_tips parts.now rules.now plan.now (on_head mounted) (length order.old) }
    ensures rule { TipsRule parts.now rules.now plan.now (on_head mounted) (length order.old) order.new (refusal_of result)
        (count_in result) }
    ensures cases { Told (tip_order_cases parts.now rules.now plan.now (on_head mounted) (length order.old)) (refusal_of result) }
{
    place_by_tips(
        parts.len(),
        |i| parts[i],
        rules.len(),
        |i| rules[i],
        plan,
        mounted,
        order,
    )
}
