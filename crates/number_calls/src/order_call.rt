// The placing order.
ghost use Rattle.std.specs.Prelude.{◌≡◌, length};
ghost use Rattle.refusal.specs.Reasons.{refusal_of};
ghost use Rattle.number_calls.specs.Numbers.{order_in, order_after_in, PlacingRuleIn};
ghost use Rattle.cases.specs.Cases.{Told};
ghost use Rattle.number_calls.specs.Cases.{numbers_cases};

use crate::records::{part_of, records_of, rule_of};
use placing::place;
use refusal::Refused;

// The placing order of the parts and the rules that the numbers stand for.
pub fn order_numbers(parts: &[u32], rules: &[u32], order: &mut [u8]) -> Result<(), Refused>
    ensures refusal { refusal_of result ≡ order_in parts.now rules.now (length order.old) }
    ensures order { order.new ≡ order_after_in parts.now rules.now order.old }
    ensures rule { PlacingRuleIn parts.now rules.now (length order.old) order.new (refusal_of result) }
    ensures cases { Told (numbers_cases parts.now rules.now (length order.old)) (refusal_of result) }
{
    let (records, pairs) = records_of(parts, rules)?;
    place(
        records.len(),
        |i| part_of(&records[i]),
        pairs.len(),
        |i| rule_of(&pairs[i]),
        order,
    )
}
