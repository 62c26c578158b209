// The windows.
ghost use Rattle.std.specs.Prelude.{◌≡◌};
ghost use Rattle.refusal.specs.Reasons.{refusal_of};
ghost use Rattle.number_calls.specs.Numbers.{order_in};
ghost use Rattle.cases.specs.Cases.{Told};
ghost use Rattle.number_calls.specs.Cases.{numbers_cases};
ghost use Rattle.part_windows.specs.Call.{room};
ghost use Rattle.number_calls.specs.Windows.{first_after_in, last_after_in, WindowsRuleIn};

use crate::records::{part_of, records_of, rule_of};
use part_windows::place_windows;
use refusal::Refused;

// The windows of the parts that the numbers stand for.
pub fn window_numbers(
    parts: &[u32],
    rules: &[u32],
    first: &mut [u8],
    last: &mut [u8],
) -> Result<(), Refused>
    ensures refusal { refusal_of result ≡ order_in parts.now rules.now (room first.old last.old) }
    ensures first { first.new ≡ first_after_in parts.now rules.now first.old last.old }
    ensures last { last.new ≡ last_after_in parts.now rules.now first.old last.old }
    ensures rule { WindowsRuleIn parts.now rules.now (room first.old last.old) first.new last.new (refusal_of result) }
    ensures cases { Told (numbers_cases parts.now rules.now (room first.old last.old)) (refusal_of result) }
{
    let (records, pairs) = records_of(parts, rules)?;
    place_windows(
        records.len(),
        |i| part_of(&records[i]),
        pairs.len(),
        |i| rule_of(&pairs[i]),
        first,
        last,
    )
}
