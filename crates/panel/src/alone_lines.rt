// Each of two boards planned alone by the quick rule, without a mounted tip: the second plan stands behind the first.
ghost use Rattle.std.specs.Prelude.{◌≡◌, length};
ghost use Rattle.refusal.specs.Refusal.{none};
ghost use Rattle.refusal.specs.Reasons.{refusal_of};
ghost use Rattle.panel.specs.Answers.{alone_told};
ghost use Rattle.panel.specs.Panel.{alone_of, alone_buffer};
ghost use Rattle.panel.specs.Rules.{AloneRule};

use crate::AlonePairs;
use placements::Lines;
use refusal::Refused;

pub fn alone(first: Lines<'_>, second: Lines<'_>, plan: &mut [u8]) -> Result<AlonePairs, Refused>
    ensures answer { alone_told result ≡ alone_of none
        first.entry.rack first.entry.quantities.now first.entry.sets.now
        second.entry.rack second.entry.quantities.now second.entry.sets.now
        (length plan.old) }
    ensures plan { plan.new ≡ alone_buffer none
        first.entry.rack first.entry.quantities.now first.entry.sets.now
        second.entry.rack second.entry.quantities.now second.entry.sets.now
        plan.old }
    ensures rule { AloneRule
        first.entry.quantities.now first.entry.sets.now
        second.entry.quantities.now second.entry.sets.now
        plan.new (refusal_of result).number
        (alone_told result).first_pairs (alone_told result).second_pairs }
{
    let count = first.len();
    call_refusals::plan_refusal(count + second.len(), plan.len())?;
    let first_pairs = line_calls::quick(first, None, plan)?;
    let second_pairs = line_calls::quick(second, None, &mut plan[count..])?;
    Ok(AlonePairs {
        first: first_pairs,
        second: second_pairs,
    })
}
