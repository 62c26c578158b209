// The Junior with two holders on lines.
ghost use Rattle.std.specs.Prelude.{◌≡◌, length};
ghost use Rattle.refusal.specs.Refusal.{none};
ghost use Rattle.refusal.specs.Reasons.{refusal_of};
ghost use Rattle.call_refusals.specs.Junior.{junior_refusal};
ghost use Rattle.line_calls.specs.Answers.{junior_told};
ghost use Rattle.line_calls.specs.Junior.{junior_of, junior_buffer, JuniorRule};

use junior::Found;
use placements::Lines;
use refusal::{Reason, Refused};

// The plan's pairs, and the tips u and v that it is on.
pub fn junior(lines: Lines<'_>, plan: &mut [u8]) -> Result<Found, Refused>
    ensures answer { junior_told result
        ≡ junior_of none lines.entry.rack lines.entry.quantities.now lines.entry.sets.now (length plan.old) }
    ensures plan { plan.new
        ≡ junior_buffer none lines.entry.rack lines.entry.quantities.now lines.entry.sets.now plan.old }
    ensures rule { JuniorRule
        (junior_refusal none lines.entry.rack (length lines.entry.sets.now) (length plan.old)).number
        lines.entry.quantities.now lines.entry.sets.now
        plan.new (refusal_of result).number
        (junior_told result).pairs (junior_told result).u (junior_told result).v }
{
    let count = lines.len();
    call_refusals::junior_refusal(lines.rack, count, plan.len())?;
    junior::plan_lines(lines, &mut plan[..count]).ok_or(Reason::NoTwoTips.at(0))
}
