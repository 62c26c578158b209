// The plan with the fewest tip changes along the list of lines.
ghost use Rattle.std.specs.Prelude.{◌≡◌, length};
ghost use Rattle.head.specs.OnHead.{on_head};
ghost use Rattle.refusal.specs.Refusal.{none};
ghost use Rattle.call_refusals.specs.Calls.{mounted_refusal};
ghost use Rattle.line_calls.specs.Answers.{along_told};
ghost use Rattle.line_calls.specs.Along.{along_of, along_buffer};

use along::AlongCounts;
use placements::Lines;
use refusal::Refused;

// The plan's changes and its pairs.
pub fn along(
    lines: Lines<'_>,
    mounted: Option<usize>,
    plan: &mut [u8],
) -> Result<AlongCounts, Refused>
    ensures answer { along_told result
        ≡ along_of (mounted_refusal none lines.entry.rack (on_head mounted)) (on_head mounted)
        lines.entry.quantities.now lines.entry.sets.now (length plan.old) }
    ensures plan { plan.new ≡ along_buffer (mounted_refusal none lines.entry.rack (on_head mounted)) (on_head mounted)
        lines.entry.sets.now plan.old }
{
    call_refusals::mounted_refusal(lines.rack, mounted)?;
    let count = lines.len();
    call_refusals::plan_refusal(count, plan.len())?;
    Ok(along::plan_lines(lines, mounted, &mut plan[..count]))
}
