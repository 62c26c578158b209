// Each call on lines that are good: the board and a call on a file ask first what comes before.
#![tactic(auto)]

ghost use Rattle.std.specs.Prelude.{◌≡◌, ◌*◌, Ok, length};
ghost use Rattle.placements.specs.Good.{GoodLines};
ghost use Rattle.head.specs.OnHead.{on_head};
ghost use Rattle.refusal.specs.Refusal.{none};
ghost use Rattle.refusal.specs.Reasons.{refusal_of, unkept_of};
ghost use Rattle.call_refusals.specs.Calls.{mounted_refusal, best_refusal};
ghost use Rattle.line_calls.specs.Answers.{common_told, keep_told, plan_told, file_told};
ghost use Rattle.line_calls.specs.Lines.{common_of, keep_of, sets_kept, quick_of, quick_buffer};
ghost use Rattle.line_calls.specs.Lines.{best_of, best_buffer, best_table, check_of, write_of, write_buffer};
ghost use Rattle.line_calls.specs.Rules.{CommonRule, KeepRule, HalfRule, BestRule, CheckRule};

use common_tip::Common;
use placements::Lines;
use refusal::{Refused, Unkept};

mod along_call;
mod exact_call;
mod goal_call;
mod junior_call;

pub use along_call::along;
pub use exact_call::exact;
pub use goal_call::goal;
pub use junior_call::junior;

// The most placements that allow one tip, the least number of placements off the common tip, and the set W of the tips that reach top.
pub fn common(lines: Lines<'_>) -> Common
    ensures answer { common_told (Ok result)
        ≡ common_of none lines.entry.rack lines.entry.quantities.now lines.entry.sets.now }
    ensures rule { CommonRule lines.entry.rack lines.entry.quantities.now lines.entry.sets.now 0
        result.top result.off result.tips }
{
    common_tip::common_tip(lines.rack, lines.sets, lines.quantities)
}

// Keep within k: the margin, which is top - n + k of n placements. Where it is below zero the sets stay as they were. They are pruned in
// place, so that no call pays for a copy: hence slices and not `Lines`.
pub fn keep(rack: usize, lines: &mut [u64], quantities: &[u8], k: u16) -> Result<i32, Unkept>
    requires { GoodLines rack quantities.now lines.old }
    ensures answer { keep_told result ≡ keep_of none rack quantities.now lines.old k }
    ensures sets { lines.new ≡ sets_kept none rack quantities.now lines.old k lines.old }
    ensures rule { KeepRule none.number rack quantities.now lines.old k lines.new (unkept_of result).number }
{
    let margin = common_tip::keep_lines(rack, lines, quantities, k);
    call_refusals::keep_refusal(margin)
}

// The pairs of the plan of quick sharing. This and each other call on a mounted tip ask first whether the rack has the tip.
pub fn quick(lines: Lines<'_>, mounted: Option<usize>, plan: &mut [u8]) -> Result<u32, Refused>
    ensures answer { plan_told result
        ≡ quick_of (mounted_refusal none lines.entry.rack (on_head mounted)) lines.entry.rack (on_head mounted)
        lines.entry.quantities.now lines.entry.sets.now (length plan.old) }
    ensures plan { plan.new
        ≡ quick_buffer (mounted_refusal none lines.entry.rack (on_head mounted)) lines.entry.rack (on_head mounted)
        lines.entry.quantities.now lines.entry.sets.now plan.old }
    ensures rule { HalfRule lines.entry.quantities.now lines.entry.sets.now
        plan.new (refusal_of result).number (plan_told result).pairs }
{
    call_refusals::mounted_refusal(lines.rack, mounted)?;
    let count = lines.len();
    call_refusals::plan_refusal(count, plan.len())?;
    Ok(greedy::plan_lines(
        lines.rack,
        mounted,
        lines.sets,
        lines.quantities,
        &mut plan[..count],
    ))
}

// The pairs of the plan of best sharing, which renumbers a working copy of the sets.
pub fn best(
    lines: Lines<'_>,
    mounted: Option<usize>,
    plan: &mut [u8],
    table: &mut [u32],
) -> Result<u32, Refused>
    ensures answer { plan_told result ≡ best_of (mounted_refusal none lines.entry.rack (on_head mounted)) lines.entry.rack
        lines.entry.quantities.now lines.entry.sets.now (length plan.old) (length table.old) }
    ensures plan { plan.new ≡ best_buffer (mounted_refusal none lines.entry.rack (on_head mounted)) lines.entry.rack (on_head mounted)
        lines.entry.quantities.now lines.entry.sets.now plan.old (length table.old) }
    ensures table { table.new ≡ best_table (mounted_refusal none lines.entry.rack (on_head mounted)) lines.entry.rack
        lines.entry.quantities.now lines.entry.sets.now (length plan.old) table.old }
    ensures rule { BestRule lines.entry.quantities.now lines.entry.sets.now
        plan.new (refusal_of result).number (plan_told result).pairs }
{
    call_refusals::mounted_refusal(lines.rack, mounted)?;
    call_refusals::best_refusal(lines.rack, lines.sets, plan.len(), table.len())?;
    let count = lines.len();
    let square = lines.rack * lines.rack;
    let mut room = [0u64; model::MOST_LINES];
    let left = &mut room[..count];
    unplanned::copy_sets(lines.sets, left);
    Ok(best::plan_lines(
        lines.rack,
        mounted,
        left,
        lines.quantities,
        &mut plan[..count],
        &mut table[..square],
    ))
}

// The same plan and pairs without the table, which some callers have no use for: it answers as `best` does with a table that is long enough.
pub fn best_plan(lines: Lines<'_>, mounted: Option<usize>, plan: &mut [u8]) -> Result<u32, Refused>
    ensures answer { plan_told result ≡ best_of (mounted_refusal none lines.entry.rack (on_head mounted)) lines.entry.rack
        lines.entry.quantities.now lines.entry.sets.now (length plan.old) (lines.entry.rack * lines.entry.rack) }
    ensures plan { plan.new ≡ best_buffer (mounted_refusal none lines.entry.rack (on_head mounted)) lines.entry.rack (on_head mounted)
        lines.entry.quantities.now lines.entry.sets.now plan.old (lines.entry.rack * lines.entry.rack) }
    ensures rule { BestRule lines.entry.quantities.now lines.entry.sets.now
        plan.new (refusal_of result).number (plan_told result).pairs }
{
    call_refusals::mounted_refusal(lines.rack, mounted)?;
    let square = lines.rack * lines.rack;
    call_refusals::best_refusal(lines.rack, lines.sets, plan.len(), square)?;
    let count = lines.len();
    let mut room = [0u64; model::MOST_LINES];
    let left = &mut room[..count];
    unplanned::copy_sets(lines.sets, left);
    Ok(best::plan_without_table(
        lines.rack,
        mounted,
        left,
        lines.quantities,
        &mut plan[..count],
    ))
}

// A plan, a claimed pair count and a table from other software, which are only read. The table's first places are those of the rack.
pub fn check(lines: Lines<'_>, plan: &[u8], claim: u32, table: &[u32]) -> Result<(), Refused>
    ensures answer { refusal_of result ≡ check_of none lines.entry.rack lines.entry.quantities.now lines.entry.sets.now
        plan.now claim table.now }
    ensures rule { CheckRule
        (best_refusal none lines.entry.rack lines.entry.sets.now (length plan.now) (length table.now)).number
        lines.entry.rack lines.entry.quantities.now lines.entry.sets.now
        plan.now claim table.now (refusal_of result).number }
{
    call_refusals::best_refusal(lines.rack, lines.sets, plan.len(), table.len())?;
    checking::check_plan(
        lines,
        ranks::names_of(lines.sets),
        &plan[..lines.len()],
        claim,
        table,
    )
}

// The bytes of the job file that is written.
pub fn write(lines: Lines<'_>, out: &mut [u8]) -> Result<usize, Refused>
    ensures answer { file_told result
        ≡ write_of none lines.entry.quantities.now lines.entry.sets.now (length out.old) }
    ensures buffer { out.new
        ≡ write_buffer none lines.entry.rack lines.entry.quantities.now lines.entry.sets.now out.old }
{
    let count = lines.len();
    let version = job_write::version_for(lines.quantities);
    call_refusals::write_refusal(version, count, out.len())?;
    let bytes = version.file_length(count);
    job_write::write_file(lines.rack, lines.quantities, lines.sets, &mut out[..bytes]);
    Ok(bytes)
}
