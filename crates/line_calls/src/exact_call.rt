// Exact sharing of lines that name few tips, at a price for each tip that the plan uses.
ghost use Rattle.std.specs.Prelude.{◌≡◌, ◌≤◌, length};
ghost use Rattle.model.specs.Limits.{most_tips};
ghost use Rattle.head.specs.OnHead.{on_head};
ghost use Rattle.refusal.specs.Refusal.{none};
ghost use Rattle.refusal.specs.Reasons.{refusal_of};
ghost use Rattle.call_refusals.specs.Calls.{mounted_refusal};
ghost use Rattle.line_calls.specs.Answers.{exact_told};
ghost use Rattle.line_calls.specs.Exact.{exact_refusal, exact_of, exact_buffer, exact_cells};

use exact::Shared;
use placements::Lines;
use refusal::{Reason, Refused};

// A plan buffer of `room` bytes that is shorter than the lines, then too many named tips, then a table of too few places.
fn exact_refusal(rack: usize, lines: &[u64], room: usize, places: usize) -> Result<(), Refused>
    requires { rack ≤ most_tips }
    ensures { refusal_of result ≡ exact_refusal none rack lines.now room places }
{
    call_refusals::plan_refusal(lines.len(), room)?;
    let named = exact::count_named(rack, lines);
    refusal::refuse_when(exact::MOST_NAMED < named, Reason::TooManyNamed)?;
    refusal::refuse_when(places < exact::table_places(named), Reason::ShortTable)
}

// The plan's pairs, and how many tips it uses. A working copy of the sets is renumbered.
pub fn exact(
    lines: Lines<'_>,
    mounted: Option<usize>,
    price: u32,
    plan: &mut [u8],
    table: &mut [u32],
) -> Result<Shared, Refused>
    ensures answer { exact_told result ≡ exact_of (mounted_refusal none lines.entry.rack (on_head mounted))
        lines.entry.rack (on_head mounted) price lines.entry.quantities.now lines.entry.sets.now (length plan.old) (length table.old) }
    ensures plan { plan.new ≡ exact_buffer (mounted_refusal none lines.entry.rack (on_head mounted))
        lines.entry.rack (on_head mounted) price lines.entry.quantities.now lines.entry.sets.now plan.old (length table.old) }
    ensures table { table.new ≡ exact_cells (mounted_refusal none lines.entry.rack (on_head mounted))
        lines.entry.rack price lines.entry.quantities.now lines.entry.sets.now (length plan.old) table.old }
{
    call_refusals::mounted_refusal(lines.rack, mounted)?;
    exact_refusal(lines.rack, lines.sets, plan.len(), table.len())?;
    let count = lines.len();
    let places = exact::table_places(exact::count_named(lines.rack, lines.sets));
    let mut room = [0u64; model::MOST_LINES];
    let left = &mut room[..count];
    unplanned::copy_sets(lines.sets, left);
    Ok(exact::plan_board(
        lines.rack,
        mounted,
        price,
        left,
        lines.quantities,
        &mut plan[..count],
        &mut table[..places],
    ))
}
