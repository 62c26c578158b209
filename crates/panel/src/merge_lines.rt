// The lines of a second board put behind those of the first, each with its quantity.
ghost use Rattle.std.specs.Prelude.{◌≡◌, length};
ghost use Rattle.model.specs.Limits.{most_lines};
ghost use Rattle.refusal.specs.Refusal.{none};
ghost use Rattle.refusal.specs.Reasons.{refusal_of};
ghost use Rattle.panel.specs.Panel.{merge_refusal, merge_of, merged_by};

use placements::Lines;
use refusal::{Reason, Refused};

// Racks that differ, then too many lines together, then too many placements.
pub fn merge_refusal(
    rack: usize,
    other: usize,
    lines: usize,
    placements: usize,
) -> Result<(), Refused>
    ensures { refusal_of result ≡ merge_refusal none rack other lines placements }
{
    refusal::refuse_when(rack != other, Reason::RacksDiffer)?;
    refusal::refuse_when(model::MOST_LINES < lines, Reason::TooManyLines)?;
    refusal::refuse_when(
        model::MOST_PLACEMENTS < placements,
        Reason::TooManyPlacements,
    )
}

// The places are those of the longest board; a refused merge leaves them as they were.
pub fn merge(
    first: Lines<'_>,
    second: Lines<'_>,
    sets: &mut [u64],
    quantities: &mut [u8],
) -> Result<(), Refused>
    requires sets_len { length sets.old ≡ most_lines }
    requires quantities_len { length quantities.old ≡ most_lines }
    ensures answer { refusal_of result ≡ merge_of none
        first.entry.rack first.entry.quantities.now first.entry.sets.now
        second.entry.rack second.entry.quantities.now second.entry.sets.now }
    ensures sets { sets.new
        ≡ merged_by (refusal_of result) first.entry.sets.now second.entry.sets.now sets.old }
    ensures quantities { quantities.new
        ≡ merged_by (refusal_of result) first.entry.quantities.now second.entry.quantities.now quantities.old }
{
    let count = first.len();
    let end = count + second.len();
    merge_refusal(first.rack, second.rack, end, first.total() + second.total())?;
    sets[..count].copy_from_slice(first.sets);
    sets[count..end].copy_from_slice(second.sets);
    quantities[..count].copy_from_slice(first.quantities);
    quantities[count..end].copy_from_slice(second.quantities);
    Ok(())
}
