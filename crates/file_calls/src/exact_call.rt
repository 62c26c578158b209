// Exact sharing of a job file whose lines name few tips.
ghost use Rattle.std.specs.Prelude.{◌≡◌, ◌≤◌, length};
ghost use Rattle.model.specs.Limits.{most_pairs};
ghost use Rattle.head.specs.OnHead.{on_head};
ghost use Rattle.file_calls.specs.Outcomes.{outcome_of};
ghost use Rattle.file_calls.specs.Exact.{exact_in, exact_plan_in, exact_cells_in, ExactRuleOf};
ghost use Rattle.cases.specs.Cases.{Told};
ghost use Rattle.file_calls.specs.Cases.{exact_cases};

use crate::Counts;
use job_read::Room;
use refusal::Refused;

// The counts are the plan's pairs and its tips.
pub fn exact_outcome(
    file: &[u8],
    mounted: Option<usize>,
    price: u32,
    plan: &mut [u8],
    table: &mut [u32],
) -> Result<Counts, Refused>
    ensures outcome { outcome_of result ≡ exact_in file.now (on_head mounted) price (length plan.old) (length table.old) }
    ensures plan { plan.new ≡ exact_plan_in file.now (on_head mounted) price plan.old (length table.old) }
    ensures table { table.new ≡ exact_cells_in file.now (on_head mounted) price (length plan.old) table.old }
    ensures rule { ExactRuleOf file.now price plan.new (outcome_of result) }
    ensures cases { Told (exact_cases file.now (on_head mounted) (length plan.old) (length table.old)) (outcome_of result).refusal }
    ensures few { (outcome_of result).first ≤ most_pairs }
{
    let mut room = Room::new();
    let lines = room.read(file)?;
    let laid = line_calls::exact(lines, mounted, price, plan, table)?;
    Ok(Counts {
        first: u64::from(laid.pairs),
        second: laid.tips as u64,
        third: 0,
    })
}
