// The plan of a job file with the fewest tip changes along the list of its lines.
ghost use Rattle.std.specs.Prelude.{◌≡◌, ◌≤◌, length};
ghost use Rattle.model.specs.Limits.{most_pairs};
ghost use Rattle.head.specs.OnHead.{on_head};
ghost use Rattle.file_calls.specs.Outcomes.{outcome_of};
ghost use Rattle.file_calls.specs.Along.{along_in, along_plan_in, AlongRuleOf};
ghost use Rattle.cases.specs.Cases.{Told};
ghost use Rattle.file_calls.specs.Cases.{along_cases};

use crate::Counts;
use job_read::Room;
use refusal::Refused;

// The counts are the plan's tip changes and its pairs.
pub fn along_outcome(
    file: &[u8],
    mounted: Option<usize>,
    plan: &mut [u8],
) -> Result<Counts, Refused>
    ensures outcome { outcome_of result ≡ along_in file.now (on_head mounted) (length plan.old) }
    ensures plan { plan.new ≡ along_plan_in file.now (on_head mounted) plan.old }
    ensures rule { AlongRuleOf file.now (on_head mounted) plan.new (outcome_of result) }
    ensures cases { Told (along_cases file.now (on_head mounted) (length plan.old)) (outcome_of result).refusal }
    ensures few { (outcome_of result).second ≤ most_pairs }
{
    let mut room = Room::new();
    let lines = room.read(file)?;
    let laid = line_calls::along(lines, mounted, plan)?;
    Ok(Counts {
        first: laid.changes as u64,
        second: u64::from(laid.pairs),
        third: 0,
    })
}
