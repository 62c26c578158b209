// The Junior with two holders on a job file.
ghost use Rattle.std.specs.Prelude.{◌≡◌, ◌≤◌, length};
ghost use Rattle.model.specs.Limits.{most_lines, most_pairs};
ghost use Rattle.file_calls.specs.Outcomes.{outcome_of};
ghost use Rattle.file_calls.specs.Junior.{junior_in, junior_plan_in, JuniorRuleOf};
ghost use Rattle.job_read.specs.Reading.{HasRoom};
ghost use Rattle.cases.specs.Cases.{Told};
ghost use Rattle.file_calls.specs.Cases.{junior_cases};

use crate::Counts;
use job_read::{FEW, MOST, RoomOf};
use refusal::Refused;

// A file of at most N lines.
fn junior_in<const N: usize>(file: &[u8], plan: &mut [u8]) -> Result<Counts, Refused>
    requires size { N ≤ most_lines }
    requires room { HasRoom N file.now }
    ensures outcome { outcome_of result ≡ junior_in file.now (length plan.old) }
    ensures plan { plan.new ≡ junior_plan_in file.now plan.old }
    ensures rule { JuniorRuleOf file.now (length plan.old) plan.new (outcome_of result) }
    ensures cases { Told (junior_cases file.now (length plan.old)) (outcome_of result).refusal }
    ensures few { (outcome_of result).first ≤ most_pairs }
{
    let mut room = RoomOf::<N>::new();
    let lines = room.read_short(file)?;
    let found = line_calls::junior(lines, plan)?;
    Ok(Counts {
        first: u64::from(found.pairs),
        second: found.u as u64,
        third: found.v as u64,
    })
}

// The counts are the plan's pairs and its tips u and v.
#[tactic(auto, using(job_read::proofs::ReadLines::most_room))]
pub fn junior_outcome(file: &[u8], plan: &mut [u8]) -> Result<Counts, Refused>
    ensures outcome { outcome_of result ≡ junior_in file.now (length plan.old) }
    ensures plan { plan.new ≡ junior_plan_in file.now plan.old }
    ensures rule { JuniorRuleOf file.now (length plan.old) plan.new (outcome_of result) }
    ensures cases { Told (junior_cases file.now (length plan.old)) (outcome_of result).refusal }
    ensures few { (outcome_of result).first ≤ most_pairs }
{
    if job_read::is_short(file) {
        junior_in::<FEW>(file, plan)
    } else {
        junior_in::<MOST>(file, plan)
    }
}
