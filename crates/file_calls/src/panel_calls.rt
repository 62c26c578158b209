// What merging two job files in memory and planning each alone give.
ghost use Rattle.std.specs.Prelude.{◌≡◌, ◌≤◌, length};
ghost use Rattle.model.specs.Limits.{most_lines, most_pairs};
ghost use Rattle.file_calls.specs.Outcomes.{outcome_of};
ghost use Rattle.file_calls.specs.Panel.{merge_of_files, merge_file_in, MergeRuleOf, alone_in, alone_plan_in, AloneRuleOf};
ghost use Rattle.job_read.specs.Reading.{HasRoom};
ghost use Rattle.cases.specs.Cases.{Told};
ghost use Rattle.file_calls.specs.Cases.{merge_cases, alone_cases};

use crate::Counts;
use job_read::{FEW, MOST, RoomOf};
use refusal::Refused;

pub fn merge_outcome(first: &[u8], second: &[u8], out: &mut [u8]) -> Result<Counts, Refused>
    ensures outcome { outcome_of result ≡ merge_of_files first.now second.now (length out.old) }
    ensures out { out.new ≡ merge_file_in first.now second.now out.old }
    ensures rule { MergeRuleOf first.now second.now out.new (outcome_of result) }
    ensures cases { Told (merge_cases first.now second.now (length out.old)) (outcome_of result).refusal }
{
    let opened = job_read::open(first)?;
    let other = job_read::open(second)?;
    let bytes = panel::merge_files(opened, other, out)?;
    Ok(Counts::one(bytes as u64))
}

// Files of at most N lines each.
fn alone_in<const N: usize>(first: &[u8], second: &[u8], plan: &mut [u8]) -> Result<Counts, Refused>
    requires size { N ≤ most_lines }
    requires first_room { HasRoom N first.now }
    requires second_room { HasRoom N second.now }
    ensures outcome { outcome_of result ≡ alone_in first.now second.now (length plan.old) }
    ensures plan { plan.new ≡ alone_plan_in first.now second.now plan.old }
    ensures rule { AloneRuleOf first.now second.now plan.new (outcome_of result) }
    ensures cases { Told (alone_cases first.now second.now (length plan.old)) (outcome_of result).refusal }
    ensures first_few { (outcome_of result).first ≤ most_pairs }
    ensures second_few { (outcome_of result).second ≤ most_pairs }
{
    let mut room = RoomOf::<N>::new();
    let lines = room.read_short(first)?;
    let mut other_room = RoomOf::<N>::new();
    let others = other_room.read_short(second)?;
    let pairs = panel::alone(lines, others, plan)?;
    Ok(Counts {
        first: u64::from(pairs.first),
        second: u64::from(pairs.second),
        third: 0,
    })
}

#[tactic(auto, using(job_read::proofs::ReadLines::most_room))]
pub fn alone_outcome(first: &[u8], second: &[u8], plan: &mut [u8]) -> Result<Counts, Refused>
    ensures outcome { outcome_of result ≡ alone_in first.now second.now (length plan.old) }
    ensures plan { plan.new ≡ alone_plan_in first.now second.now plan.old }
    ensures rule { AloneRuleOf first.now second.now plan.new (outcome_of result) }
    ensures cases { Told (alone_cases first.now second.now (length plan.old)) (outcome_of result).refusal }
    ensures first_few { (outcome_of result).first ≤ most_pairs }
    ensures second_few { (outcome_of result).second ≤ most_pairs }
{
    if job_read::is_short(first) && job_read::is_short(second) {
        alone_in::<FEW>(first, second, plan)
    } else {
        alone_in::<MOST>(first, second, plan)
    }
}
