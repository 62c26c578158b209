// Strike the tips that miss a pair goal, on a job file.
ghost use Rattle.std.specs.Prelude.{◌≡◌, length};
ghost use Rattle.file_calls.specs.Outcomes.{outcome_of};
ghost use Rattle.file_calls.specs.Goal.{goal_in, goal_file_in, GoalRuleOf};
ghost use Rattle.cases.specs.Cases.{Told};
ghost use Rattle.file_calls.specs.Cases.{goal_cases};

use crate::Counts;
use job_read::Room;
use placements::Lines;
use refusal::Refused;

// The struck sets have an array of their own.
pub fn goal_outcome(file: &[u8], goal: u32, out: &mut [u8]) -> Result<Counts, Refused>
    ensures outcome { outcome_of result ≡ goal_in file.now goal (length out.old) }
    ensures out { out.new ≡ goal_file_in file.now goal out.old }
    ensures rule { GoalRuleOf file.now goal out.new (outcome_of result) }
    ensures cases { Told (goal_cases file.now goal (length out.old)) (outcome_of result).refusal }
{
    let mut room = Room::new();
    let lines = room.read(file)?;
    let mut struck = [0u64; model::MOST_LINES];
    let struck = &mut struck[..lines.len()];
    line_calls::goal(lines, goal, struck)?;
    let left = Lines {
        rack: lines.rack,
        sets: struck,
        quantities: lines.quantities,
    };
    let bytes = line_calls::write(left, out)?;
    Ok(Counts::one(bytes as u64))
}
