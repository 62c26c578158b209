// Strike the tips that miss a pair goal, for lines that are runs of the named tips.
ghost use Rattle.std.specs.Prelude.{◌≡◌, length};
ghost use Rattle.refusal.specs.Refusal.{none};
ghost use Rattle.refusal.specs.Reasons.{refusal_of};
ghost use Rattle.line_calls.specs.Goal.{goal_asked, goal_of, struck_sets, GoalRule};

use placements::Lines;
use refusal::Refused;

// The struck sets go to a second buffer, because the sets of all lines are read for each line. After a refusal that stays as it was.
pub fn goal(lines: Lines<'_>, goal: u32, struck: &mut [u64]) -> Result<(), Refused>
    requires { length struck.old ≡ length lines.sets.now }
    ensures answer { refusal_of result
        ≡ goal_of none lines.entry.rack lines.entry.quantities.now lines.entry.sets.now goal }
    ensures sets { struck.new
        ≡ struck_sets none lines.entry.rack lines.entry.quantities.now lines.entry.sets.now goal struck.old }
    ensures rule { GoalRule (goal_asked none lines.entry.sets.now).number
        lines.entry.rack lines.entry.quantities.now lines.entry.sets.now goal
        struck.new (refusal_of result).number }
{
    call_refusals::run_refusal(lines.sets)?;
    striking::strike(lines, ranks::names_of(lines.sets), goal, struck)
}
