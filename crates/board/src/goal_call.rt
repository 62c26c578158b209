// Strike the tips that miss a pair goal, on a closed board whose lines are runs of the named tips.
ghost use Rattle.std.specs.Prelude.{◌≡◌};
ghost use Rattle.board.specs.Told.{answered};
ghost use Rattle.board.specs.Goal.{goal_of, GoalRule};
ghost use Rattle.refusal.specs.Reasons.{refusal_of};
ghost use Rattle.cases.specs.Cases.{Told};
ghost use Rattle.board.specs.Cases.{goal_cases};

use crate::Board;
use refusal::Refused;

impl Board {
    // No buffer is lent: the arrays of striking take up to 87,176 bytes of the stack, and the second array of sets 4,096.
    pub fn goal(&mut self, goal: u32) -> Result<(), Refused>
        ensures answer { answered self.new result ≡ goal_of self.old goal }
        ensures rule { GoalRule self.old goal (answered self.new result) }
        ensures cases { Told (goal_cases self.old goal) (refusal_of result) }
    {
        let lines = self.lines()?;
        let count = self.count;
        let mut struck = self.sets;
        line_calls::goal(lines, goal, &mut struck[..count])?;
        self.sets = struck;
        Ok(())
    }
}
