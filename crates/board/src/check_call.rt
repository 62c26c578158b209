// The check of a plan, a claimed pair count and a table from other software, for a closed board whose lines are runs of the named tips.
ghost use Rattle.std.specs.Prelude.{◌≡◌};
ghost use Rattle.board.specs.Told.{answered};
ghost use Rattle.board.specs.Check.{check_of, CheckRule};
ghost use Rattle.refusal.specs.Reasons.{refusal_of};
ghost use Rattle.cases.specs.Cases.{Told};
ghost use Rattle.board.specs.Cases.{check_cases};

use crate::Board;
use refusal::Refused;

impl Board {
    pub fn check(&self, plan: &[u8], claim: u32, table: &[u32]) -> Result<(), Refused>
        ensures answer { answered self.now result ≡ check_of self.now plan.now claim table.now }
        ensures rule { CheckRule self.now plan.now claim table.now (answered self.now result) }
        ensures cases { Told (check_cases self.now plan.now claim table.now) (refusal_of result) }
    {
        let lines = self.lines()?;
        line_calls::check(lines, plan, claim, table)
    }
}
