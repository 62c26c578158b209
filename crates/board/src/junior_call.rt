// The Junior with two holders on a closed board.
ghost use Rattle.std.specs.Prelude.{◌≡◌, ◌≤◌, length};
ghost use Rattle.model.specs.Limits.{most_pairs};
ghost use Rattle.board.specs.Told.{junior_answered};
ghost use Rattle.board.specs.Junior.{junior_of, junior_buffer, JuniorRule};
ghost use Rattle.refusal.specs.Reasons.{refusal_of};
ghost use Rattle.cases.specs.Cases.{Told};
ghost use Rattle.board.specs.Cases.{junior_cases};

use crate::{Board, Found};
use refusal::Refused;

impl Board {
    // The number of pairs of placements on one tip in the Junior's plan, and the tips u and v that it is on.
    pub fn junior(&self, plan: &mut [u8]) -> Result<Found, Refused>
        ensures answer { junior_answered self.now result ≡ junior_of self.now (length plan.old) }
        ensures buffer { plan.new ≡ junior_buffer self.now plan.old }
        ensures rule { JuniorRule self.now (length plan.old) plan.new (junior_answered self.now result) }
        ensures cases { Told (junior_cases self.now (length plan.old)) (refusal_of result) }
        ensures few { (junior_answered self.now result).pairs ≤ most_pairs }
    {
        let lines = self.lines()?;
        line_calls::junior(lines, plan)
    }
}
