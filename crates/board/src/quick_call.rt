// Quick sharing of a closed board.
ghost use Rattle.std.specs.Prelude.{◌≡◌, ◌≤◌, length};
ghost use Rattle.model.specs.Limits.{most_pairs};
ghost use Rattle.head.specs.OnHead.{on_head};
ghost use Rattle.board.specs.Told.{shared_answered};
ghost use Rattle.board.specs.Sharing.{quick_of, quick_buffer, HalfRule};
ghost use Rattle.refusal.specs.Reasons.{refusal_of};
ghost use Rattle.cases.specs.Cases.{Told};
ghost use Rattle.board.specs.Cases.{quick_cases};

use crate::Board;
use refusal::Refused;

impl Board {
    // The number of pairs of placements on one tip in the plan that is handed out.
    pub fn quick(&self, mounted: Option<usize>, plan: &mut [u8]) -> Result<u32, Refused>
        ensures answer { shared_answered self.now result ≡ quick_of self.now (on_head mounted) (length plan.old) }
        ensures buffer { plan.new ≡ quick_buffer self.now (on_head mounted) plan.old }
        ensures rule { HalfRule self.now plan.new (shared_answered self.now result) }
        ensures cases { Told (quick_cases self.now (on_head mounted) (length plan.old)) (refusal_of result) }
        ensures few { (shared_answered self.now result).pairs ≤ most_pairs }
    {
        let lines = self.lines()?;
        line_calls::quick(lines, mounted, plan)
    }
}
