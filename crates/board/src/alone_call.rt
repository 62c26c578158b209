// Quick sharing of two closed boards, each alone, whatever their racks.
ghost use Rattle.std.specs.Prelude.{◌≡◌, ◌≤◌, length};
ghost use Rattle.model.specs.Limits.{most_pairs};
ghost use Rattle.board.specs.Told.{alone_answered};
ghost use Rattle.board.specs.Panel.{alone_of, alone_buffer, AloneRule};
ghost use Rattle.refusal.specs.Reasons.{refusal_of};
ghost use Rattle.cases.specs.Cases.{Told};
ghost use Rattle.board.specs.Cases.{alone_cases};

use crate::{AlonePairs, Board};
use refusal::Refused;

impl Board {
    // The number of pairs of placements on one tip in the plan of each.
    pub fn alone(&self, other: &Board, plan: &mut [u8]) -> Result<AlonePairs, Refused>
        ensures answer { alone_answered self.now other.now result
            ≡ alone_of self.now other.now (length plan.old) }
        ensures plan { plan.new ≡ alone_buffer self.now other.now plan.old }
        ensures rule { AloneRule self.now other.now plan.new (alone_answered self.now other.now result) }
        ensures cases { Told (alone_cases self.now other.now (length plan.old)) (refusal_of result) }
        ensures first_few { (alone_answered self.now other.now result).first_pairs ≤ most_pairs }
        ensures second_few { (alone_answered self.now other.now result).second_pairs ≤ most_pairs }
    {
        let lines = self.lines()?;
        let others = other.lines()?;
        panel::alone(lines, others, plan)
    }
}
