// The plan of a closed board with the fewest tip changes along the list of its lines.
ghost use Rattle.std.specs.Prelude.{◌≡◌, ◌≤◌, length};
ghost use Rattle.model.specs.Limits.{most_pairs};
ghost use Rattle.head.specs.OnHead.{on_head};
ghost use Rattle.board.specs.Told.{along_answered};
ghost use Rattle.board.specs.Along.{along_of, along_buffer, AlongRule};
ghost use Rattle.refusal.specs.Reasons.{refusal_of};
ghost use Rattle.cases.specs.Cases.{Told};
ghost use Rattle.board.specs.Cases.{along_cases};

use crate::{AlongCounts, Board};
use refusal::Refused;

impl Board {
    // The tip changes of the plan that is handed out, the lines placed in the order of the list, and its pairs.
    pub fn along(&self, mounted: Option<usize>, plan: &mut [u8]) -> Result<AlongCounts, Refused>
        ensures answer { along_answered self.now result ≡ along_of self.now (on_head mounted) (length plan.old) }
        ensures buffer { plan.new ≡ along_buffer self.now (on_head mounted) plan.old }
        ensures rule { AlongRule self.now (on_head mounted) plan.new (along_answered self.now result) }
        ensures cases { Told (along_cases self.now (on_head mounted) (length plan.old)) (refusal_of result) }
        ensures few { (along_answered self.now result).pairs ≤ most_pairs }
    {
        let lines = self.lines()?;
        line_calls::along(lines, mounted, plan)
    }
}
