// Two closed boards merged into one closed board.
ghost use Rattle.std.specs.Prelude.{◌≡◌};
ghost use Rattle.board.specs.Told.{merged_answered};
ghost use Rattle.board.specs.Panel.{merge_of, MergeRule};
ghost use Rattle.refusal.specs.Reasons.{refusal_of};
ghost use Rattle.cases.specs.Cases.{Told};
ghost use Rattle.board.specs.Cases.{merge_cases};

use crate::{Board, Stage};
use refusal::Refused;

impl Board {
    // The panel that has the lines of the first and then those of the second.
    pub fn merge(&self, other: &Board) -> Result<Board, Refused>
        ensures answer { merged_answered self.now other.now result ≡ merge_of self.now other.now }
        ensures rule { MergeRule self.now other.now (merged_answered self.now other.now result) }
        ensures cases { Told (merge_cases self.now other.now) (refusal_of result) }
    {
        let lines = self.lines()?;
        let others = other.lines()?;
        let mut sets = [0u64; model::MOST_LINES];
        let mut quantities = [0u8; model::MOST_LINES];
        panel::merge(lines, others, &mut sets, &mut quantities)?;
        Ok(Board {
            rack: self.rack,
            stage: Stage::Closed,
            count: self.count + other.count,
            sets,
            quantities,
        })
    }
}
