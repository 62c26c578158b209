// Best sharing of a closed board whose lines are runs of the named tips.
ghost use Rattle.std.specs.Prelude.{◌≡◌, ◌≤◌, length};
ghost use Rattle.model.specs.Limits.{most_pairs};
ghost use Rattle.head.specs.OnHead.{on_head};
ghost use Rattle.board.specs.Told.{shared_answered};
ghost use Rattle.board.specs.Sharing.{best_of, best_buffer, best_table, BestRule, TableRule};
ghost use Rattle.refusal.specs.Reasons.{refusal_of};
ghost use Rattle.cases.specs.Cases.{Told};
ghost use Rattle.board.specs.Cases.{best_cases};
ghost use Rattle.board.specs.Check.{CheckAccepts};

use crate::Board;
use refusal::Refused;

impl Board {
    // The number of pairs of placements on one tip in the plan that is handed out.
    pub fn best(
        &self,
        mounted: Option<usize>,
        plan: &mut [u8],
        table: &mut [u32],
    ) -> Result<u32, Refused>
        ensures answer { shared_answered self.now result
            ≡ best_of self.now (on_head mounted) (length plan.old) (length table.old) }
        ensures plan { plan.new ≡ best_buffer self.now (on_head mounted) plan.old (length table.old) }
        ensures table { table.new ≡ best_table self.now (on_head mounted) (length plan.old) table.old }
        ensures rule { BestRule self.now plan.new (shared_answered self.now result) }
        ensures cases { Told (best_cases self.now (on_head mounted) (length plan.old) (length table.old)) (refusal_of result) }
        ensures few { (shared_answered self.now result).pairs ≤ most_pairs }
        ensures entries { TableRule self.now table.new (shared_answered self.now result) }
        ensures checked { CheckAccepts self.now plan.new table.new (shared_answered self.now result) }
    {
        let lines = self.lines()?;
        line_calls::best(lines, mounted, plan, table)
    }
}
