// Exact sharing of a closed board whose lines name few tips.
ghost use Rattle.std.specs.Prelude.{◌≡◌, ◌≤◌, length};
ghost use Rattle.model.specs.Limits.{most_pairs};
ghost use Rattle.head.specs.OnHead.{on_head};
ghost use Rattle.board.specs.Told.{exact_answered};
ghost use Rattle.board.specs.Exact.{exact_of, exact_buffer, exact_cells, ExactRule};
ghost use Rattle.refusal.specs.Reasons.{refusal_of};
ghost use Rattle.cases.specs.Cases.{Told};
ghost use Rattle.board.specs.Cases.{exact_cases};

use crate::{Board, Shared};
use refusal::Refused;

impl Board {
    // The pairs of the plan that is handed out, and how many tips it uses, each of which costs the price.
    pub fn exact(
        &self,
        mounted: Option<usize>,
        price: u32,
        plan: &mut [u8],
        table: &mut [u32],
    ) -> Result<Shared, Refused>
        ensures answer { exact_answered self.now result ≡ exact_of self.now (on_head mounted) price (length plan.old) (length table.old) }
        ensures buffer { plan.new ≡ exact_buffer self.now (on_head mounted) price plan.old (length table.old) }
        ensures table { table.new ≡ exact_cells self.now (on_head mounted) price (length plan.old) table.old }
        ensures rule { ExactRule self.now price plan.new (exact_answered self.now result) }
        ensures cases { Told (exact_cases self.now (on_head mounted) (length plan.old) (length table.old)) (refusal_of result) }
        ensures few { (exact_answered self.now result).pairs ≤ most_pairs }
    {
        let lines = self.lines()?;
        line_calls::exact(lines, mounted, price, plan, table)
    }
}
