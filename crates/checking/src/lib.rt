// A plan, a claimed pair count and a table from other software, checked for lines that are runs of the named tips.
#![tactic(auto)]

mod claimed;
mod fitting;
mod ranked;
mod tabled;

ghost use Rattle.std.specs.Prelude.{◌≡◌, ◌*◌, ◌≤◌, length};
ghost use Rattle.refusal.specs.Reasons.{refusal_of};
ghost use Rattle.ranks.specs.Runs.{RunsOf};
ghost use Rattle.checking.specs.Checking.{check_refusal};

use placements::Lines;
use refusal::{Reason, Refused};

// `ForeignTip`, `WrongClaim` or `WrongTable`, or nothing where all is accepted. `names` is the set of the tips that the lines name.
// The clauses on lengths stay: they are sizes of two buffers of the caller.
pub fn check_plan(
    lines: Lines<'_>,
    names: u64,
    plan: &[u8],
    claim: u32,
    table: &[u32],
) -> Result<(), Refused>
    requires named { RunsOf names lines.sets.now }
    requires planned { length plan.now ≡ length lines.sets.now }
    requires cells { lines.rack * lines.rack ≤ length table.now }
    ensures { refusal_of result ≡ check_refusal lines.entry.rack lines.entry.quantities.now lines.entry.sets.now plan.now claim table.now }
{
    claimed::claim_refusal(lines.sets, lines.quantities, plan, claim)?;
    let fits = fitting::table_fits(lines, names, claim, table);
    refusal::refuse_when(!fits, Reason::WrongTable)
}
