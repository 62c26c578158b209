// A plan from other software: each line on a tip of its own, and the count of its placement pairs.
ghost use Rattle.std.specs.Prelude.{◌≡◌, ◌≤◌, length};
ghost use Rattle.model.specs.Limits.{most_placements};
ghost use Rattle.placements.specs.Repeated.{total};
ghost use Rattle.refusal.specs.Reasons.{refusal_of};
ghost use Rattle.checking.specs.Checking.{claim_refusal};

use refusal::{Reason, Refused};

// In one pass. A byte of 64 or more is no tip.
pub fn claim_refusal(
    lines: &[u64],
    quantities: &[u8],
    plan: &[u8],
    claim: u32,
) -> Result<(), Refused>
    requires as_lines { length quantities.now ≡ length lines.now }
    requires planned { length plan.now ≡ length lines.now }
    requires few { total quantities.now ≤ most_placements }
    ensures { refusal_of result ≡ claim_refusal quantities.now lines.now plan.now claim }
{
    let mut on = [0u32; model::MOST_TIPS];
    let mut shared = 0;
    for ((tip, line), quantity) in plan.iter().zip(lines).zip(quantities) {
        let tip = usize::from(*tip);
        if model::MOST_TIPS <= tip || !tips::has_tip(*line, tip) {
            return Err(Reason::ForeignTip.at(0));
        }
        shared += plan_pairs::join(&mut on, tip, *quantity);
    }
    refusal::refuse_when(claim != shared, Reason::WrongClaim)
}
