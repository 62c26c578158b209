// The pairs of a plan, counted line by line: a line's placements join those on its tip.
#![tactic(auto)]

ghost use Rattle.std.specs.Prelude.{◌≡◌, ◌≤◌, ◌<◌, ◌+◌, ◌-◌, length, get_or, set};
ghost use Rattle.model.specs.Limits.{most_tips, most_placements};
ghost use Rattle.model.specs.Count.{All};
ghost use Rattle.model.specs.Plan.{pairs, choose2};
ghost use Rattle.placements.specs.Repeated.{total, repeated};

// A line's placements join those on its tip. Returns how many pairs more the tip then has.
pub fn join(on: &mut [u32; model::MOST_TIPS], tip: usize, quantity: u8) -> u32
    requires tip { tip < most_tips }
    requires few { get_or on.old tip 0 + quantity ≤ most_placements }
    ensures on { on.new ≡ set on.old tip (get_or on.old tip 0 + quantity) }
    ensures pairs { result ≡ choose2 (get_or on.old tip 0 + quantity) - choose2 (get_or on.old tip 0) }
{
    let before = on[tip];
    let after = before + u32::from(quantity);
    on[tip] = after;
    pair_count::pairs_among(after) - pair_count::pairs_among(before)
}

// The pairs of a plan, where each line is on a tip of the largest rack.
pub fn count_pairs(quantities: &[u8], plan: &[u8]) -> u32
    requires as_lines { length quantities.now ≡ length plan.now }
    requires tips { All (λ t. t < most_tips) plan.now }
    requires few { total quantities.now ≤ most_placements }
    ensures { result ≡ pairs (repeated quantities.now plan.now) }
{
    let mut on = [0u32; model::MOST_TIPS];
    let mut shared = 0;
    for (&tip, &quantity) in plan.iter().zip(quantities) {
        shared += join(&mut on, usize::from(tip), quantity);
    }
    shared
}
