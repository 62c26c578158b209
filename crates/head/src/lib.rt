// The tip on the head at the start, and the choice that it wins.
#![tactic(auto)]

ghost use Rattle.std.specs.Prelude.{◌≡◌, cond};
ghost use Rattle.model.specs.Plan.{has};
ghost use Rattle.model.specs.Interval.{low};
ghost use Rattle.head.specs.OnHead.{on_head, chosen};

// One tip of the set: the tip that is mounted at the start, if one is and the set has it, else the lowest.
pub fn choose(mounted: Option<usize>, set: u64) -> usize
    ensures { result ≡ chosen (on_head mounted) set }
{
    match mounted {
        Some(tip) if tip < model::MOST_TIPS && tips::has_tip(set, tip) => tip,
        _ => tips::lowest(set),
    }
}
