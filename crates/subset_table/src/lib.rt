// The table of exact sharing: how many placements are within each set of tips, and the score of each set.
// A set of tips below 20 is a place of the table: bit t of its number stands for tip t.
#![tactic(auto)]

mod counting;
mod scoring;

ghost use Rattle.std.specs.Prelude.{◌≡◌, ◌-◌, ◌^◌, ◌≤◌, ◌<◌, T, length};
ghost use Rattle.model.specs.Count.{list_of};
ghost use Rattle.model.specs.Plan.{has};
ghost use Rattle.placements.specs.Repeated.{repeated};
ghost use Rattle.subset_rules.specs.Subsets.{lying, score};
ghost use Rattle.subset_rules.specs.Exact.{most_named, most_price};
ghost use Rattle.subset_table.specs.Counting.{NarrowLines};

pub use scoring::score_with;

#[tactic(auto, unfolding(model::specs::Plan::has))]
pub fn has_tip(u: usize, t: usize) -> bool
    requires { t < most_named }
    ensures { result ≡ has u t }
{
    (u >> t) % 2 == 1
}

// The set u without its tip t.
#[tactic(auto, using(subset_rules::proofs::Drop::pow_le))]
pub fn without(u: usize, t: usize) -> usize
    requires small { t < most_named }
    requires own { T (has u t) }
    ensures { result ≡ u - 2 ^ t }
{
    u - (1 << t)
}

// The number of the sets of m tips.
pub fn set_count(m: usize) -> usize
    requires { m ≤ most_named }
    ensures { result ≡ 2 ^ m }
{
    1 << m
}

// The counts and the scores of all sets of m tips.
pub fn fill_table(
    m: usize,
    price: u32,
    lines: &[u64],
    quantities: &[u8],
    counts: &mut [u32],
    scores: &mut [u32],
)
    requires lines { NarrowLines m quantities.now lines.now }
    requires price { price ≤ most_price }
    requires counts { length counts.old ≡ 2 ^ m }
    requires scores { length scores.old ≡ 2 ^ m }
    ensures counts { counts.new ≡ list_of (lying m (repeated quantities.now lines.now)) (2 ^ m) }
    ensures scores { scores.new ≡ list_of (score price (lying m (repeated quantities.now lines.now)) m) (2 ^ m) }
{
    counting::count_within(m, lines, quantities, counts);
    scoring::fill_scores(m, price, counts, scores);
}
