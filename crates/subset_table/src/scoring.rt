// The score of each set of tips, by the counts.
ghost use Rattle.std.specs.Prelude.{ℕ, ◌≡◌, ◌^◌, ◌≤◌, ◌<◌, T, length};
ghost use Rattle.model.specs.Limits.{most_placements};
ghost use Rattle.model.specs.Count.{largest};
ghost use Rattle.model.specs.Plan.{has};
ghost use Rattle.subset_rules.specs.Subsets.{gain};
ghost use Rattle.subset_rules.specs.Exact.{most_named, most_price};
ghost use Rattle.subset_table.specs.Scores.{taking_by, at_tip, Counted, ReadyBy, Filling};

// The pairs among p placements, or the price of a tip that is not used.
#[tactic(auto, unfolding(subset_rules::specs::Subsets::gain))]
fn gain_of(price: u32, p: u32) -> u32
    requires { p ≤ most_placements }
    ensures { result ≡ gain price p }
{
    if p == 0 {
        price
    } else {
        pair_count::pairs_among(p)
    }
}

// The score of u if its tip t takes its lines.
pub fn score_with(price: u32, counts: &[u32], scores: &[u32], u: usize, t: usize) -> u32
    requires ready { ReadyBy price counts.now scores.now u }
    requires own { T (has u t) }
    ensures { result ≡ taking_by price counts.now scores.now u t }
{
    let left = crate::without(u, t);
    gain_of(price, counts[u] - counts[left]) + scores[left]
}

// The largest score of u at one of its tips. Tries these alone, from the lowest up.
fn best_score(price: u32, counts: &[u32], scores: &[u32], u: usize) -> u32
    requires { ReadyBy price counts.now scores.now u }
    ensures { (m : ℕ) → u < 2 ^ m → result ≡ largest (at_tip price counts.now scores.now u) m }
{
    let mut best = 0;
    let mut rest = u;
    while rest != 0 {
        let t = tips::lowest(rest as u64);
        best = best.max(score_with(price, counts, scores, u, t));
        rest = crate::without(rest, t);
    }
    best
}

// The scores of all sets of m tips, in rising order: a set without one of its tips comes before it.
pub fn fill_scores(m: usize, price: u32, counts: &[u32], scores: &mut [u32])
    requires counted { Counted m counts.now }
    requires price { price ≤ most_price }
    requires room { length scores.old ≡ 2 ^ m }
    ensures { Filling price m counts.now (2 ^ m) scores.new }
{
    for u in 0..crate::set_count(m) {
        scores[u] = best_score(price, counts, scores, u);
    }
}
