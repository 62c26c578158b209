// Each line on the first of the listed tips that it allows, and the pairs and the tips of that plan.
ghost use Rattle.std.specs.Prelude.{◌≡◌, ◌<◌, map, length};
ghost use Rattle.model.specs.Limits.{most_tips};
ghost use Rattle.model.specs.Count.{All};
ghost use Rattle.model.specs.Greedy.{first};
ghost use Rattle.subset_rules.specs.Chains.{pairs_by, used_by};
ghost use Rattle.subset_table.specs.Scores.{at};
ghost use Rattle.exact.specs.Leaf.{Summable};

use crate::Shared;

// The first tip of the list that the line allows; 0 where there is none.
fn first_tip(tips: &[u8], line: u64) -> u8
    requires { All (λ t. t < most_tips) tips.now }
    ensures { result ≡ first tips.now line }
{
    for &tip in tips {
        if tips::has_tip(line, usize::from(tip)) {
            return tip;
        }
    }
    0
}

pub fn put_tips(tips: &[u8], lines: &[u64], plan: &mut [u8])
    requires tips { All (λ t. t < most_tips) tips.now }
    requires bytes { length plan.old ≡ length lines.now }
    ensures { plan.new ≡ map (first tips.now) lines.now }
{
    for (i, line) in lines.iter().enumerate() {
        plan[i] = first_tip(tips, *line);
    }
}

// The pairs of that plan, and how many tips it uses: each tip takes the lines within the set of the tips left that allow it.
pub fn sum_tips(counts: &[u32], all: usize, tips: &[u8]) -> Shared
    requires { Summable counts.now all tips.now }
    ensures pairs { result.pairs ≡ pairs_by (at counts.now) tips.now all }
    ensures tips { result.tips ≡ used_by (at counts.now) tips.now all }
{
    let mut shared = Shared { pairs: 0, tips: 0 };
    let mut left = all;
    for &tip in tips {
        let next = subset_table::without(left, usize::from(tip));
        let placements = counts[left] - counts[next];
        shared.pairs += pair_count::pairs_among(placements);
        shared.tips += usize::from(placements != 0);
        left = next;
    }
    shared
}
