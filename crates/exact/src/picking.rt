// The tips in the order in which they take the lines.
ghost use Rattle.std.specs.Prelude.{◌≡◌, ◌^◌, ◌≤◌, ◌<◌, length, take};
ghost use Rattle.model.specs.CommonTip.{set_of};
ghost use Rattle.head.specs.OnHead.{on_head};
ghost use Rattle.subset_rules.specs.Subsets.{pick, order};
ghost use Rattle.subset_rules.specs.Exact.{most_named};
ghost use Rattle.subset_table.specs.Scores.{at, tied_at, Scored};

// The price of a tip, and the count and the score of each set of m tips.
#[derive(Clone, Copy)]
pub struct Tables<'a> {
    pub m: usize,
    pub price: u32,
    pub counts: &'a [u32],
    pub scores: &'a [u32],
    ghost scored: { Scored price m counts.now scores.now },
}

impl Tables<'_> {
    // Tip t is one of u, and the score with it is that of u.
    fn is_tied(&self, u: usize, t: usize) -> bool
        requires inside { u < 2 ^ self.now.m }
        requires tip { t < most_named }
        ensures { result ≡ tied_at self.now.price self.now.counts.now self.now.scores.now u t }
    {
        subset_table::has_tip(u, t)
            && subset_table::score_with(self.price, self.counts, self.scores, u, t)
                == self.scores[u]
    }

    fn tied_tips(&self, u: usize) -> u64
        requires { u < 2 ^ self.now.m }
        ensures { result ≡ set_of (tied_at self.now.price self.now.counts.now self.now.scores.now u) self.now.m }
    {
        let mut set = 0;
        for t in 0..self.m {
            if self.is_tied(u, t) {
                set += 1u64 << t;
            }
        }
        set
    }

    // The tip of u at which its score is largest; on a tie the mounted one, else the lowest.
    fn pick_tip(&self, mounted: Option<usize>, u: usize) -> usize
        requires some { 0 < u }
        requires inside { u < 2 ^ self.now.m }
        ensures { result ≡ pick (on_head mounted) self.now.price (at self.now.counts.now) self.now.m u }
    {
        head::choose(mounted, self.tied_tips(u))
    }

    // All tips of the set in the order in which they are picked, at the front of the list; returns their number.
    pub fn pick_tips(&self, mounted: Option<usize>, all: usize, tips: &mut [u8]) -> usize
        requires inside { all < 2 ^ self.now.m }
        requires room { self.now.m ≤ length tips.old }
        ensures count { result ≤ length tips.old }
        ensures tips { take result tips.new
            ≡ order (on_head mounted) self.now.price (at self.now.counts.now) self.now.m self.now.m all }
    {
        let mut left = all;
        let mut count = 0;
        while left != 0 {
            let tip = self.pick_tip(mounted, left);
            tips[count] = tip as u8;
            left = subset_table::without(left, tip);
            count += 1;
        }
        count
    }
}
