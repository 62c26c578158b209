// The tips of a line that stay for certain: some split of all lines at them has the goal's pairs, in an interval that has the line whole.
ghost use Rattle.std.specs.Prelude.{◌≡◌, ◌↔◌, false, ℕ, ◌+◌, ◌≤◌, ◌<◌, T};
ghost use Rattle.model.specs.Plan.{has};
ghost use Rattle.model.specs.Interval.{low};
ghost use Rattle.striking.specs.Early.{live_by, firsts_by, Finds, Found};

use crate::live::Live;
use crate::reach::Reach;
use intervals::Interval;

impl Reach<'_, '_> {
    // The goal can be had through the interval.
    pub fn is_live(&self, of: Interval) -> bool
        requires { of.first + of.width ≤ self.now.lines.m }
        ensures { result ≡ live_by self.now.lines.m self.now.inner.now self.now.upper.now self.now.goal of.first of.width }
    {
        let live = Live {
            m: self.lines.m,
            goal: self.goal,
            inner: self.inner,
            upper: self.upper,
        };
        live.has(of)
    }

    // The width of the widest live interval of first tip a.
    pub fn widest_live(&self, a: usize) -> usize
        requires { a ≤ low self.now.set }
        ensures inside { a + result ≤ self.now.lines.m }
        ensures past { (w : ℕ) → a + w ≤ self.now.lines.m → result < w
            → live_by self.now.lines.m self.now.inner.now self.now.upper.now self.now.goal a w ≡ false }
    {
        usize::from(self.widest[a])
    }

    // The tips of the set at which a split of the interval has the goal's pairs with those outside.
    #[tactic(auto, unfolding(crate::specs::Early::firsts_by))]
    fn firsts_in(&self, of: Interval) -> u64
        requires { of.first + of.width ≤ self.now.lines.m }
        ensures { result ≡ firsts_by self.now.lines.m self.now.lines.sums.now self.now.inner.now self.now.upper.now
            self.now.lines.added self.now.set self.now.goal of.first of.width }
    {
        if !self.is_live(of) {
            return 0;
        }
        let outside = intervals::entry_at(self.lines.m, of.first, of.width, self.upper);
        self.ended_tips(self.set, outside, of)
    }

    // The tips known before, and those that the intervals of first tip a find. No interval wider than the widest that is live finds one.
    fn firsts_from(&self, a: usize, before: u64) -> u64
        requires first { a ≤ low self.now.set }
        requires found { Found self.now.lines.m self.now.set
            (firsts_by self.now.lines.m self.now.lines.sums.now self.now.inner.now self.now.upper.now
            self.now.lines.added self.now.set self.now.goal) before a 0 }
        ensures { Found self.now.lines.m self.now.set
            (firsts_by self.now.lines.m self.now.lines.sums.now self.now.inner.now self.now.upper.now
            self.now.lines.added self.now.set self.now.goal) result (a + 1) 0 }
    {
        let mut known = before;
        for w in tips::highest(self.set) + 1 - a..self.widest_live(a) + 1 {
            if known == self.set {
                return known;
            }
            known |= self.firsts_in(Interval { first: a, width: w });
        }
        known
    }

    // The tips of the line that the intervals which have it whole find.
    pub fn first_on(&self) -> u64
        ensures { (t : ℕ) → T (has result t) ↔ Finds self.now.lines.m self.now.set
            (firsts_by self.now.lines.m self.now.lines.sums.now self.now.inner.now self.now.upper.now
            self.now.lines.added self.now.set self.now.goal) t }
    {
        let mut known = 0;
        for a in 0..tips::lowest(self.set) + 1 {
            known = self.firsts_from(a, known);
        }
        known
    }
}
