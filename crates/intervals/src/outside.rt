// The outside table: the most pairs outside each interval that has a tip.
ghost use Rattle.std.specs.Prelude.{◌≡◌, List, ℕ, ◌+◌, ◌*◌, ◌-◌, ◌≤◌, ◌<◌, max, length};
ghost use Rattle.model.specs.Count.{largest};
ghost use Rattle.spans.specs.Spans.{RunSums};
ghost use Rattle.intervals.specs.Splits.{InsideAll};
ghost use Rattle.intervals.specs.Outer.{outside_by, before_by, behind_by, OutsideAll};

use crate::{Interval, Lines, entry_at};

impl Lines<'_> {
    // Beside tip c of an interval; the other one is on the other side of the tip.
    fn outside_at(
        &self,
        of: Interval,
        c: usize,
        other: Interval,
        inner: &[u32],
        outer: &[u32],
    ) -> u64
        requires inner_size { self.now.m * self.now.m ≤ length inner.now }
        requires outer_size { self.now.m * self.now.m ≤ length outer.now }
        requires inside { of.first + of.width ≤ self.now.m }
        requires from { of.first ≤ c }
        requires to { c < of.first + of.width }
        requires other_inside { other.first + other.width ≤ self.now.m }
        ensures { result ≡ outside_by self.now.m self.now.sums.now inner.now outer.now of.first of.width c other.first other.width }
    {
        // The interval has a tip. `entry_at` asks for it, and the loops below take a fifth more instructions.
        let beside = u64::from(outer[of.first * self.m + (of.first + (of.width - 1))]);
        let across = entry_at(self.m, other.first, other.width, inner);
        beside + (self.pairs_at(of, c, 0) + across)
    }

    // The interval lies before a tip of one with the same first tip, or behind a tip of one with the same last tip.
    pub fn best_outside(&self, of: Interval, inner: &[u32], outer: &[u32]) -> u64
        requires inner_size { self.now.m * self.now.m ≤ length inner.now }
        requires outer_size { self.now.m * self.now.m ≤ length outer.now }
        requires inside { of.first + of.width ≤ self.now.m }
        ensures { result ≡ max
            (largest (before_by self.now.m self.now.sums.now inner.now outer.now of.first of.width)
            (self.now.m - (of.first + of.width)))
            (largest (behind_by self.now.m self.now.sums.now inner.now outer.now of.first of.width) of.first) }
    {
        let (a, w) = (of.first, of.width);
        let end = a + w;
        let mut best = 0;
        for j in 0..self.m - end {
            let wider = Interval {
                first: a,
                width: w + 1 + j,
            };
            let other = Interval {
                first: end + 1,
                width: j,
            };
            best = self.outside_at(wider, end, other, inner, outer).max(best);
        }
        for k in 0..a {
            let wider = Interval {
                first: k,
                width: a - k + w,
            };
            let other = Interval {
                first: k,
                width: a - (k + 1),
            };
            best = self.outside_at(wider, a - 1, other, inner, outer).max(best);
        }
        best
    }

    // The widest intervals first.
    pub fn fill_outside(&self, inner: &[u32], outer: &mut [u32])
        requires known { (lines : List ℕ) × RunSums self.now.m 0 lines self.now.sums.now × InsideAll self.now.m lines inner.now }
        requires size { self.now.m * self.now.m ≤ length outer.old }
        ensures { (lines : List ℕ) → RunSums self.now.m 0 lines self.now.sums.now → InsideAll self.now.m lines inner.now
            → OutsideAll self.now.m lines outer.new }
    {
        let m = self.m;
        for w in (1..m + 1).rev() {
            for a in 0..m + 1 - w {
                let best = self.best_outside(Interval { first: a, width: w }, inner, outer);
                outer[a * m + (a + (w - 1))] = best as u32;
            }
        }
    }
}
