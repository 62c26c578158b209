// Whether a tip of a line that is not known yet can stay: some interval that has the line whole must leave the line at another of its tips.
ghost use Rattle.std.specs.Prelude.{◌≡◌, false, ℕ, ◌+◌, ◌-◌, ◌^◌, ◌≤◌, ◌<◌, T};
ghost use Rattle.model.specs.Limits.{most_placements};
ghost use Rattle.model.specs.Plan.{has};
ghost use Rattle.model.specs.Interval.{low, high};
ghost use Rattle.spans.specs.Spans.{inside_by};
ghost use Rattle.goal_rules.specs.Tables.{Whole};
ghost use Rattle.striking.specs.Early.{before_most, behind_most, parted_by, starts_by, leaves_by, Leaving};

use crate::reach::Reach;
use intervals::Interval;

// A line among all lines, its quantity, and the lowest and highest of the tips asked for.
#[derive(Clone, Copy)]
pub struct Start<'a> {
    pub line: Reach<'a, 'a>,
    pub quantity: u32,
    pub low: usize,
    pub high: usize,
    ghost leaving: { Leaving line.lines.m quantity line.set low high line.lines.sums.now },
}

impl Start<'_> {
    // The placements of the lines before tip c of the interval that can share a tip asked for.
    #[tactic(auto, using(std::proofs::lemmas::Bool::Decides::nat_tests), unfolding(crate::specs::Early::before_most))]
    fn before_most(&self, of: Interval, c: usize) -> u32
        requires whole { Whole self.now.line.lines.m self.now.line.set of.first of.width }
        requires own { T (has self.now.line.set c) }
        ensures most { result ≡ before_most self.now.line.lines.m self.now.line.lines.sums.now self.now.low of.first c }
        ensures few { result ≤ most_placements }
    {
        if c <= self.low {
            return 0;
        }
        let before = Interval {
            first: of.first,
            width: c - of.first,
        };
        self.line.lines.meeting_at(self.low, c - 1, before)
    }

    // And of those behind it.
    #[tactic(auto, using(std::proofs::lemmas::Bool::Decides::nat_tests), unfolding(crate::specs::Early::behind_most))]
    fn behind_most(&self, of: Interval, c: usize) -> u32
        requires whole { Whole self.now.line.lines.m self.now.line.set of.first of.width }
        requires own { T (has self.now.line.set c) }
        ensures most { result ≡ behind_most self.now.line.lines.m self.now.line.lines.sums.now self.now.high of.first of.width c }
        ensures few { result ≤ most_placements }
    {
        if self.high <= c {
            return 0;
        }
        let next = c + 1;
        let behind = Interval {
            first: next,
            width: of.first + of.width - next,
        };
        self.line.lines.meeting_at(next, self.high, behind)
    }

    // The pairs of the interval if tip c takes its lines but for this one, whose placements have `more` pairs with others.
    fn parted_at(&self, of: Interval, c: usize, more: u64) -> u64
        requires whole { Whole self.now.line.lines.m self.now.line.set of.first of.width }
        requires own { T (has self.now.line.set c) }
        requires narrow { more < 2 ^ 32 }
        ensures parted { result ≡ parted_by self.now.line.lines.m self.now.line.lines.sums.now self.now.line.inner.now
            self.now.quantity of.first of.width c more }
        ensures narrow { result < 2 ^ 36 }
    {
        let lines = self.line.lines;
        let next = c + 1;
        let others = spans::inside_at(lines.m, lines.sums, of.first, of.width, c) - self.quantity;
        let before = intervals::entry_at(lines.m, of.first, c - of.first, self.line.inner);
        let behind = intervals::entry_at(
            lines.m,
            next,
            of.first + of.width - next,
            self.line.inner,
        );
        let own = u64::from(pair_count::pairs_among(self.quantity));
        u64::from(pair_count::pairs_among(others)) + (before + behind) + (more + own)
    }

    // Tip c of the line takes the others of the interval, and a tip asked for beside it can have the goal's pairs.
    fn starts_at(&self, of: Interval, c: usize) -> bool
        requires whole { Whole self.now.line.lines.m self.now.line.set of.first of.width }
        requires last { c ≤ high self.now.line.set }
        ensures { result ≡ starts_by self.now.line.lines.m self.now.line.lines.sums.now self.now.line.inner.now self.now.line.upper.now
            self.now.quantity self.now.line.set self.now.low self.now.high self.now.line.goal of.first of.width c }
    {
        if !tips::has_tip(self.line.set, c) {
            return false;
        }
        let most = self.before_most(of, c).max(self.behind_most(of, c));
        let more = u64::from(self.quantity) * u64::from(most);
        let outside = intervals::entry_at(self.line.lines.m, of.first, of.width, self.line.upper);
        u64::from(self.line.goal) <= outside + self.parted_at(of, c, more)
    }

    // At some tip of the line.
    fn start_in(&self, of: Interval) -> bool
        requires { Whole self.now.line.lines.m self.now.line.set of.first of.width }
        ensures { result ≡ false → (c : ℕ)
            → leaves_by self.now.line.lines.m self.now.line.lines.sums.now self.now.line.inner.now self.now.line.upper.now
            self.now.quantity self.now.line.set self.now.low self.now.high self.now.line.goal of.first of.width c ≡ false }
    {
        if !self.line.is_live(of) {
            return false;
        }
        let set = self.line.set;
        (tips::lowest(set)..tips::highest(set) + 1).any(|c| self.starts_at(of, c))
    }

    // In some interval of first tip a that has the line whole.
    fn start_from(&self, a: usize) -> bool
        requires { a ≤ low self.now.line.set }
        ensures { result ≡ false → (w c : ℕ) → Whole self.now.line.lines.m self.now.line.set a w
            → leaves_by self.now.line.lines.m self.now.line.lines.sums.now self.now.line.inner.now self.now.line.upper.now
            self.now.quantity self.now.line.set self.now.low self.now.high self.now.line.goal a w c ≡ false }
    {
        let widest = self.line.widest_live(a);
        (tips::highest(self.line.set) + 1 - a..widest + 1).any(|w| self.start_in(Interval {
            first: a,
            width: w,
        }))
    }

    // In some interval that has the line whole. Where there is none, no tip asked for stays.
    pub fn has_start(&self) -> bool
        ensures { result ≡ false → (a w c : ℕ) → Whole self.now.line.lines.m self.now.line.set a w
            → leaves_by self.now.line.lines.m self.now.line.lines.sums.now self.now.line.inner.now self.now.line.upper.now
            self.now.quantity self.now.line.set self.now.low self.now.high self.now.line.goal a w c ≡ false }
    {
        (0..tips::lowest(self.line.set) + 1).any(|a| self.start_from(a))
    }
}
