// The tips of a set with which some plan has the goal's pairs, from the sums of lines and the two tables of all lines.
ghost use Rattle.std.specs.Prelude.{◌≡◌, ◌↔◌, List, ℕ, ◌+◌, ◌*◌, ◌-◌, ◌^◌, ◌≤◌, ◌<◌, T, length, IfSome, set as put};
ghost use Rattle.std.specs.Option.{unwrap_or};
ghost use Rattle.model.specs.Plan.{has, Domain};
ghost use Rattle.model.specs.Interval.{low, high, C};
ghost use Rattle.goal_rules.specs.Tables.{Ends};
ghost use Rattle.intervals.specs.Splits.{meeting_by};
ghost use Rattle.intervals.specs.Outer.{around_by};
ghost use Rattle.striking.specs.Striking.{Counted, limit_by, open_by, ends_by, tips_by};
ghost use Rattle.striking.specs.Striking.{stored_by, followed_by, Known, Followed};
ghost use Rattle.striking.specs.Early.{Widest};

use intervals::{Interval, Lines};

// Some tips of a line and the goal, with the two tables of all lines and the widest live interval of each first tip. `lines` are all lines, or
// those without this one.
#[derive(Clone, Copy)]
pub struct Reach<'a, 'b> {
    pub lines: Lines<'b>,
    pub set: u64,
    pub goal: u32,
    pub inner: &'a [u32],
    pub upper: &'a [u32],
    pub widest: &'a [u8],
    ghost domain: { Domain lines.m set },
    ghost counted: { Counted lines.m lines.added set lines.sums.now },
    ghost inner_size: { lines.m * lines.m ≤ length inner.now },
    ghost upper_size: { lines.m * lines.m ≤ length upper.now },
    ghost listed: { Widest lines.m inner.now upper.now goal widest.now lines.m },
}

impl Reach<'_, '_> {
    // With the pairs outside the interval, no chain through it to a tip of the set with the line's placements has more pairs.
    fn limit_at(&self, outside: u64, of: Interval) -> u64
        requires inside { of.first + of.width ≤ self.now.lines.m }
        requires from { of.first ≤ high self.now.set }
        requires to { low self.now.set < of.first + of.width }
        requires narrow { outside < 2 ^ 32 }
        ensures { result ≡ limit_by self.now.lines.m self.now.lines.sums.now self.now.inner.now
            self.now.lines.added self.now.set outside of.first of.width }
    {
        let inside = intervals::entry_at(self.lines.m, of.first, of.width, self.inner);
        let own = u64::from(pair_count::pairs_among(self.lines.added));
        let l = tips::lowest(self.set);
        let h = tips::highest(self.set);
        let more = u64::from(self.lines.added) * u64::from(self.lines.meeting_at(l, h, of));
        outside + (inside + (more + own))
    }

    // The interval may have a tip of the set, and the goal can be had through it with these pairs outside it.
    #[tactic(auto, using(std::proofs::lemmas::Bool::Decides::nat_tests), unfolding(crate::specs::Striking::open_by))]
    fn is_open(&self, outside: u64, of: Interval) -> bool
        requires inside { of.first + of.width ≤ self.now.lines.m }
        requires narrow { outside < 2 ^ 32 }
        ensures { result ≡ open_by self.now.lines.m self.now.lines.sums.now self.now.inner.now
            self.now.lines.added self.now.set self.now.goal of.first of.width outside }
    {
        if tips::highest(self.set) < of.first || of.first + of.width <= tips::lowest(self.set) {
            return false;
        }
        u64::from(self.goal) <= self.limit_at(outside, of)
    }

    // A chain ends at tip t of the set in the interval with the goal's pairs, where `outside` pairs are outside it.
    fn ends_at(&self, set: u64, outside: u64, of: Interval, t: usize) -> bool
        requires inside { of.first + of.width ≤ self.now.lines.m }
        requires from { of.first ≤ t }
        requires to { t < of.first + of.width }
        requires narrow { outside < 2 ^ 32 }
        ensures { result ≡ ends_by self.now.lines.m self.now.lines.sums.now self.now.inner.now
            self.now.lines.added set self.now.goal outside of.first of.width t }
    {
        if !tips::has_tip(set, t) {
            return false;
        }
        let split = self
            .lines
            .split_at(of, t - of.first, self.lines.added, self.inner);
        u64::from(self.goal) <= outside + split
    }

    // No tip before the lowest of the set or after the highest is tried.
    pub fn ended_tips(&self, set: u64, outside: u64, of: Interval) -> u64
        requires domain { Domain self.now.lines.m set }
        requires inside { of.first + of.width ≤ self.now.lines.m }
        requires narrow { outside < 2 ^ 32 }
        ensures { result ≡ tips_by self.now.lines.m self.now.lines.sums.now self.now.inner.now
            self.now.lines.added set self.now.goal outside of.first of.width }
    {
        let end = (of.first + of.width).min(tips::highest(set) + 1);
        let begin = of.first.max(tips::lowest(set)).min(end);
        let mut kept = 0u64;
        for t in begin..end {
            if self.ends_at(set, outside, of, t) {
                kept |= 1 << t;
            }
        }
        kept
    }

    // The pairs outside the interval by the chains followed are stored, and the tips left at which a chain ends in it found. Where these pairs
    // are too few the interval is closed again.
    fn follow(&self, of: Interval, left: u64, outer: &mut [u32]) -> u64
        requires left { Domain self.now.lines.m left }
        requires size { self.now.lines.m * self.now.lines.m ≤ length outer.old }
        requires some { 0 < of.width }
        requires inside { of.first + of.width ≤ self.now.lines.m }
        requires narrow { around_by self.now.lines.m self.now.lines.sums.now self.now.inner.now outer.old
            of.first of.width < 2 ^ 32 }
        ensures kept { result ≡ followed_by self.now.lines.m self.now.lines.sums.now self.now.inner.now
            self.now.lines.added self.now.set left self.now.goal
            (around_by self.now.lines.m self.now.lines.sums.now self.now.inner.now outer.old of.first of.width)
            of.first of.width }
        ensures outer { outer.new ≡ put outer.old (of.first * self.now.lines.m + (of.first + (of.width - 1)))
            (stored_by self.now.lines.m self.now.lines.sums.now self.now.inner.now
            self.now.lines.added self.now.set self.now.goal
            (around_by self.now.lines.m self.now.lines.sums.now self.now.inner.now outer.old of.first of.width)
            of.first of.width) }
    {
        let place = of.first * self.lines.m + (of.first + (of.width - 1));
        let outside = self.lines.best_outside(of, self.inner, outer);
        if !self.is_open(outside, of) {
            outer[place] = 0;
            return 0;
        }
        outer[place] = outside as u32;
        self.ended_tips(left, outside, of)
    }

    // The first interval of the width from a first tip on that may be open: by the outside table of all lines it is. Nothing is outside those
    // passed by, as the goal cannot be had there.
    // A loop of its own: one that also follows what it finds takes half as many instructions again for each interval passed by.
    fn next_open(&self, from: usize, w: usize, outer: &mut [u32]) -> Option<usize>
        requires size { self.now.lines.m * self.now.lines.m ≤ length outer.old }
        requires some { 0 < w }
        requires inside { from + w ≤ self.now.lines.m + 1 }
        ensures after { IfSome result (λ a. from ≤ a) }
        ensures found { IfSome result (λ a. a + w ≤ self.now.lines.m) }
        ensures outer { (kept : ℕ) (lines rest : List ℕ)
            → Known self.now.lines.m self.now.lines.added lines rest
            self.now.lines.sums.now self.now.inner.now self.now.upper.now
            → Followed self.now.lines.m self.now.lines.added self.now.set self.now.goal
            (open_by self.now.lines.m self.now.lines.sums.now self.now.inner.now
            self.now.lines.added self.now.set self.now.goal) (C lines) rest outer.old kept w from
            → Followed self.now.lines.m self.now.lines.added self.now.set self.now.goal
            (open_by self.now.lines.m self.now.lines.sums.now self.now.inner.now
            self.now.lines.added self.now.set self.now.goal) (C lines) rest outer.new kept w
            (unwrap_or result (self.now.lines.m + 1 - w)) }
    {
        let m = self.lines.m;
        for a in from..m + 1 - w {
            let of = Interval { first: a, width: w };
            if self.is_open(intervals::entry_at(m, a, w, self.upper), of) {
                return Some(a);
            }
            outer[a * m + (a + (w - 1))] = 0;
        }
        None
    }

    // The widest intervals first, until every tip of the set is kept.
    pub fn kept_tips(&self, outer: &mut [u32]) -> u64
        requires known { (lines : List ℕ) × (rest : List ℕ) × Known self.now.lines.m self.now.lines.added lines rest
            self.now.lines.sums.now self.now.inner.now self.now.upper.now }
        requires size { self.now.lines.m * self.now.lines.m ≤ length outer.old }
        ensures { (lines rest : List ℕ) → Known self.now.lines.m self.now.lines.added lines rest
            self.now.lines.sums.now self.now.inner.now self.now.upper.now → (t : ℕ)
            → T (has result t) ↔ (T (has self.now.set t)
            × Ends (open_by self.now.lines.m self.now.lines.sums.now self.now.inner.now
            self.now.lines.added self.now.set self.now.goal)
            self.now.lines.m (C lines) rest self.now.lines.added self.now.goal t) }
    {
        let mut kept = 0u64;
        for w in (1..self.lines.m + 1).rev() {
            // Searched for in two places: with one, the compiler makes both loops one.
            let mut next = self.next_open(0, w, outer);
            while let Some(a) = next {
                kept |= self.follow(Interval { first: a, width: w }, self.set ^ kept, outer);
                if kept == self.set {
                    return kept;
                }
                next = self.next_open(a + 1, w, outer);
            }
        }
        kept
    }
}
