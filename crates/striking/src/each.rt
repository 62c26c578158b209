// The kept set of each line: its only tip, that of an equal line before it, or else by the sums and the two tables of all lines. The sums of
// the other lines settle what these leave open.
ghost use Rattle.std.specs.Prelude.{◌≡◌, ◌↔◌, ℕ, ◌*◌, ◌≤◌, ◌<◌, T, length, take, get_or, MatchOption};
ghost use Rattle.model.specs.Count.{list_of};
ghost use Rattle.model.specs.Plan.{has, Domain};
ghost use Rattle.model.specs.Interval.{C};
ghost use Rattle.placements.specs.Repeated.{repeated};
ghost use Rattle.spans.specs.Spans.{sums_size, sums as sums_of};
ghost use Rattle.ranks.specs.Runs.{FullRuns};
ghost use Rattle.goal_rules.specs.Goal.{goal_tips, strike};
ghost use Rattle.intervals.specs.Splits.{InsideAll};
ghost use Rattle.intervals.specs.Outer.{OutsideAll};
ghost use Rattle.striking.specs.Striking.{Same};
ghost use Rattle.striking.specs.Early.{Widest};

use crate::reach::Reach;
use crate::rest;
use crate::start::Start;
use intervals::Lines;

// The first line before line i with its set and its quantity.
fn first_same(lines: &[u64], quantities: &[u8], i: usize) -> Option<usize>
    requires inside { i < length lines.now }
    requires as_lines { length quantities.now ≡ length lines.now }
    ensures { MatchOption result ((j : ℕ) → j < i → Same lines.now quantities.now i j → ⊥)
        (λ f. (f < i) × Same lines.now quantities.now i f × ((j : ℕ) → j < f → Same lines.now quantities.now i j → ⊥)) }
{
    (0..i).find(|j| lines[*j] == lines[i] && quantities[*j] == quantities[i])
}

// All lines with their quantities and the goal, which is not above the most pairs; the two tables, and the widest live intervals by first tip.
#[derive(Clone, Copy)]
pub struct Each<'a> {
    pub lines: &'a [u64],
    pub quantities: &'a [u8],
    pub goal: u32,
    pub all: Lines<'a>,
    pub inner: &'a [u32],
    pub upper: &'a [u32],
    pub widest: &'a [u8],
    ghost no_more: { all.added ≡ 0 },
    ghost summed: { all.sums.now ≡ sums_of all.m (repeated quantities.now lines.now) },
    ghost inside: { InsideAll all.m (repeated quantities.now lines.now) inner.now },
    ghost outside: { OutsideAll all.m (repeated quantities.now lines.now) upper.now },
    ghost listed: { Widest all.m inner.now upper.now goal widest.now all.m },
    ghost reached: { goal ≤ C (repeated quantities.now lines.now) 0 all.m },
}

impl Each<'_> {
    // The tips asked of line i that stay, by the sums of the other lines.
    fn asked_tips(&self, i: usize, asked: u64, rest: &mut [u32], outer: &mut [u32]) -> u64
        requires full { FullRuns self.now.all.m self.now.quantities.now self.now.lines.now }
        requires line { i < length self.now.lines.now }
        requires domain { Domain self.now.all.m asked }
        requires rest_size { length rest.old ≡ sums_size self.now.all.m }
        requires outer_size { self.now.all.m * self.now.all.m ≤ length outer.old }
        ensures asked { (t : ℕ) → T (has result t) → T (has asked t) }
        ensures exact { (t : ℕ) → T (has asked t) → T (has (get_or self.now.lines.now i 0) t)
            → T (has result t) ↔ T (has (goal_tips self.now.all.m self.now.quantities.now self.now.lines.now self.now.goal i) t) }
    {
        let quantity = self.quantities[i];
        rest::sums_without(self.all.m, self.all.sums, self.lines[i], quantity, rest);
        let others = Lines {
            m: self.all.m,
            added: u32::from(quantity),
            sums: rest,
        };
        let reach = Reach {
            lines: others,
            set: asked,
            goal: self.goal,
            inner: self.inner,
            upper: self.upper,
            widest: self.widest,
        };
        reach.kept_tips(outer)
    }

    // The kept set of line i. What the sums and tables of all lines settle is kept, and only the other tips are asked for.
    fn tips_of(&self, i: usize, rest: &mut [u32], outer: &mut [u32]) -> u64
        requires full { FullRuns self.now.all.m self.now.quantities.now self.now.lines.now }
        requires line { i < length self.now.lines.now }
        requires rest_size { length rest.old ≡ sums_size self.now.all.m }
        requires outer_size { self.now.all.m * self.now.all.m ≤ length outer.old }
        ensures { result ≡ goal_tips self.now.all.m self.now.quantities.now self.now.lines.now self.now.goal i }
    {
        let line = Reach {
            lines: self.all,
            set: self.lines[i],
            goal: self.goal,
            inner: self.inner,
            upper: self.upper,
            widest: self.widest,
        };
        let known = line.first_on();
        let asked = line.set ^ known;
        if asked == 0 {
            return known;
        }
        let start = Start {
            line,
            quantity: u32::from(self.quantities[i]),
            low: tips::lowest(asked),
            high: tips::highest(asked),
        };
        if !start.has_start() {
            return known;
        }
        known | self.asked_tips(i, asked, rest, outer)
    }

    fn struck_at(&self, i: usize, struck: &[u64], rest: &mut [u32], outer: &mut [u32]) -> u64
        requires full { FullRuns self.now.all.m self.now.quantities.now self.now.lines.now }
        requires line { i < length self.now.lines.now }
        requires struck { take i struck.now ≡ list_of (goal_tips self.now.all.m self.now.quantities.now self.now.lines.now self.now.goal) i }
        requires before { i ≤ length struck.now }
        requires rest_size { length rest.old ≡ sums_size self.now.all.m }
        requires outer_size { self.now.all.m * self.now.all.m ≤ length outer.old }
        ensures { result ≡ goal_tips self.now.all.m self.now.quantities.now self.now.lines.now self.now.goal i }
    {
        let line = self.lines[i];
        if tips::lowest(line) == tips::highest(line) {
            return line;
        }
        if let Some(j) = first_same(self.lines, self.quantities, i) {
            return struck[j];
        }
        self.tips_of(i, rest, outer)
    }

    pub fn strike(&self, rest: &mut [u32], outer: &mut [u32], struck: &mut [u64])
        requires full { FullRuns self.now.all.m self.now.quantities.now self.now.lines.now }
        requires rest_size { length rest.old ≡ sums_size self.now.all.m }
        requires outer_size { self.now.all.m * self.now.all.m ≤ length outer.old }
        requires as_lines { length struck.old ≡ length self.now.lines.now }
        ensures { struck.new ≡ strike self.now.all.m self.now.quantities.now self.now.lines.now self.now.goal }
    {
        for i in 0..self.lines.len() {
            struck[i] = self.struck_at(i, struck, rest, outer);
        }
    }
}
