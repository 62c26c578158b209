// Intervals of tips: the entry of one in a table, and from the sums of lines its pairs, its splits and what is outside it.
#![tactic(auto)]

mod outside;

ghost use Rattle.std.specs.Prelude.{◌≡◌, ◌+◌, ◌*◌, ◌^◌, ◌≤◌, ◌<◌, length};
ghost use Rattle.model.specs.Limits.{most_tips, most_placements};
ghost use Rattle.spans.specs.Spans.{Ready};
ghost use Rattle.goal_rules.specs.Check.{entry};
ghost use Rattle.intervals.specs.Splits.{Meeting, meeting_by, pairs_by, split_by};

// The table's entry for the interval of first tip a and width w. One of no tip has 0 pairs, and callers add or compare the number.
pub fn entry_at(m: usize, a: usize, w: usize, table: &[u32]) -> u64
    requires rack { m ≤ most_tips }
    requires size { m * m ≤ length table.now }
    requires inside { a + w ≤ m }
    ensures entry { result ≡ entry m table.now a w }
    ensures narrow { result < 2 ^ 32 }
{
    if w == 0 {
        return 0;
    }
    u64::from(table[a * m + (a + (w - 1))])
}

// The tips of the rack from a first one on.
#[derive(Clone, Copy)]
pub struct Interval {
    pub first: usize,
    pub width: usize,
}

// Lines, known by the sums of their placements; with the placements that may be added to a tip: none where these are all lines, and those of one
// line where these are the others.
#[derive(Clone, Copy)]
pub struct Lines<'a> {
    pub m: usize,
    pub added: u32,
    pub sums: &'a [u32],
    pub ghost ready: { Ready m added sums.now },
}

impl Lines<'_> {
    // The placements of the lines lying within the interval that do not end before tip l or begin after tip h.
    #[tactic(auto, unfolding(crate::specs::Splits::meeting_by))]
    pub fn meeting_at(&self, l: usize, h: usize, of: Interval) -> u32
        requires { Meeting self.now.m self.now.sums.now l h of.first of.width }
        ensures meeting { result ≡ meeting_by self.now.m self.now.sums.now l h of.first of.width }
        ensures few { result ≤ most_placements }
    {
        let width = self.m + 1;
        let end = of.first + of.width;
        let last = (h + 1) * width;
        let first = of.first * width;
        let next = l * width;
        let sums = self.sums;
        sums[last + end] + sums[first + l] - sums[first + end] - sums[next + l]
    }

    // The pairs on tip c, with q placements more, of the lines lying within the interval.
    // The clause that an interval is in the rack stays here and in the other files: an interval does not hold the rack.
    pub fn pairs_at(&self, of: Interval, c: usize, q: u32) -> u64
        requires inside { of.first + of.width ≤ self.now.m }
        requires from { of.first ≤ c }
        requires to { c < of.first + of.width }
        requires few { q ≤ self.now.added }
        ensures pairs { result ≡ pairs_by self.now.m self.now.sums.now q of.first of.width c }
        ensures narrow { result < 2 ^ 32 }
    {
        let inside = spans::inside_at(self.m, self.sums, of.first, of.width, c);
        u64::from(pair_count::pairs_among(inside + q))
    }

    // The split of the interval at its tip i, with q placements more on it.
    // The clause on a table's length stays here and in the other files: it is the size of a buffer that is read while it is written.
    pub fn split_at(&self, of: Interval, i: usize, q: u32, inner: &[u32]) -> u64
        requires size { self.now.m * self.now.m ≤ length inner.now }
        requires inside { of.first + of.width ≤ self.now.m }
        requires tip { i < of.width }
        requires few { q ≤ self.now.added }
        ensures split { result ≡ split_by self.now.m self.now.sums.now inner.now q of.first of.width i }
        ensures narrow { result < 2 ^ 34 }
    {
        let c = of.first + i;
        let before = entry_at(self.m, of.first, i, inner);
        let after = entry_at(self.m, c + 1, of.width - (i + 1), inner);
        self.pairs_at(of, c, q) + (before + after)
    }
}
