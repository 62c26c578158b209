// The table of best sharing: the most pairs of each interval of tips, from the lines summed by lowest and highest tip, one for each placement.
#![tactic(auto)]

ghost use Rattle.std.specs.Prelude.{◌≡◌, ℕ, ◌+◌, ◌*◌, ◌-◌, ◌^◌, ◌<◌, max, length, List};
ghost use Rattle.model.specs.Interval.{table as table_of};
ghost use Rattle.spans.specs.Spans.{RunSums};
ghost use Rattle.table.specs.Cells.{split_of, Small, split_at, largest_at, SplitLists};
ghost use Rattle.table.specs.Cells.{allows_of, cell_by, Cell, Differences, ColumnsBy};

// A column has a place for each tip, and one more.
const COLUMN_SIZE: usize = model::MOST_TIPS + 1;

// Signed numbers, because the processor selects by a signed comparison in one step, and by an unsigned one in two. The unsigned `max`
// makes the table of 64 tips take a thirteenth longer.
fn larger(x: u32, y: u32) -> u32
    requires x_small { x < 2 ^ 31 }
    requires y_small { y < 2 ^ 31 }
    ensures { result ≡ max x y }
{
    (x as i32).max(y as i32) as u32
}

// The pairs of an interval if a tip takes its lines.
#[tactic(auto, using(model::proofs::Limits::choose2_few), unfolding(crate::specs::Cells::split_of))]
fn split_of(base: u32, allow: u32, sum: u32, left: u32, right: u32) -> u32
    requires { Small base allow sum left right }
    ensures value { result ≡ split_of base allow sum left right }
    ensures small { result < 2 ^ 31 }
{
    pair_count::pairs_among(allow + sum - base) + (left + right)
}

// The splits of an interval at the tips after its first, a place of each list for each tip.
#[derive(Clone, Copy)]
struct Splits<'a> {
    base: u32,
    allows: &'a [u32],
    sums: &'a [u32],
    lefts: &'a [u32],
    rights: &'a [u32],
    ghost lists: { SplitLists base allows.now sums.now lefts.now rights.now },
}

impl Splits<'_> {
    // The split at place i of the lists.
    fn at(&self, i: usize) -> u32
        requires { i < length self.now.allows.now }
        ensures value { result ≡ split_at self.now.base self.now.allows.now self.now.sums.now self.now.lefts.now self.now.rights.now i }
        ensures small { result < 2 ^ 31 }
    {
        split_of(
            self.base,
            self.allows[i],
            self.sums[i],
            self.lefts[i],
            self.rights[i],
        )
    }

    // The largest of them and the split at the first tip: the innermost loop. It takes two tips a turn: with one, the table of 64 tips takes
    // a tenth longer.
    fn largest(&self, first: u32) -> u32
        requires { first < 2 ^ 31 }
        ensures { result ≡ max
            first
            (largest_at self.now.base self.now.allows.now self.now.sums.now self.now.lefts.now self.now.rights.now) }
    {
        let n = self.allows.len();
        let mut best = first;
        for k in 0..n / 2 {
            best = larger(best, larger(self.at(2 * k), self.at(2 * k + 1)));
        }
        if n % 2 == 1 {
            best = larger(best, self.at(n - 1));
        }
        best
    }
}

// What the table is filled from: the rack, and the sums of the placements.
#[derive(Clone, Copy)]
struct Source<'a> {
    m: usize,
    sums: &'a [u32],
}

impl Source<'_> {
    // For each tip c to b, how many lines that allow it have no tip after b.
    fn count_allows(&self, b: usize, allows: &mut [u32])
        requires { Differences self.now.m self.now.sums.now b allows.old }
        ensures { allows.new ≡ allows_of self.now.m self.now.sums.now b allows.old }
    {
        let end = b + 1;
        for c in 0..end {
            let next = (c + 1) * (self.m + 1);
            allows[c] = self.sums[next + end] - self.sums[next + c];
        }
    }

    // The most pairs of the interval from tip a to tip b. No interval is left of tip a itself.
    fn cell(&self, a: usize, b: usize, allows: &[u32], column: &[u32], table: &[u32]) -> u32
        requires { Cell self.now.m a b self.now.sums.now allows.now column.now table.now }
        ensures { result ≡ cell_by self.now.m a b self.now.sums.now allows.now column.now table.now }
    {
        let row = a * (self.m + 1);
        let next = a + 1;
        let end = b + 1;
        let base = self.sums[row + end];
        let first = split_of(base, allows[a], self.sums[row + a], 0, column[next]);
        let others = Splits {
            base,
            allows: &allows[next..end],
            sums: &self.sums[row + next..row + end],
            lefts: &table[a * self.m + a..a * self.m + b],
            rights: &column[a + 2..b + 2],
        };
        others.largest(first)
    }

    // Column b, from the diagonal up.
    fn fill_column(&self, b: usize, table: &mut [u32])
        requires runs { (lines : List ℕ) × RunSums self.now.m 0 lines self.now.sums.now }
        requires inside { b < self.now.m }
        requires columns { ColumnsBy self.now.m self.now.sums.now table.old b }
        ensures { ColumnsBy self.now.m self.now.sums.now table.new (b + 1) }
    {
        let mut allows = [0; COLUMN_SIZE];
        self.count_allows(b, &mut allows);
        let mut column = [0; COLUMN_SIZE];
        for a in (0..b + 1).rev() {
            let best = self.cell(a, b, &allows, &column, table);
            table[a * self.m + b] = best;
            column[a] = best;
        }
    }
}

// C of the interval from a to b at a * m + b, and 0 below the diagonal: the table of all lines that have these sums.
// The rack stands beside the table: that is a part of the caller's buffer, and a row's width is the rack.
pub fn fill_table(m: usize, sums: &[u32], table: &mut [u32])
    requires runs { (lines : List ℕ) × RunSums m 0 lines sums.now }
    requires cells { length table.old ≡ m * m }
    ensures { (lines : List ℕ) → RunSums m 0 lines sums.now → table.new ≡ table_of m lines }
{
    table.fill(0);
    let source = Source { m, sums };
    for b in 0..m {
        source.fill_column(b, table);
    }
}
