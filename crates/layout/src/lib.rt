// The plan of best sharing: each interval's tip is found once, then each line's tip is looked up once.
#![tactic(auto)]

ghost use Rattle.std.specs.Prelude.{◌≡◌, ℕ, ◌+◌, ◌*◌, ◌≤◌, ◌<◌, List, map, T, length};
ghost use Rattle.model.specs.Count.{All};
ghost use Rattle.model.specs.Plan.{Domain};
ghost use Rattle.model.specs.Interval.{any, is_run, plan_for, table as table_of};
ghost use Rattle.head.specs.OnHead.{on_head};
ghost use Rattle.spans.specs.Spans.{RunSums};
ghost use Rattle.intervals.specs.Splits.{split_by};
ghost use Rattle.layout.specs.Picks.{lowest_by, pick_by, Searchable};
ghost use Rattle.layout.specs.Owners.{owner_of, owned, laid};

use intervals::{Interval, Lines};

// The lines of a rack of m tips, counted: their sums, the most pairs of each interval of tips, and the tip that is mounted.
#[derive(Clone, Copy)]
pub struct Counted<'a> {
    pub m: usize,
    pub mounted: Option<usize>,
    pub sums: &'a [u32],
    pub table: &'a [u32],
    pub ghost searchable: { Searchable m sums.now table.now },
}

impl Counted<'_> {
    // The pairs of the interval of first tip a and width w if tip a + i takes its lines.
    // `a + w ≤ m` stays a clause here and below: it bounds two numbers that are passed, and no value holds them with the rack.
    // They are no struct as in striking: `lay_tip` would make two more for the halves, and the clauses would name its fields.
    fn split(&self, a: usize, w: usize, i: usize) -> u64
        requires inside { a + w ≤ self.now.m }
        requires own { i < w }
        ensures { result ≡ split_by self.now.m self.now.sums.now self.now.table.now 0 a w i }
    {
        let lines = Lines {
            m: self.m,
            added: 0,
            sums: self.sums,
        };
        lines.split_at(Interval { first: a, width: w }, i, 0, self.table)
    }

    // The lowest tip of the interval, less a, that attains the most pairs.
    fn lowest(&self, a: usize, w: usize) -> usize
        requires inside { a + w ≤ self.now.m }
        requires wide { 0 < w }
        ensures { result ≡ lowest_by self.now.m self.now.sums.now self.now.table.now a w }
    {
        let most = intervals::entry_at(self.m, a, w, self.table);
        (0..w).find(|i| most <= self.split(a, w, *i)).unwrap()
    }

    // The interval's tip, less a: of those that attain the most pairs the mounted one, else the lowest.
    fn tip(&self, a: usize, w: usize) -> usize
        requires inside { a + w ≤ self.now.m }
        requires wide { 0 < w }
        ensures inside { result < w }
        ensures is { result ≡ pick_by (on_head self.now.mounted) self.now.m self.now.sums.now self.now.table.now a w }
    {
        match self.mounted {
            Some(t)
                if a <= t
                    && t - a < w
                    && intervals::entry_at(self.m, a, w, self.table) <= self.split(a, w, t - a) => t
                - a,
            _ => self.lowest(a, w),
        }
    }

    // Tip a + i owns the runs of the interval that have it: they begin at a tip from a to a + i, and end at one from a + i to the last.
    // The clause on the owners' length stays here and below: it is the size of a buffer that is written.
    fn own_runs(&self, a: usize, w: usize, i: usize, owner: &mut [u8])
        requires own { i < w }
        requires inside { a + w ≤ self.now.m }
        requires places { self.now.m * self.now.m ≤ length owner.old }
        ensures { owner.new ≡ owned self.now.m a w (a + i) owner.old }
    {
        let m = self.m;
        let tip = a + i;
        for lo in a..tip + 1 {
            owner[lo * m + tip..lo * m + (a + w)].fill(tip as u8);
        }
    }

    // An interval is laid by its tip.
    #[cycle(lay)]
    fn lay(&self, a: usize, w: usize, owner: &mut [u8])
        requires inside { a + w ≤ self.now.m }
        requires places { self.now.m * self.now.m ≤ length owner.old }
        ensures { owner.new ≡ laid self.now.m (pick_by (on_head self.now.mounted) self.now.m self.now.sums.now self.now.table.now) a w owner.old }
    {
        if 0 < w {
            let i = self.tip(a, w);
            self.lay_tip(a, w, i, owner);
        }
    }

    // The tip takes its runs, and lays the two intervals beside it.
    #[cycle(lay)]
    fn lay_tip(&self, a: usize, w: usize, i: usize, owner: &mut [u8])
        requires own { i < w }
        requires picked { i ≡ pick_by (on_head self.now.mounted) self.now.m self.now.sums.now self.now.table.now a w }
        requires inside { a + w ≤ self.now.m }
        requires places { self.now.m * self.now.m ≤ length owner.old }
        ensures { owner.new ≡ laid self.now.m (pick_by (on_head self.now.mounted) self.now.m self.now.sums.now self.now.table.now) a w owner.old }
    {
        self.own_runs(a, w, i, owner);
        self.lay(a, i, owner);
        self.lay(a + i + 1, w - (i + 1), owner);
    }

    // The owner of a line that is a run.
    fn owner_of(&self, owner: &[u8], line: u64) -> u8
        requires domain { Domain self.now.m line }
        requires places { self.now.m * self.now.m ≤ length owner.now }
        ensures { result ≡ owner_of self.now.m owner.now line }
    {
        owner[tips::lowest(line) * self.m + tips::highest(line)]
    }

    // Each line is planned on its owner.
    fn plan_owners(&self, lines: &[u64], owner: &[u8], plan: &mut [u8])
        requires domains { All (Domain self.now.m) lines.now }
        requires places { self.now.m * self.now.m ≤ length owner.now }
        requires size { length plan.old ≡ length lines.now }
        ensures { plan.new ≡ map (owner_of self.now.m owner.now) lines.now }
    {
        // By places: after an adapter of `iter_mut` a proof knows nothing of the elements.
        for (i, line) in lines.iter().enumerate() {
            plan[i] = self.owner_of(owner, *line);
        }
    }

    // The plan of sets that are unbroken runs, those counted or others, where any tip may be chosen.
    // The owner of each run is kept in a place that is lent, at its lowest tip * m + its highest.
    pub fn plan_lines(&self, sets: &[u64], owner: &mut [u8], plan: &mut [u8])
        requires domains { All (Domain self.now.m) sets.now }
        requires runs { All (λ s. T (is_run s)) sets.now }
        requires places { self.now.m * self.now.m ≤ length owner.old }
        requires size { length plan.old ≡ length sets.now }
        ensures { (lines : List ℕ) → RunSums self.now.m 0 lines self.now.sums.now → self.now.table.now ≡ table_of self.now.m lines
            → plan.new ≡ plan_for (on_head self.now.mounted) any self.now.m lines sets.now }
    {
        self.lay(0, self.m, owner);
        self.plan_owners(sets, owner, plan);
    }
}
