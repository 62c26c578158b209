// The live intervals: those through which the goal can be had, by the two tables of all lines.
ghost use Rattle.std.specs.Prelude.{◌≡◌, false, ℕ, ◌+◌, ◌*◌, ◌≤◌, ◌<◌, length};
ghost use Rattle.model.specs.Limits.{most_tips};
ghost use Rattle.striking.specs.Early.{live_by, Widest};

use intervals::Interval;

// The goal and the two tables of all lines.
#[derive(Clone, Copy)]
pub struct Live<'a> {
    pub m: usize,
    pub goal: u32,
    pub inner: &'a [u32],
    pub upper: &'a [u32],
    ghost rack: { m ≤ most_tips },
    ghost inner_size: { m * m ≤ length inner.now },
    ghost upper_size: { m * m ≤ length upper.now },
}

impl Live<'_> {
    #[tactic(auto, unfolding(crate::specs::Early::live_by))]
    pub fn has(&self, of: Interval) -> bool
        requires { of.first + of.width ≤ self.now.m }
        ensures { result ≡ live_by self.now.m self.now.inner.now self.now.upper.now self.now.goal of.first of.width }
    {
        let outside = intervals::entry_at(self.m, of.first, of.width, self.upper);
        let inside = intervals::entry_at(self.m, of.first, of.width, self.inner);
        u64::from(self.goal) <= outside + inside
    }

    // The width of the widest live interval of first tip a; 0 if none has a tip.
    fn widest_from(&self, a: usize) -> usize
        requires { a < self.now.m }
        ensures inside { a + result ≤ self.now.m }
        ensures past { (w : ℕ) → a + w ≤ self.now.m → result < w
            → live_by self.now.m self.now.inner.now self.now.upper.now self.now.goal a w ≡ false }
    {
        for w in (1..self.m + 1 - a).rev() {
            if self.has(Interval { first: a, width: w }) {
                return w;
            }
        }
        0
    }

    // And so for each first tip. At a goal near the best pairs few are live, and most first tips have none.
    pub fn list_widest(&self, widest: &mut [u8])
        requires { length widest.old ≡ self.now.m }
        ensures { Widest self.now.m self.now.inner.now self.now.upper.now self.now.goal widest.new self.now.m }
    {
        for a in 0..self.m {
            widest[a] = self.widest_from(a) as u8;
        }
    }
}
