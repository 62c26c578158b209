// A table from other software: its entry for the rack, and each entry at least each of its splits at a named tip.
ghost use Rattle.std.specs.Prelude.{◌≡◌, ◌≤◌, ◌<◌, ◌&&◌, ◌==◌};
ghost use Rattle.goal_rules.specs.Check.{entry};
ghost use Rattle.checking.specs.Checking.{ends_at, ends_by, tip_by, bounds_by, EndLists, Held};

use intervals::entry_at;

// The splits of the intervals from one first tip at one tip before their last: the entry left of the tip, and of each last tip the two sums that
// tell the pairs on the tip, the entry right of it and the entry of the interval.
#[derive(Clone, Copy)]
struct Splits<'a> {
    left: u64,
    shift: u32,
    nexts: &'a [u32],
    firsts: &'a [u32],
    rights: &'a [u32],
    mosts: &'a [u32],
    ghost lists: { EndLists left shift nexts.now firsts.now rights.now mosts.now },
}

impl Splits<'_> {
    // The innermost loop: at each place the entry is at least the split, a sum of 64-bit numbers, which does not wrap. It counts and does not stop.
    fn bounded(&self) -> bool
        ensures { result ≡ ends_at self.now.left self.now.shift self.now.nexts.now self.now.firsts.now self.now.rights.now self.now.mosts.now }
    {
        let mut lacking = 0;
        let sums = self.nexts.iter().zip(self.firsts);
        let entries = self.rights.iter().zip(self.mosts);
        for ((next, first), (right, most)) in sums.zip(entries) {
            let p = next.wrapping_add(self.shift) - *first;
            let split = u64::from(pair_count::pairs_among(p)) + (self.left + u64::from(*right));
            lacking += usize::from(u64::from(*most) < split);
        }
        lacking == 0
    }
}

// A table for a rack of m tips, and the sums of the placements that it is held against.
#[derive(Clone, Copy)]
pub struct Foreign<'a> {
    pub m: usize,
    pub sums: &'a [u32],
    pub table: &'a [u32],
    ghost ready: { Held m sums.now table.now },
}

impl Foreign<'_> {
    // The split at tip c of each interval from tip a to a tip from c on: no entry is right of c where c is the last tip.
    fn first_bounded(&self, a: usize, c: usize) -> bool
        requires from { a ≤ c }
        requires inside { c < self.now.m }
        ensures { result ≡ ends_by self.now.m self.now.sums.now self.now.table.now a c }
    {
        let m = self.m;
        let left = entry_at(m, a, c - a, self.table);
        let here = pair_count::pairs_among(spans::inside_at(m, self.sums, a, c + 1 - a, c));
        if entry_at(m, a, c + 1 - a, self.table) < u64::from(here) + left {
            return false;
        }
        let next = c + 1;
        if next == m {
            return true;
        }
        let first_sums = &self.sums[a * (m + 1)..(a + 1) * (m + 1)];
        let next_sums = &self.sums[next * (m + 1)..(next + 1) * (m + 1)];
        let splits = Splits {
            left,
            shift: first_sums[c].wrapping_sub(next_sums[c]),
            nexts: &next_sums[next + 1..],
            firsts: &first_sums[next + 1..],
            rights: &self.table[next * m + next..(next + 1) * m],
            mosts: &self.table[a * m + next..(a + 1) * m],
        };
        splits.bounded()
    }

    // And so from each first tip.
    fn tip_bounded(&self, c: usize) -> bool
        requires { c < self.now.m }
        ensures { result ≡ tip_by self.now.m self.now.sums.now self.now.table.now c }
    {
        (0..c + 1).all(|a| self.first_bounded(a, c))
    }

    // The entry for the rack is the claim, and so each named tip.
    pub fn fits(&self, names: u64, claim: u32) -> bool
        ensures { result ≡ (entry self.now.m self.now.table.now 0 self.now.m == claim
            && bounds_by names self.now.m self.now.sums.now self.now.table.now) }
    {
        if entry_at(self.m, 0, self.m, self.table) != u64::from(claim) {
            return false;
        }
        (0..self.m).all(|c| !tips::has_tip(names, c) || self.tip_bounded(c))
    }
}
