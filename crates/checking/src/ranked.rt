// A table as best sharing leaves it: a tip that no line names has the row of the next tip and the column of the tip before it. Of such a table
// it is enough to check the entries of the named tips, by their ranks.
ghost use Rattle.std.specs.Prelude.{◌≡◌, ◌*◌, ◌≤◌, ◌<◌, ◌||◌, ◌==◌, length};
ghost use Rattle.model.specs.Limits.{most_tips};
ghost use Rattle.model.specs.Plan.{has};
ghost use Rattle.model.specs.Renumber.{rank};
ghost use Rattle.ranks.specs.Listed.{Named};
ghost use Rattle.checking.specs.Spread.{row_copied, columns_copied, row_spread, is_spread, Gathered};

// A table for a rack of m tips, the tips that the lines name, and the list of these.
#[derive(Clone, Copy)]
pub struct Wide<'a> {
    pub m: usize,
    pub names: u64,
    pub count: usize,
    pub tips: &'a [u8],
    pub table: &'a [u32],
    ghost rack: { m ≤ most_tips },
    ghost counted: { count ≡ rank (has names) m },
    ghost listed: { Named (has names) m tips.now },
    ghost size: { m * m ≤ length table.now },
}

// Whether a tip lacks the number of the tip before it, 0 or 1: a named tip may have any number.
fn lacks(is_named: bool, number: u32, before: u32) -> u32
    ensures test { (result == 0) ≡ (is_named || (number == before)) }
    ensures few { result ≤ 1 }
{
    u32::from(!is_named && number != before)
}

impl Wide<'_> {
    // After its own place, row a is as the next row. It counts and does not stop, so that the compiler takes several places at once.
    fn row_copied(&self, a: usize) -> bool
        requires { a < self.now.m }
        ensures { result ≡ row_copied self.now.m self.now.table.now a }
    {
        let row = a * self.m;
        let next = row + self.m;
        let mut lacking = 0;
        for b in a + 1..self.m {
            lacking += u32::from(self.table[row + b] != self.table[next + b]);
        }
        lacking == 0
    }

    // After its own place, row a has at each tip that is not named the number of the tip before.
    fn columns_copied(&self, a: usize) -> bool
        requires { a < self.now.m }
        ensures { result ≡ columns_copied self.now.names self.now.m self.now.table.now a }
    {
        let row = a * self.m;
        let mut lacking = 0;
        for b in a + 1..self.m {
            let is_named = tips::has_tip(self.names, b);
            lacking += lacks(is_named, self.table[row + b], self.table[row + b - 1]);
        }
        lacking == 0
    }

    // The row of a named tip has copied columns; that of another tip is copied, and its own place is 0.
    fn row_spread(&self, a: usize) -> bool
        requires { a < self.now.m }
        ensures { result ≡ row_spread self.now.names self.now.m self.now.table.now a }
    {
        if tips::has_tip(self.names, a) {
            return self.columns_copied(a);
        }
        self.table[a * self.m + a] == 0 && self.row_copied(a)
    }

    pub fn is_spread(&self) -> bool
        ensures { result ≡ is_spread self.now.names self.now.m self.now.table.now }
    {
        (0..self.m).all(|a| self.row_spread(a))
    }

    // The numbers of the named tips in the row of the tip of rank i.
    fn gather_row(&self, i: usize, own: &mut [u32])
        requires rank { i < self.now.count }
        requires before { Gathered self.now.names self.now.m self.now.count self.now.table.now own.old i 0 }
        ensures { Gathered self.now.names self.now.m self.now.count self.now.table.now own.new i self.now.count }
    {
        let row = usize::from(self.tips[i]) * self.m;
        let first = i * self.count;
        for j in 0..self.count {
            own[first + j] = self.table[row + usize::from(self.tips[j])];
        }
    }

    // And so of each row: the table by ranks.
    pub fn gather(&self, own: &mut [u32])
        requires { length own.old ≡ self.now.count * self.now.count }
        ensures { Gathered self.now.names self.now.m self.now.count self.now.table.now own.new self.now.count 0 }
    {
        for i in 0..self.count {
            self.gather_row(i, own);
        }
    }
}
