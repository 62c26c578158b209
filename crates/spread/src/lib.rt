// From a board renumbered back to the board: its table spread over the places of all tips, and the tips of its plan named.
#![tactic(auto)]

ghost use Rattle.std.specs.Prelude.{◌≡◌, List, map, ℕ, ◌+◌, ◌-◌, ◌*◌, ◌≤◌, ◌<◌, length, get_or};
ghost use Rattle.model.specs.Count.{All};
ghost use Rattle.model.specs.Limits.{most_tips};
ghost use Rattle.model.specs.Plan.{has};
ghost use Rattle.model.specs.Renumber.{rank};
ghost use Rattle.spread.specs.Spread.{cell_at, spread, RowDone, RowCopied, RowsDone};

// The tips of a set that are below m, and their number, which is that of the columns of a table by their ranks.
#[derive(Clone, Copy)]
pub struct Ranking {
    pub set: u64,
    pub m: usize,
    pub count: usize,
    ghost rack: { m ≤ most_tips },
    ghost counted: { count ≡ rank (has set) m },
}

// The number of the table of r columns for the ranks from first to before end. No rank has 0 pairs: the number becomes a table's.
#[tactic(auto, using(std::proofs::lemmas::Bool::cond_below, std::proofs::lemmas::Bool::cond_above), unfolding(crate::specs::Spread::cell_at))]
pub fn cell_at(r: usize, table: &[u32], first: usize, end: usize) -> u32
    requires { first < end → first * r + (end - 1) < length table.now }
    ensures { result ≡ cell_at r table.now first end }
{
    if first < end {
        table[first * r + (end - 1)]
    } else {
        0
    }
}

// Row a of the table, from its last place backwards: what is read stands at the place that is written, or before it.
// The clause on the table's length stays here and below: it is the size of a buffer that is written.
fn spread_row(ranking: &Ranking, a: usize, first: usize, table: &mut [u32])
    requires inside { a < ranking.now.m }
    requires below { first ≡ rank (has ranking.now.set) a }
    requires size { length table.old ≡ ranking.now.m * ranking.now.m }
    ensures { RowDone ranking.now.set ranking.now.m ranking.now.count a 0 table.old table.new }
{
    let row = a * ranking.m;
    let mut end = ranking.count;
    for b in (0..ranking.m).rev() {
        table[row + b] = cell_at(ranking.count, table, first, end);
        end -= usize::from(tips::has_tip(ranking.set, b));
    }
}

// Row a becomes as the row after it, which is quicker: several places are copied at once.
fn copy_row(m: usize, a: usize, table: &mut [u32])
    requires rack { m ≤ most_tips }
    requires inside { a + 1 < m }
    requires size { length table.old ≡ m * m }
    ensures { RowCopied m a m table.old table.new }
{
    let row = a * m;
    let next = row + m;
    table.copy_within(next..next + m, row);
}

// Row a, where the rows after it are spread: a tip that is not named has the row of the next tip.
fn spread_next(ranking: &Ranking, a: usize, first: usize, table: &mut [u32])
    requires inside { a < ranking.now.m }
    requires below { first ≡ rank (has ranking.now.set) a }
    requires size { length table.old ≡ ranking.now.m * ranking.now.m }
    ensures { (old : List ℕ) → RowsDone ranking.now.set ranking.now.m ranking.now.count (a + 1) old table.old
        → RowsDone ranking.now.set ranking.now.m ranking.now.count a old table.new }
{
    if a + 1 < ranking.m && !tips::has_tip(ranking.set, a) {
        copy_row(ranking.m, a, table);
    } else {
        spread_row(ranking, a, first, table);
    }
}

// The table of the board renumbered, at the front, becomes that of all tips, from its last row backwards.
pub fn spread_table(ranking: &Ranking, table: &mut [u32])
    requires { length table.old ≡ ranking.now.m * ranking.now.m }
    ensures { table.new ≡ spread (has ranking.now.set) ranking.now.m ranking.now.count table.old }
{
    let mut first = ranking.count;
    for a in (0..ranking.m).rev() {
        first -= usize::from(tips::has_tip(ranking.set, a));
        spread_next(ranking, a, first, table);
    }
}

// Each rank of the plan becomes the tip at its place of the list.
pub fn name_tips(list: &[u8], plan: &mut [u8])
    requires { All (λ t. t < length list.now) plan.old }
    ensures { plan.new ≡ map (λ t. get_or list.now t 0) plan.old }
{
    for tip in plan.iter_mut() {
        *tip = list[usize::from(*tip)];
    }
}
