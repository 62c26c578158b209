// The last positions, settled along the rows. Slices have a place for each part.
ghost use Rattle.std.specs.Prelude.{◌≡◌, ℕ, ◌+◌, ◌≤◌, ◌<◌, List, ltb, length};
ghost use Rattle.order_rules.specs.Least.{lasts_of};
ghost use Rattle.flat_order.specs.Sets.{has_part};
ghost use Rattle.flat_order.specs.Flat.{flat_task, InPlace, PartsAt, Below, Levels};

use crate::sets::PartSet;

// The last positions, such that no part's is after that of one that it is to precede. Position by position: a part that is due is
// settled, and those that are to precede it are due too. Then each place has the parts that end before it, and the levels are
// those of all parts.
pub fn settle_lasts(
    all: PartSet,
    rows: &[PartSet],
    lasts: &mut [u8],
    ends: &mut [PartSet],
    levels: &mut [u8],
)
    requires few { length lasts.old ≤ 128 }
    requires rows { length lasts.old ≤ length rows.now }
    requires within { InPlace (length lasts.old) lasts.old }
    requires all { (x : ℕ) → has_part all x ≡ ltb x (length lasts.old) }
    requires ends { PartsAt lasts.old (length lasts.old) ends.old }
    requires places { length lasts.old + 1 < length ends.old }
    requires levels { length lasts.old ≤ length levels.old }
    ensures settled { (firsts : List ℕ) → lasts.new ≡ lasts_of (flat_task firsts lasts.old rows.now) }
    ensures within { InPlace (length lasts.old) lasts.new }
    ensures places { length lasts.old + 1 < length ends.new }
    ensures ends { Below lasts.new (length lasts.old) ends.new }
    ensures levels { Levels all lasts.new 0 levels.new }
{
    let mut left = all;
    let mut due = PartSet::EMPTY;
    let mut settled: u8 = 0;
    for e in 0..lasts.len() {
        due = (due | ends[e + 1]) & left;
        while let Some(b) = due.lowest() {
            lasts[b] = e as u8;
            left = left - PartSet::single(b);
            due = (due | rows[b]) & left;
            settled += 1;
        }
        levels[e] = settled;
        ends[e + 1] = all - left;
    }
}
