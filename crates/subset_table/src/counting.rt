// The placements within each set of tips: each line is counted at its own set, and then the sets are summed tip by tip.
ghost use Rattle.std.specs.Prelude.{ℕ, ◌≡◌, ◌+◌, ◌*◌, ◌^◌, length};
ghost use Rattle.model.specs.Count.{list_of};
ghost use Rattle.placements.specs.Repeated.{repeated};
ghost use Rattle.subset_rules.specs.Subsets.{lying};
ghost use Rattle.subset_table.specs.Counting.{set_counts, added_at, Block, Summing, Addable, CountsRoom};

// The quantity of each line, at the place of its set.
fn count_sets(lines: &[u64], quantities: &[u8], counts: &mut [u32])
    requires { (m : ℕ) × CountsRoom m quantities.now lines.now counts.old }
    ensures { counts.new ≡ set_counts (length counts.old) (repeated quantities.now lines.now) }
{
    counts.fill(0);
    for (i, line) in lines.iter().enumerate() {
        counts[*line as usize] += u32::from(quantities[i]);
    }
}

// The first half of the block at `start` lacks tip t, and the second half has it: adds the first half to the second. The halves do
// not overlap, so the compiler adds several places at once.
fn add_half(t: usize, start: usize, counts: &mut [u32])
    requires { Block t start counts.old }
    ensures { Summing t start counts.old (start + 2 * 2 ^ t) counts.new }
{
    let half = crate::set_count(t);
    for u in start..start + half {
        counts[u + half] += counts[u];
    }
}

// Sums the sets by tip t, block by block.
fn add_tip(t: usize, counts: &mut [u32])
    requires { Addable t counts.old }
    ensures { counts.new ≡ list_of (added_at t counts.old) (length counts.old) }
{
    let mut start = 0;
    while start < counts.len() {
        add_half(t, start, counts);
        start += 2 * crate::set_count(t);
    }
}

// How many placements are within each set of m tips.
pub fn count_within(m: usize, lines: &[u64], quantities: &[u8], counts: &mut [u32])
    requires { CountsRoom m quantities.now lines.now counts.old }
    ensures { counts.new ≡ list_of (lying m (repeated quantities.now lines.now)) (2 ^ m) }
{
    count_sets(lines, quantities, counts);
    for t in 0..m {
        add_tip(t, counts);
    }
}
