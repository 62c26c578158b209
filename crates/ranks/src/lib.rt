// The named tips of lines, the first line that misses one of them, and lines renumbered: each tip replaced by its rank among the named tips, and
// back.
#![tactic(auto)]

ghost use Rattle.std.specs.Prelude.{◌≡◌, map, ◌≤◌, length};
ghost use Rattle.model.specs.Count.{first_fail, place_in, All};
ghost use Rattle.model.specs.Limits.{most_tips};
ghost use Rattle.model.specs.Plan.{has};
ghost use Rattle.model.specs.Interval.{named, is_run_of};
ghost use Rattle.model.specs.Renumber.{names, rank, rank_on};
ghost use Rattle.head.specs.OnHead.{on_head};
ghost use Rattle.ranks.specs.Listed.{Ranks, Named, run_by, Ranked, RanksOf, named_by, Nameable};

// The union of the lines' sets.
#[tactic(auto, using(model::proofs::Names::names_more), unfolding(model::specs::Renumber::names))]
pub fn names_of(lines: &[u64]) -> u64
    ensures { result ≡ names lines.now }
{
    let mut set = 0;
    for line in lines {
        set |= *line;
    }
    set
}

// The first line that misses a named tip between its lowest and its highest.
pub fn first_not_run(lines: &[u64]) -> Option<usize>
    ensures { result ≡ place_in (first_fail (is_run_of (named lines.now)) lines.now) (length lines.now) }
{
    let names = names_of(lines);
    lines.iter().position(|line| !tips::is_run_of(names, *line))
}

// The rank of each tip below m, and the tip of each rank; the answer is the number of tips of the set below m.
// The lists stay where they were made: to hand out a struct with both arrays takes a fifth longer where no line names a tip.
// The rack stands beside the lists, which have a place for each tip of the largest rack.
#[tactic(auto, unfolding(model::specs::Renumber::rank))]
pub fn list_tips(set: u64, m: usize, ranks: &mut [u8], named: &mut [u8]) -> usize
    requires rack { m ≤ most_tips }
    requires all_ranks { length ranks.old ≡ most_tips }
    requires all_tips { length named.old ≡ most_tips }
    ensures size { result ≡ rank (has set) m }
    ensures ranks { Ranks (has set) m ranks.new }
    ensures named { Named (has set) m named.new }
{
    let mut r = 0;
    for t in 0..m {
        ranks[t] = r as u8;
        named[r] = t as u8;
        r += usize::from(tips::has_tip(set, t));
    }
    r
}

// A run renumbered, from the ranks of its lowest and its highest tip.
fn renumber_line(line: u64, ranks: &[u8]) -> u64
    requires { Ranked ranks.now line }
    ensures { result ≡ run_by ranks.now line }
{
    let low = usize::from(ranks[tips::lowest(line)]);
    let high = usize::from(ranks[tips::highest(line)]);
    tips::between(low, high)
}

pub fn renumber_lines(lines: &mut [u64], ranks: &[u8])
    requires { All (Ranked ranks.now) lines.old }
    ensures { lines.new ≡ map (run_by ranks.now) lines.old }
{
    for line in lines.iter_mut() {
        *line = renumber_line(*line, ranks);
    }
}

// The mounted tip by its rank, or nothing where the set does not have it.
pub fn renumber_mounted(mounted: Option<usize>, set: u64, ranks: &[u8]) -> Option<usize>
    requires { RanksOf set ranks.now }
    ensures { on_head result ≡ rank_on (has set) (on_head mounted) }
{
    match mounted {
        Some(t) if t < model::MOST_TIPS && tips::has_tip(set, t) => Some(usize::from(ranks[t])),
        _ => None,
    }
}

// A set of ranks as a set of tips, by the list of the tips.
fn name_set(list: &[u8], set: u64) -> u64
    requires { Nameable list.now set }
    ensures { result ≡ named_by list.now set }
{
    let mut named = 0;
    for rank in tips::lowest(set)..tips::highest(set) + 1 {
        named |= u64::from(tips::has_tip(set, rank)) << list[rank];
    }
    named
}

pub fn name_sets(list: &[u8], sets: &mut [u64])
    requires { All (Nameable list.now) sets.old }
    ensures { sets.new ≡ map (named_by list.now) sets.old }
{
    for set in sets.iter_mut() {
        *set = name_set(list, *set);
    }
}
