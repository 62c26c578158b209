// The Junior with two holders over slices: the search for its one tip or two, and its plan.
#![tactic(auto)]

ghost use Rattle.std.specs.Prelude.{◌≡◌, cond, not, ◌&&◌, ◌||◌, ◌^◌, ◌≤◌, ◌<◌, true, ltb, length, take};
ghost use Rattle.model.specs.Limits.{most_placements};
ghost use Rattle.model.specs.Plan.{has};
ghost use Rattle.placements.specs.Repeated.{total, weighted, repeated};
ghost use Rattle.model.specs.Count.{All};
ghost use Rattle.placements.specs.Good.{GoodLines};
ghost use Rattle.holder_rules.specs.Holders.{serves, gathered, side_pairs};
ghost use Rattle.junior.specs.Found.{Padded, tips_on, score_is, tips_of, found_of, plan_of};

use placements::Lines;

// The lines of the longest board. A set is one byte, and the places behind the last line have every tip.
const LINES: usize = 64;

// The lines that are asked together.
const BLOCK: usize = 16;

// The plan's pairs, and its tips u and v.
#[derive(Clone, Copy, Debug, PartialEq, Eq)]
pub struct Found {
    pub pairs: u32,
    pub u: usize,
    pub v: usize,
}

// Two tips that serve every line, or one as both, with the plan's pairs. `first` says that the lines that have both go to u: no other field
// tells that.
#[derive(Clone, Copy)]
struct Tips {
    found: Found,
    first: bool,
}

fn has_one(set: u8, u: usize, v: usize) -> bool
    requires u { u < 8 }
    requires v { v < 8 }
    ensures { result ≡ (has set u || has set v) }
{
    few_tips::has_tip(set, u) || few_tips::has_tip(set, v)
}

// Some line of a block has neither: all are asked, because a branch at each would often be mispredicted.
fn misses(block: &[u8], u: usize, v: usize) -> bool
    requires u { u < 8 }
    requires v { v < 8 }
    ensures { result ≡ not (serves block.now u v) }
{
    let mut missed = false;
    for &set in block {
        missed |= !has_one(set, u, v);
    }
    missed
}

// The placements of the lines that have the tip, summed in 16 bits, which hold them.
fn with_tip(tip: usize, lines: &[u8], quantities: &[u8]) -> u32
    requires tip { tip < 8 }
    requires same { length quantities.now ≡ length lines.now }
    requires few { total quantities.now ≤ most_placements }
    ensures { result ≡ weighted (λ s. has s tip) quantities.now lines.now }
{
    let mut sum = 0;
    for (i, &set) in lines.iter().enumerate() {
        sum += few_tips::placed(set, tip, quantities[i]);
    }
    u32::from(sum)
}

// The pairs where `on` of all the placements are on one tip and the others on another.
fn side_pairs(all: u32, on: u32) -> u32
    requires on { on ≤ all }
    requires all { all ≤ most_placements }
    ensures { result ≡ side_pairs all on }
{
    pair_count::pairs_among(on) + pair_count::pairs_among(all - on)
}

// Two different tips are a choice only where each gets a line: some lack u, and some lack v.
fn each_used(same: bool, all: u32, with_u: u32, with_v: u32) -> bool
    ensures { result ≡ (same || (ltb with_u all && ltb with_v all)) }
{
    same || (with_u < all && with_v < all)
}

// The tips u and v, one of which each line has, with their plan's pairs. They are no choice where one of two different tips gets no line.
fn on_tips(u: usize, v: usize, sets: &[u8; LINES], quantities: &[u8], all: u32) -> Option<Tips>
    requires ordered { u ≤ v }
    requires inside { v < 8 }
    requires padded { Padded (length quantities.now) sets.now }
    requires served { true ≡ serves sets.now u v }
    requires all { all ≡ total quantities.now }
    requires few { all ≤ most_placements }
    ensures { result ≡ tips_on (repeated quantities.now (take (length quantities.now) sets.now)) u v }
{
    let lines = &sets[..quantities.len()];
    let with_u = with_tip(u, lines, quantities);
    let with_v = with_tip(v, lines, quantities);
    if !each_used(u == v, all, with_u, with_v) {
        return None;
    }
    let to_u = side_pairs(all, with_u);
    let to_v = side_pairs(all, with_v);
    let pairs = to_u.max(to_v);
    Some(Tips {
        found: Found { pairs, u, v },
        first: to_v <= to_u,
    })
}

// The choice with more pairs, and the first of two that have as many.
fn better(first: Option<Tips>, next: Tips) -> Option<Tips>
    ensures stays { score_is (Some next) ≤ score_is first → result ≡ first }
    ensures moves { score_is first < score_is (Some next) → result ≡ Some next }
{
    let Some(old) = first else {
        return Some(next);
    };
    if old.found.pairs < next.found.pairs {
        Some(next)
    } else {
        first
    }
}

// The tips with the most pairs, of these the lowest u, then the lowest v: a pair of tips is given up at the first block of lines in which
// one allows neither.
// The rack stands beside the lines: it is not their length.
fn choose_tips(m: usize, sets: &[u8; LINES], quantities: &[u8], all: u32) -> Option<Tips>
    requires narrow { m ≤ 8 }
    requires padded { Padded (length quantities.now) sets.now }
    requires good { GoodLines m quantities.now (take (length quantities.now) sets.now) }
    requires all { all ≡ total quantities.now }
    ensures { result ≡ tips_of m quantities.now (take (length quantities.now) sets.now) }
{
    // Those that have lines. Compiled for a fixed number of blocks, the search takes twice as long.
    let blocks = quantities.len().div_ceil(BLOCK);
    let mut best = None;
    for u in 0..m {
        'tips: for v in u..m {
            for i in 0..blocks {
                if misses(&sets[BLOCK * i..BLOCK * i + BLOCK], u, v) {
                    continue 'tips;
                }
            }
            if let Some(next) = on_tips(u, v, sets, quantities, all) {
                best = better(best, next);
            }
        }
    }
    best
}

fn tip_for(set: u8, tip: usize, other: usize) -> u8
    requires tip { tip < 8 }
    requires other { other < 8 }
    ensures { result ≡ cond (has set tip) tip other }
{
    if few_tips::has_tip(set, tip) {
        tip as u8
    } else {
        other as u8
    }
}

// The lines that have the tip on it, and the others on the other one.
// The clause on the plan's length stays here and below: it is the size of a buffer that is written.
fn lay_lines(tip: usize, other: usize, lines: &[u8], plan: &mut [u8])
    requires tip { tip < 8 }
    requires other { other < 8 }
    requires size { length plan.old ≡ length lines.now }
    ensures { plan.new ≡ gathered lines.now tip other }
{
    // By places: after an adapter of `iter_mut` a proof knows nothing of the elements.
    for (i, &set) in lines.iter().enumerate() {
        plan[i] = tip_for(set, tip, other);
    }
}

// The lines that have both go to their side.
fn lay_tips(tips: Tips, lines: &[u8], plan: &mut [u8])
    requires u { tips.found.u < 8 }
    requires v { tips.found.v < 8 }
    requires size { length plan.old ≡ length lines.now }
    ensures { plan.new ≡ cond tips.first (gathered lines.now tips.found.u tips.found.v)
        (gathered lines.now tips.found.v tips.found.u) }
{
    let Found { u, v, .. } = tips.found;
    if tips.first {
        lay_lines(u, v, lines, plan);
    } else {
        lay_lines(v, u, lines, plan);
    }
}

// The sets in bytes, with every tip in the places behind them.
fn pad_sets(sets: &[u64]) -> [u8; LINES]
    requires short { length sets.now ≤ 64 }
    requires narrow { All (λ s. s < 2 ^ 8) sets.now }
    ensures front { take (length sets.now) result ≡ sets.now }
    ensures padded { Padded (length sets.now) result }
{
    let mut padded = [u8::MAX; LINES];
    few_tips::narrow_sets(sets, &mut padded[..sets.len()]);
    padded
}

// The plan is laid where some tips serve every line; else it stays as it was.
pub fn plan_lines(lines: Lines<'_>, plan: &mut [u8]) -> Option<Found>
    requires size { length plan.old ≡ length lines.sets.now }
    requires short { length lines.sets.now ≤ 64 }
    requires narrow { lines.rack ≤ 8 }
    ensures answer { result ≡ found_of lines.entry.rack lines.entry.quantities.now lines.entry.sets.now }
    ensures plan { plan.new ≡ plan_of lines.entry.rack lines.entry.quantities.now lines.entry.sets.now plan.old }
{
    let all = lines.total() as u32;
    let sets = pad_sets(lines.sets);
    let tips = choose_tips(lines.rack, &sets, lines.quantities, all)?;
    lay_tips(tips, &sets[..lines.len()], plan);
    Some(tips.found)
}
