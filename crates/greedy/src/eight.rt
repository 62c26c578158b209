// Quick sharing of at most 64 lines in a rack of at most eight tips. A set is one byte, and each round counts the tips of the lines left anew:
// all lines are gone through without a branch.
ghost use Rattle.std.specs.Prelude.{◌≡◌, ◌^◌, ◌≤◌, ◌<◌, cond, eqb, length, map};
ghost use Rattle.model.specs.Count.{largest};
ghost use Rattle.model.specs.CommonTip.{set_of};
ghost use Rattle.placements.specs.Repeated.{repeated};
ghost use Rattle.head.specs.OnHead.{on_head};
ghost use Rattle.counts.specs.Counts.{busy_tips, Countable};
ghost use Rattle.greedy.specs.Rounds.{Shareable, QuickShared, Shared, cleared, placed, plan_by};
ghost use Rattle.greedy.specs.Eight.{count_in, CountsOf, AddsLine, HasRoom};

use counts::Busiest;
use few_tips::TIPS;

// The lines of the longest board that is taken.
pub const LINES: usize = 64;

// One line more.
fn add_line(set: u8, quantity: u8, counts: &mut [u16; TIPS])
    requires { HasRoom quantity counts.old }
    ensures { AddsLine quantity set counts.old counts.new }
{
    for (tip, count) in counts.iter_mut().enumerate() {
        *count += few_tips::placed(set, tip, quantity);
    }
}

// How many placements have each tip.
fn count_lines(sets: &[u8], quantities: &[u8]) -> [u16; TIPS]
    requires { Countable quantities.now sets.now }
    ensures { CountsOf (repeated quantities.now sets.now) result }
{
    let mut counts = [0; TIPS];
    for (i, &set) in sets.iter().enumerate() {
        add_line(set, quantities[i], &mut counts);
    }
    counts
}

fn largest(counts: &[u16; TIPS]) -> u16
    ensures { result ≡ largest (count_in counts.now) 8 }
{
    let mut most = 0;
    for &count in counts {
        most = most.max(count);
    }
    most
}

fn one_tip(test: bool, tip: usize) -> u64
    requires { tip < 8 }
    ensures { result ≡ cond test (2 ^ tip) 0 }
{
    if test { 1 << tip } else { 0 }
}

// The tips with that count.
fn tips_with(counts: &[u16; TIPS], most: u16) -> u64
    ensures { result ≡ set_of (λ t. eqb (count_in counts.now t) most) 8 }
{
    let mut tips = 0;
    for (tip, &count) in counts.iter().enumerate() {
        tips += one_tip(count == most, tip);
    }
    tips
}

// The largest count, and the tips that have it; no tip where it is 0.
fn busiest_tips(counts: &[u16; TIPS]) -> Busiest
    ensures top { result.top ≡ largest (count_in counts.now) 8 }
    ensures tips { result.tips ≡ busy_tips (count_in counts.now) result.top 8 }
{
    let most = largest(counts);
    if most == 0 {
        return Busiest { top: 0, tips: 0 };
    }
    Busiest {
        top: u32::from(most),
        tips: tips_with(counts, most),
    }
}

// The tip of a line after the tip is taken, and its set.
fn tip_after(set: u8, tip: usize, planned: u8) -> u8
    requires { tip < 8 }
    ensures { result ≡ placed tip set planned }
{
    if few_tips::has_tip(set, tip) {
        tip as u8
    } else {
        planned
    }
}

fn set_after(set: u8, tip: usize) -> u8
    requires { tip < 8 }
    ensures { result ≡ cleared tip set }
{
    if few_tips::has_tip(set, tip) { 0 } else { set }
}

// The tip is taken for each line that has it.
fn place_lines(tip: usize, left: &[u8], plan: &mut [u8])
    requires tip { tip < 8 }
    requires size { length plan.old ≡ length left.now }
    ensures { plan.new ≡ plan_by (placed tip) left.now plan.old }
{
    // By places: after an adapter of `iter_mut` a proof knows nothing of the elements.
    for (i, &set) in left.iter().enumerate() {
        plan[i] = tip_after(set, tip, plan[i]);
    }
}

fn clear_lines(tip: usize, left: &mut [u8])
    requires { tip < 8 }
    ensures { left.new ≡ map (cleared tip) left.old }
{
    for set in left.iter_mut() {
        *set = set_after(*set, tip);
    }
}

// Each round takes the tip that most placements left allow; on a tie the mounted one, else the lowest.
fn take_rounds(
    rack: usize,
    mounted: Option<usize>,
    quantities: &[u8],
    left: &mut [u8],
    plan: &mut [u8],
) -> u32
    requires narrow { rack ≤ 8 }
    requires shareable { Shareable rack quantities.now left.old plan.old }
    ensures { QuickShared (on_head mounted) rack quantities.now left.old result plan.new left.new }
{
    let mut shared = 0;
    'rounds: loop {
        let counts = count_lines(left, quantities);
        let busiest = busiest_tips(&counts);
        if busiest.top == 0 {
            return shared;
        }
        let tip = head::choose(mounted, busiest.tips);
        shared += pair_count::pairs_among(busiest.top);
        place_lines(tip, left, plan);
        clear_lines(tip, left);
    }
}

pub fn plan_lines(
    rack: usize,
    mounted: Option<usize>,
    sets: &[u64],
    quantities: &[u8],
    plan: &mut [u8],
) -> u32
    requires narrow { rack ≤ 8 }
    requires short { length sets.now ≤ 64 }
    requires shareable { Shareable rack quantities.now sets.now plan.old }
    ensures { Shared (on_head mounted) rack quantities.now sets.now result plan.new }
{
    let mut room = [0; LINES];
    let left = &mut room[..sets.len()];
    few_tips::narrow_sets(sets, left);
    take_rounds(rack, mounted, quantities, left, plan)
}
