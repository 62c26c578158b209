// Plans with the fewest tip changes, where the lines are placed in the order of the list.
#![tactic(auto)]

ghost use Rattle.std.specs.Prelude.{◌≡◌, ◌≤◌, length};
ghost use Rattle.model.specs.Interval.{low};
ghost use Rattle.head.specs.OnHead.{on_head};
ghost use Rattle.along.specs.Along.{start_set, fewest, plan_along, FewestChanges};
ghost use Rattle.along.specs.Counts.{counts_of};
ghost use Rattle.along.specs.Segment.{segment_at, filled, laid, Placeable};

use placements::Lines;

// How many tip changes a plan has along the list, and its pairs.
#[derive(Clone, Copy, Debug, PartialEq, Eq)]
pub struct AlongCounts {
    pub changes: usize,
    pub pairs: u32,
}

// Lines one after the other with common tips: the place after them, and those tips.
#[derive(Drop)]
pub struct Segment {
    pub end: usize,
    pub common: u64,
}

// The tips that can be on the head before the first line.
fn start_set(mounted: Option<usize>) -> u64
    ensures { result ≡ start_set (on_head mounted) }
{
    match mounted {
        Some(on) if on < model::MOST_TIPS => tips::between(on, on),
        Some(_) => 0,
        None => u64::MAX,
    }
}

// The segment from a place on, where the common tips so far are given.
fn find_segment(sets: &[u64], from: usize, start: u64) -> Segment
    requires { from ≤ length sets.now }
    ensures { result ≡ segment_at sets.now from start }
{
    let mut common = start;
    for end in from..sets.len() {
        let both = common & sets[end];
        if both == 0 {
            return Segment { end, common };
        }
        common = both;
    }
    Segment {
        end: sets.len(),
        common,
    }
}

// The lowest tip of the set, as a byte.
#[tactic(auto, unfolding(model::specs::Interval::low))]
fn low_tip(set: u64) -> u8
    ensures { result ≡ low set }
{
    tips::lowest(set) as u8
}

// The tip for the lines from a place to before an end.
#[tactic(auto, unfolding(crate::specs::Segment::filled))]
fn fill(plan: &mut [u8], from: usize, end: usize, on: u8)
    requires order { from ≤ end }
    requires room { end ≤ length plan.old }
    ensures { plan.new ≡ filled from end on plan.old }
{
    plan[from..end].fill(on);
}

// A segment's lines on its lowest common tip; its end.
fn lay_segment(sets: &[u64], from: usize, start: u64, plan: &mut [u8]) -> usize
    requires from { from ≤ length sets.now }
    requires room { length plan.old ≡ length sets.now }
    ensures end { result ≡ (segment_at sets.now from start).end }
    ensures plan { plan.new ≡ laid sets.now from start plan.old }
{
    let found = find_segment(sets, from, start);
    fill(plan, from, found.end, low_tip(found.common));
    found.end
}

// Lays the plan with the fewest tip changes along the list. Returns its changes.
fn plan_along(mounted: Option<usize>, sets: &[u64], plan: &mut [u8]) -> usize
    requires { Placeable sets.now plan.old }
    ensures changes { result ≡ fewest (on_head mounted) sets.now }
    ensures plan { plan.new ≡ plan_along (on_head mounted) sets.now }
    ensures rule { FewestChanges (on_head mounted) sets.now plan.new result }
{
    let mut at = lay_segment(sets, 0, start_set(mounted), plan);
    let mut changes = 0;
    while at < sets.len() {
        at = lay_segment(sets, at, sets[at], plan);
        changes += 1;
    }
    changes
}

// The same for lines with quantities: a change is counted by lines, a pair by placements.
pub fn plan_lines(lines: Lines<'_>, mounted: Option<usize>, plan: &mut [u8]) -> AlongCounts
    requires { length plan.old ≡ length lines.sets.now }
    ensures counts { result ≡ counts_of (on_head mounted) lines.entry.quantities.now lines.entry.sets.now }
    ensures plan { plan.new ≡ plan_along (on_head mounted) lines.entry.sets.now }
{
    let changes = plan_along(mounted, lines.sets, plan);
    let pairs = plan_pairs::count_pairs(lines.quantities, plan);
    AlongCounts { changes, pairs }
}
