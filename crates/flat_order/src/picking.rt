// The best order by flat arrays, position by position. Slices have a place for each part.
ghost use Rattle.std.specs.Prelude.{◌≡◌, true, false, ℕ, ◌+◌, ◌≤◌, ◌<◌, ltb, length, get_or, take, T, IfSome, IfNone};
ghost use Rattle.std.proofs.Math.Option.{some, none};
ghost use Rattle.order_rules.specs.Least.{greedy_by};
ghost use Rattle.flat_order.specs.Sets.{has_part};
ghost use Rattle.flat_order.specs.Flat.{candidates_at, is_pick, flat_task, choose_ready, IsFirst, IsChosen, Leaves};
ghost use Rattle.flat_order.specs.Flat.{Room, SizedFor, InPlace, Below, Levels, Raised, IsEnd, Held};

use crate::positions::by_position;
use crate::sets::PartSet;

// Raises the levels from one position up to another by one, and returns whether one had the number of its position.
// By place: of what a loop writes through the iter_mut of a part of a slice, the check keeps only the length.
fn raise(from: usize, to: usize, levels: &mut [u8]) -> bool
    requires few { to ≤ 128 }
    requires to { to ≤ length levels.old }
    requires fits { (v : ℕ) → from ≤ v → v < to → get_or levels.old v 0 < 255 }
    ensures { Raised from to levels.old levels.new result }
{
    let mut reached = false;
    for v in from..to {
        let level = levels[v];
        reached |= level == v as u8;
        levels[v] = level + 1;
    }
    reached
}

// The first position from p on whose level is its number and one more.
fn full_end(p: usize, levels: &[u8]) -> Option<usize>
    requires { p ≤ length levels.now }
    ensures some { IfSome result (λ v. (v < length levels.now) × IsEnd (length levels.now) p levels.now v) }
    ensures none { IfNone result (IsEnd (length levels.now) p levels.now (length levels.now)) }
{
    (p..levels.len()).find(|v| usize::from(levels[*v]) == *v + 1)
}

// The end at position p, which there is. It is still `end` where no level before that was reached.
fn tight_end(reached: bool, end: usize, p: usize, levels: &[u8]) -> usize
    requires from { p ≤ length levels.now }
    requires stays { reached ≡ false → p ≤ end → IsEnd (length levels.now) p levels.now end }
    requires some { IsEnd (length levels.now) p levels.now (length levels.now) → ⊥ }
    ensures { IsEnd (length levels.now) p levels.now result }
{
    if !reached && p <= end {
        return end;
    }
    full_end(p, levels).unwrap()
}

// The parts left that have begun at position p, have not ended before it, and have to stand at v or earlier.
#[tactic(auto, unfolding(crate::specs::Flat::candidates_at))]
fn candidates(p: usize, v: usize, begun: PartSet, ends: &[PartSet]) -> PartSet
    requires from { p < length ends.now }
    requires to { v + 1 < length ends.now }
    ensures { result ≡ candidates_at p v begun ends.now }
{
    begun & (ends[v + 1] - ends[p])
}

// The lowest candidate that no other part left is to precede. One that another part is to precede waits for it: it is one of `waiting`, and
// noted at the part that it waits for.
fn lowest_free(
    among: PartSet,
    left: PartSet,
    rows: &[PartSet],
    waiting: &mut PartSet,
    noted: &mut [PartSet],
) -> Option<usize>
    requires inside { (x : ℕ) → T (has_part among x) → x < length rows.now }
    requires held { Held left waiting.old rows.now noted.old }
    ensures some { IfSome result (λ x. (x < 128) × IsFirst (is_pick among left rows.now) x) }
    ensures none { IfNone result ((x : ℕ) → T (is_pick among left rows.now x) → ⊥) }
    ensures held { Held left waiting.new rows.now noted.new }
{
    let mut rest = among - *waiting;
    while let Some(x) = rest.lowest() {
        let one = PartSet::single(x);
        match (rows[x] & (left - one)).lowest() {
            None => return Some(x),
            Some(b) => {
                noted[b] = noted[b] | one;
                *waiting = *waiting | one;
                rest = rest - one;
            }
        }
    }
    None
}

// The lowest free candidate that is ready; where none is, the lowest free candidate.
fn free_on(
    ready: PartSet,
    among: PartSet,
    left: PartSet,
    rows: &[PartSet],
    waiting: &mut PartSet,
    noted: &mut [PartSet],
) -> Option<usize>
    requires inside { (x : ℕ) → T (has_part among x) → x < length rows.now }
    requires held { Held left waiting.old rows.now noted.old }
    ensures some { IfSome result (λ x. (x < 128) × IsChosen (has_part ready) (is_pick among left rows.now) x) }
    ensures none { IfNone result ((x : ℕ) → T (is_pick among left rows.now x) → ⊥) }
    ensures held { Held left waiting.new rows.now noted.new }
{
    if let Some(x) = lowest_free(among & ready, left, rows, &mut *waiting, &mut *noted) {
        return Some(x);
    }
    lowest_free(among, left, rows, waiting, noted)
}

// The pick for each position, in the first places; none where a position has no pick. At the start the parts of `start` are ready, and after
// each part those of `after`.
pub fn greedy_order<const PLACES: usize, const ENDS: usize, F: Fn(usize) -> PartSet>(
    all: PartSet,
    firsts: &[u8],
    lasts: &[u8],
    rows: &[PartSet],
    ends: &[PartSet],
    levels: &mut [u8],
    start: PartSet,
    after: F,
) -> Option<[u8; PLACES]>
    requires room { Room PLACES ENDS (length lasts.now) }
    requires sized { SizedFor (length lasts.now) firsts.now rows.now }
    requires firsts { InPlace (length lasts.now) firsts.now }
    requires lasts { InPlace (length lasts.now) lasts.now }
    requires all { (x : ℕ) → has_part all x ≡ ltb x (length lasts.now) }
    requires ends { Below lasts.now (length lasts.now) ends.now }
    requires places { length lasts.now + 1 < length ends.now }
    requires levels { Levels all lasts.now 0 levels.old }
    requires after { (x : ℕ) → x < length lasts.now → F.pre after x }
    ensures some { IfSome result (λ order. (next : ℕ → PartSet) → Leaves (F.post after) (length lasts.now) next → some (take (length lasts.now) order)
        ≡ greedy_by choose_ready next (flat_task firsts.now lasts.now rows.now) (length lasts.now) 0 start (λ _. true)) }
    ensures none { IfNone result ((next : ℕ → PartSet) → Leaves (F.post after) (length lasts.now) next → none
        ≡ greedy_by choose_ready next (flat_task firsts.now lasts.now rows.now) (length lasts.now) 0 start (λ _. true)) }
{
    let n = lasts.len();
    let starts = by_position::<ENDS>(&firsts[..n]);
    let mut waiting = PartSet::EMPTY;
    let mut noted = [PartSet::EMPTY; PLACES];
    let mut begun = PartSet::EMPTY;
    let mut left = all;
    let mut ready = start;
    let mut order = [0u8; PLACES];
    let mut end = 0;
    let mut reached = true;
    for p in 0..n {
        begun = begun | starts[p + 1];
        end = tight_end(reached, end, p, &levels[..n]);
        let among = candidates(p, end, left & begun, ends);
        let x = free_on(ready, among, left, rows, &mut waiting, &mut noted)?;
        order[p] = x as u8;
        waiting = waiting - noted[x];
        left = left - PartSet::single(x);
        ready = after(x);
        let last = usize::from(lasts[x]);
        reached = raise(p + 1, last, &mut *levels);
    }
    Some(order)
}
