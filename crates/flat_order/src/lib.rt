// The best order and the least over flat arrays: the first and last position of each part, and the row of those that are to precede it.
#![tactic(auto)]

ghost use Rattle.std.specs.Prelude.{◌≡◌, ℕ, ◌<◌, length, take, IfSome, IfNone};
ghost use Rattle.std.proofs.Math.Option.{some, none};
ghost use Rattle.order_rules.specs.Least.{least_order};
ghost use Rattle.flat_order.specs.Flat.{flat_task, ready_order, Room, SizedFor, InPlace, Leaves};

pub mod changes;
mod picking;
mod positions;
pub mod sets;
mod settling;

use crate::picking::greedy_order;
use crate::positions::{by_position, first_parts};
pub use crate::sets::PartSet;
use crate::settling::settle_lasts;

// A call places at most 128 parts: a set of parts is two words.
pub const MOST_PARTS: usize = 128;

// The places by position: one for each, and one before and one after them.
pub const MOST_ENDS: usize = MOST_PARTS + 2;

// Up to 32 parts are few.
pub const FEW_PARTS: usize = 32;

pub const FEW_ENDS: usize = FEW_PARTS + 2;

// The best order that obeys, in the first places; none where none obeys. A part that is ready is preferred, and among those alike the lower
// number: at the start the parts of `start` are ready, and after each part those of `after`. The last positions are settled on the way. The
// work is done in PLACES places by part and ENDS by position: few are made more quickly.
pub fn best_order<const PLACES: usize, const ENDS: usize, F: Fn(usize) -> PartSet>(
    firsts: &[u8],
    lasts: &mut [u8],
    rows: &[PartSet],
    start: PartSet,
    after: F,
) -> Option<[u8; PLACES]>
    requires room { Room PLACES ENDS (length lasts.old) }
    requires sized { SizedFor (length lasts.old) firsts.now rows.now }
    requires firsts { InPlace (length lasts.old) firsts.now }
    requires lasts { InPlace (length lasts.old) lasts.old }
    requires after { (x : ℕ) → x < length lasts.old → F.pre after x }
    ensures some { IfSome result (λ order. (next : ℕ → PartSet) → Leaves (F.post after) (length lasts.old) next → some (take (length lasts.old) order)
        ≡ ready_order start next (flat_task firsts.now lasts.old rows.now)) }
    ensures none { IfNone result ((next : ℕ → PartSet) → Leaves (F.post after) (length lasts.old) next
        → none ≡ ready_order start next (flat_task firsts.now lasts.old rows.now)) }
{
    let all = first_parts(lasts.len());
    let mut ends = by_position::<ENDS>(&*lasts);
    let mut levels = [0u8; PLACES];
    settle_lasts(all, rows, &mut *lasts, &mut ends, &mut levels);
    greedy_order::<PLACES, ENDS, F>(all, firsts, &*lasts, rows, &ends, &mut levels, start, after)
}

// The least order that obeys, in the first places; none where none obeys: no part is ready, so that the lower number is preferred.
pub fn least_order<const PLACES: usize, const ENDS: usize>(
    firsts: &[u8],
    lasts: &mut [u8],
    rows: &[PartSet],
) -> Option<[u8; PLACES]>
    requires room { Room PLACES ENDS (length lasts.old) }
    requires sized { SizedFor (length lasts.old) firsts.now rows.now }
    requires firsts { InPlace (length lasts.old) firsts.now }
    requires lasts { InPlace (length lasts.old) lasts.old }
    ensures some { IfSome result (λ order. some (take (length lasts.old) order)
        ≡ least_order (flat_task firsts.now lasts.old rows.now)) }
    ensures none { IfNone result (none ≡ least_order (flat_task firsts.now lasts.old rows.now)) }
{
    let none = PartSet::EMPTY;
    best_order::<PLACES, ENDS, _>(firsts, lasts, rows, none, |_x| none)
}
