// Orders that obey, one part at a position or earlier, or later. Each search copies the last positions, since it settles them.
ghost use Rattle.std.specs.Prelude.{◌≡◌, false, ◌<◌, length, take, IfSome, IfNone};
ghost use Rattle.order_rules.specs.Order.{Obeys};
ghost use Rattle.flat_order.specs.Flat.{flat_task, Room};
ghost use Rattle.windows.specs.Bounds.{solvable, due_by, not_before};
ghost use Rattle.windows.specs.Found.{Ready};

use flat_order::best_order;
use flat_order::sets::PartSet;

// An order that obeys, in the first places; none where none obeys. It prefers the parts of `wanted`. Which order it is, matters to no answer.
fn some_order<const PLACES: usize, const ENDS: usize>(
    firsts: &[u8],
    ends: &mut [u8],
    rows: &[PartSet],
    wanted: PartSet,
) -> Option<[u8; PLACES]>
    requires room { Room PLACES ENDS (length ends.old) }
    requires ready { Ready firsts.now ends.old rows.now }
    ensures some { IfSome result (λ order. Obeys (flat_task firsts.now ends.old rows.now) (take (length ends.old) order)) }
    ensures none { IfNone result (solvable (flat_task firsts.now ends.old rows.now) ≡ false) }
{
    best_order::<PLACES, ENDS, _>(firsts, ends, rows, wanted, |_x| wanted)
}

// One that prefers no part.
pub fn any_order<const PLACES: usize, const ENDS: usize>(
    firsts: &[u8],
    lasts: &[u8],
    rows: &[PartSet],
) -> Option<[u8; PLACES]>
    requires room { Room PLACES ENDS (length lasts.now) }
    requires ready { Ready firsts.now lasts.now rows.now }
    ensures some { IfSome result (λ order. Obeys (flat_task firsts.now lasts.now rows.now) (take (length lasts.now) order)) }
    ensures none { IfNone result (solvable (flat_task firsts.now lasts.now rows.now) ≡ false) }
{
    let mut ends = [0u8; PLACES];
    let ends = &mut ends[..lasts.len()];
    ends.copy_from_slice(lasts);
    some_order::<PLACES, ENDS>(firsts, ends, rows, PartSet::EMPTY)
}

// One that has part i at a position or earlier.
pub fn order_by<const PLACES: usize, const ENDS: usize>(
    firsts: &[u8],
    lasts: &[u8],
    rows: &[PartSet],
    i: usize,
    position: u8,
    wanted: PartSet,
) -> Option<[u8; PLACES]>
    requires room { Room PLACES ENDS (length lasts.now) }
    requires ready { Ready firsts.now lasts.now rows.now }
    requires part { i < length lasts.now }
    ensures some { IfSome result (λ order. Obeys (due_by (flat_task firsts.now lasts.now rows.now) i position) (take (length lasts.now) order)) }
    ensures none { IfNone result (solvable (due_by (flat_task firsts.now lasts.now rows.now) i position) ≡ false) }
{
    let mut ends = [0u8; PLACES];
    let ends = &mut ends[..lasts.len()];
    ends.copy_from_slice(lasts);
    ends[i] = position.min(ends[i]);
    some_order::<PLACES, ENDS>(firsts, ends, rows, wanted)
}

// One that has part i at a position or later.
pub fn order_from<const PLACES: usize, const ENDS: usize>(
    firsts: &[u8],
    lasts: &[u8],
    rows: &[PartSet],
    i: usize,
    position: u8,
    wanted: PartSet,
) -> Option<[u8; PLACES]>
    requires room { Room PLACES ENDS (length lasts.now) }
    requires ready { Ready firsts.now lasts.now rows.now }
    requires part { i < length lasts.now }
    requires position { position < length lasts.now }
    ensures some { IfSome result (λ order. Obeys (not_before (flat_task firsts.now lasts.now rows.now) i position)
        (take (length lasts.now) order)) }
    ensures none { IfNone result (solvable (not_before (flat_task firsts.now lasts.now rows.now) i position) ≡ false) }
{
    let n = lasts.len();
    let mut starts = [0u8; PLACES];
    let starts = &mut starts[..n];
    starts.copy_from_slice(&firsts[..n]);
    starts[i] = position.max(starts[i]);
    let mut ends = [0u8; PLACES];
    let ends = &mut ends[..n];
    ends.copy_from_slice(lasts);
    some_order::<PLACES, ENDS>(starts, ends, rows, wanted)
}
