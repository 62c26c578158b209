// The first and the last position of one part. Each test asks for an order that has the part earlier, or later, than any order found so far.
ghost use Rattle.std.specs.Prelude.{ℕ, ◌<◌, ◌≤◌, length, get_or};
ghost use Rattle.flat_order.specs.Flat.{flat_task, Room};
ghost use Rattle.windows.specs.Bounds.{soonest, latest};
ghost use Rattle.windows.specs.Found.{Seen, Narrowable};

use crate::noting::note;
use crate::orders::{order_by, order_from};
use flat_order::sets::PartSet;

// One position at first, and after two orders found in turn twice as far each time.
fn reach(step: u8, most: u8) -> u8
    requires { 0 < most }
    ensures some { 0 < result }
    ensures most { result ≤ most }
{
    (step / 2).max(1).min(most)
}

fn doubled(step: u8) -> u8 {
    if step < 128 { 2 * step } else { step }
}

// The first position of part i: an order that is found lowers what is seen, and one that is not raises where it can be.
pub fn narrow_first<const PLACES: usize, const ENDS: usize>(
    firsts: &[u8],
    lasts: &[u8],
    rows: &[PartSet],
    i: usize,
    wanted: PartSet,
    first: &mut [u8],
    last: &mut [u8],
)
    requires room { Room PLACES ENDS (length lasts.now) }
    requires part { Narrowable firsts.now lasts.now rows.now i }
    requires seen { Seen firsts.now lasts.now rows.now first.old last.old }
    ensures seen { Seen firsts.now lasts.now rows.now first.new last.new }
    ensures lower { (j : ℕ) → get_or first.new j 0 ≤ get_or first.old j 0 }
    ensures found { get_or first.new i 0 ≤ soonest (flat_task firsts.now lasts.now rows.now) i }
{
    let n = lasts.len();
    let mut from = firsts[i];
    let mut step = 1u8;
    while from < first[i] {
        let position = first[i] - reach(step, first[i] - from);
        match order_by::<PLACES, ENDS>(firsts, lasts, rows, i, position, wanted) {
            Some(order) => {
                note(&order[..n], &mut *first, &mut *last);
                step = doubled(step);
            }
            None => {
                from = position + 1;
                step = 1;
            }
        }
    }
}

// And the last.
pub fn narrow_last<const PLACES: usize, const ENDS: usize>(
    firsts: &[u8],
    lasts: &[u8],
    rows: &[PartSet],
    i: usize,
    wanted: PartSet,
    first: &mut [u8],
    last: &mut [u8],
)
    requires room { Room PLACES ENDS (length lasts.now) }
    requires part { Narrowable firsts.now lasts.now rows.now i }
    requires seen { Seen firsts.now lasts.now rows.now first.old last.old }
    ensures seen { Seen firsts.now lasts.now rows.now first.new last.new }
    ensures lower { (j : ℕ) → get_or first.new j 0 ≤ get_or first.old j 0 }
    ensures higher { (j : ℕ) → get_or last.old j 0 ≤ get_or last.new j 0 }
    ensures found { latest (flat_task firsts.now lasts.now rows.now) i ≤ get_or last.new i 0 }
{
    let n = lasts.len();
    let mut to = lasts[i];
    let mut step = 1u8;
    while last[i] < to {
        let position = last[i] + reach(step, to - last[i]);
        match order_from::<PLACES, ENDS>(firsts, lasts, rows, i, position, wanted) {
            Some(order) => {
                note(&order[..n], &mut *first, &mut *last);
                step = doubled(step);
            }
            None => {
                to = position - 1;
                step = 1;
            }
        }
    }
}
