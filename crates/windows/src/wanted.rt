// The parts that an order is to have early, so that one part is early or late in it. They are for speed alone, and no answer depends on them.
ghost use Rattle.std.specs.Prelude.{◌≤◌, ◌<◌, length};
ghost use Rattle.flat_order.specs.Flat.{InPlace};

use flat_order::sets::PartSet;

// Part i and those that are to precede it, by an order that obeys.
pub fn ahead_of(i: usize, order: &[u8], rows: &[PartSet]) -> PartSet
    requires few { length order.now ≤ 128 }
    requires rows { length order.now ≤ length rows.now }
    requires part { i < length order.now }
    requires parts { InPlace (length order.now) order.now }
{
    let mut ahead = PartSet::single(i);
    for back in 0..order.len() {
        let x = usize::from(order[order.len() - 1 - back]);
        if ahead.has(x) {
            ahead = ahead | rows[x];
        }
    }
    ahead
}

// The parts that are neither part i nor to be placed after it.
pub fn beside(i: usize, order: &[u8], rows: &[PartSet]) -> PartSet
    requires few { length order.now ≤ 128 }
    requires rows { length order.now ≤ length rows.now }
    requires part { i < length order.now }
    requires parts { InPlace (length order.now) order.now }
{
    let mut behind = PartSet::single(i);
    let mut others = PartSet::EMPTY;
    for p in 0..order.len() {
        let x = usize::from(order[p]);
        let one = PartSet::single(x);
        if rows[x] & behind == PartSet::EMPTY {
            others = others | one;
        } else {
            behind = behind | one;
        }
    }
    others - behind
}
