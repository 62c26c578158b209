// The first and the last position of each part in the orders that were found.
ghost use Rattle.std.specs.Prelude.{◌≡◌, ℕ, ◌≤◌, length, replicate};
ghost use Rattle.flat_order.specs.Flat.{InPlace};
ghost use Rattle.windows.specs.Found.{Lowered, Raised};

// No order is found yet: each part comes first past the positions, and last at 0.
pub fn see_none(n: u8, first: &mut [u8], last: &mut [u8])
    ensures first { first.new ≡ replicate (length first.old) n }
    ensures last { last.new ≡ replicate (length last.old) 0 }
{
    first.fill(n);
    last.fill(0);
}

// The positions of an order.
pub fn note(order: &[u8], first: &mut [u8], last: &mut [u8])
    requires few { length order.now ≤ 128 }
    requires parts { InPlace (length order.now) order.now }
    requires first { length first.old ≡ length order.now }
    requires last { length last.old ≡ length order.now }
    ensures first { Lowered order.now (length order.now) first.old first.new }
    ensures last { Raised order.now (length order.now) last.old last.new }
{
    for p in 0..order.len() {
        let x = usize::from(order[p]);
        first[x] = first[x].min(p as u8);
        last[x] = last[x].max(p as u8);
    }
}
