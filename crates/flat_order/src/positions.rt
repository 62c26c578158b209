// The parts by their positions, as sets.
ghost use Rattle.std.specs.Prelude.{◌≡◌, ℕ, ◌+◌, ◌*◌, ◌^◌, ◌≤◌, ◌<◌, ltb, length};
ghost use Rattle.flat_order.specs.Sets.{has_part};
ghost use Rattle.flat_order.specs.Flat.{PartsAt, InPlace};

use crate::sets::PartSet;

// The set of the first n parts.
pub fn first_parts(n: usize) -> PartSet
    requires { n ≤ 128 }
    ensures { (x : ℕ) → has_part result x ≡ ltb x n }
{
    let mut all = PartSet::EMPTY;
    for i in 0..n {
        all = all | PartSet::single(i);
    }
    all
}

// The parts, each at the place after its position. There is a place for each position, and one before and one after them.
pub fn by_position<const ENDS: usize>(positions: &[u8]) -> [PartSet; ENDS]
    requires few { length positions.now ≤ 128 }
    requires room { length positions.now + 2 ≤ ENDS }
    requires small { ENDS * 16 < 2 ^ 63 }
    requires within { InPlace (length positions.now) positions.now }
    ensures size { length result ≡ ENDS }
    ensures places { PartsAt positions.now (length positions.now) result }
{
    let mut sets = [PartSet::EMPTY; ENDS];
    for (i, &position) in positions.iter().enumerate() {
        let at = usize::from(position) + 1;
        sets[at] = sets[at] | PartSet::single(i);
    }
    sets
}
