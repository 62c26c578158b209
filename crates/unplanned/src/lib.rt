// The lines without a tip yet, in a list: those that have a tip are found and taken off the list without a branch, which
// would often be mispredicted.
#![tactic(auto)]

ghost use Rattle.std.specs.Prelude.{◌≡◌, ◌^◌, ◌≤◌, length};
ghost use Rattle.unplanned.specs.Listed.{InOrder, Findable, Rising, Found, Dropped};

// A working copy of the sets, set by set: of `copy_from_slice` the compiler makes memmove in some callers, which the header does not name.
pub fn copy_sets(sets: &[u64], left: &mut [u64])
    requires { length left.old ≡ length sets.now }
    ensures { left.new ≡ sets.now }
{
    for (i, set) in left.iter_mut().enumerate() {
        *set = sets[i];
    }
}

// All lines, none of which has a tip yet.
pub fn list_all(list: &mut [u16])
    requires { length list.old ≤ 2 ^ 16 }
    ensures { InOrder (length list.old) list.new }
{
    for (i, line) in list.iter_mut().enumerate() {
        *line = i as u16;
    }
}

// The places of the list whose lines have the tip. Each place is written, and only those with the tip are counted.
pub fn find_places(tip: usize, list: &[u16], sets: &[u64], places: &mut [u16]) -> usize
    requires { Findable tip (length list.now) list.now sets.now places.old }
    ensures { Found tip (length list.now) list.now sets.now result places.new }
{
    let mut found = 0;
    for (k, &line) in list.iter().enumerate() {
        places[found] = k as u16;
        found += usize::from(tips::has_tip(sets[usize::from(line)], tip));
    }
    found
}

// Takes the places off the list, from the last on: the line at its end comes to each of them. Gives how many lines are left.
pub fn drop_places(places: &[u16], list: &mut [u16]) -> usize
    requires { Rising (length places.now) (length list.old) places.now }
    ensures { Dropped (length places.now) (length list.old) places.now list.old result list.new }
{
    let mut last = list.len();
    for &place in places.iter().rev() {
        last -= 1;
        list[usize::from(place)] = list[last];
    }
    last
}
