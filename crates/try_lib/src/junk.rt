// Buffers filled with junk, and how much of one a call has written.

// No tip, and no byte of the job files that are written here.
pub const JUNK: u8 = 170;

// More than any number of pairs.
pub const JUNK_PLACE: u32 = 2863311530;

// Eight bytes more than a plan of 512 lines.
pub const PLAN_ROOM: usize = 520;

// Four places more than the table of a rack of 64 tips.
pub const TABLE_ROOM: usize = 4100;

// Eight bytes more than the job file of 512 lines with quantities.
pub const FILE_ROOM: usize = 4624;

// How many of the values are no longer the one that the buffer was filled with.
pub fn changed<T: PartialEq>(values: &[T], junk: &T) -> usize {
    values.iter().filter(|value| *value != junk).count()
}
