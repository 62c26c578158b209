// What the test programs share: small jobs with their plans, the boards of such jobs, and buffers filled with junk.
#![tactic(auto)]

mod boards;
mod jobs;
mod junk;

pub use boards::{board_by_hand, board_of, changes};
pub use jobs::{Line, off, placements, set_of, uses, words};
pub use junk::{FILE_ROOM, JUNK, JUNK_PLACE, PLAN_ROOM, TABLE_ROOM, changed};
