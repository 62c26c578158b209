// Two boards on one panel: the lines of the second put behind those of the first, and each board planned alone by the quick rule.
#![tactic(auto)]

mod alone_lines;
mod files;
mod merge_lines;

pub use alone_lines::alone;
pub use files::merge_files;
pub use merge_lines::merge;

// The pairs of placements on one tip in each of the two plans.
#[derive(Clone, Copy, Debug, PartialEq, Eq)]
pub struct AlonePairs {
    pub first: u32,
    pub second: u32,
}
