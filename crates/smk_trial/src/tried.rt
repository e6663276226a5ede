//! What a trial gives.

use smk_world_mem::MemWork;

/// A workflow that was made three times, and what was counted.
#[derive(Drop)]
pub struct Trial {
    /// The workspace at the end.
    pub work: MemWork,
    /// How many jobs the first run started.
    pub first: u64,
    /// How many the second, before which nothing was changed.
    pub second: u64,
    /// How many the third, before which one source was edited.
    pub third: u64,
    /// How many bytes `total.txt` has at the end.
    pub total: u64,
}
