//! Which of the images that a crash may leave is meant.

/// Which of the images that a crash may leave is meant. Each place is looked at by itself.
#[derive(Clone, Copy, PartialEq, Eq)]
pub enum Choice {
    /// The least: nothing stands where nothing may be left, so that only what is firm stays.
    Least,
    /// What reads now. What running children own isn't there.
    Reading,
    /// A mixture: each file that may hold anything holds other bytes, those too that running children are to write, and what went is back.
    Mixed,
}
