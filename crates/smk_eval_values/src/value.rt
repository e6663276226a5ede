//! Values.

use smk_base::{List, Text};

/// What an expression stands for.
#[derive(Drop)]
pub enum Value {
    Word(Text),
    Number(u64),
    Truth(bool),
    /// A list of texts.
    Many(List<Text>),
    /// A text or a list with flags.
    Flagged(Flagged),
    /// What a checkpoint's directory is asked for.
    Gathered(Gathered),
}

/// Texts with flags.
#[derive(Drop)]
pub struct Flagged {
    /// The words of the flags, the outermost first; one at least.
    pub flags: List<Text>,
    /// Whether a list was flagged, and not one text.
    pub many: bool,
    pub texts: List<Text>,
}

/// A checkpoint's name, what is listed in its directory, and what is wanted for each path of the listing.
#[derive(Drop)]
pub struct Gathered {
    pub checkpoint: Text,
    pub listed: Text,
    pub wanted: Text,
}
