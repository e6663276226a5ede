//! Files as they were read, and their statements.

use smk_base::PathText;
use smk_parse_tree::{Statement, Syntax};

/// A file that was read.
#[derive(Drop)]
pub struct ReadFile {
    pub file: PathText,
    pub syntax: Syntax,
}

/// A statement, with the file in which it stands.
#[derive(Clone, Copy)]
pub struct Placed<'f> {
    pub file: &'f PathText,
    pub statement: &'f Statement,
}
