//! The parts of what is read.

use std::str;

/// Stands in front of each section.
pub const SECTION: u8 = 0x1c;

/// Stands in front of each file of a row.
pub const FILE: u8 = 0x1d;

/// Stands in front of each row.
pub const ROW: u8 = 0x1e;

/// The first line, and what follows it.
pub fn line_and_rest(part: &[u8]) -> (&str, &[u8]) {
    match part.iter().position(|b| *b == b'\n') {
        Some(end) => (
            str::from_utf8(&part[..end]).unwrap_or("?"),
            &part[end + 1..],
        ),
        None => (str::from_utf8(part).unwrap_or("?"), &[]),
    }
}
