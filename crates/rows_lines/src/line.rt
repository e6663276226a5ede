//! Lines.

use crate::trouble::{Trouble, word};
use std::alloc::AllocError;

/// Adds the line that says of what the rows below are.
pub fn push_title(text: &mut String, title: &str) -> Result<(), AllocError> {
    writeln!(text, "\n==== {title}")
}

/// Adds the line of the case with this name: what it tells.
pub fn push_case(
    text: &mut String,
    name: &str,
    told: &Result<String, Trouble>,
) -> Result<(), AllocError> {
    match told {
        Ok(line) => writeln!(text, "{name}: {line}"),
        Err(trouble) => writeln!(text, "{name}: {}", word(*trouble)),
    }
}

/// Adds the line of the row with this name: `ok` where what was found is what is wanted, and else the two.
pub fn push_row(
    text: &mut String,
    name: &str,
    found: &Result<String, Trouble>,
    wanted: &str,
) -> Result<(), AllocError> {
    match found {
        Ok(found) => push_line(text, name, found.as_str(), wanted),
        Err(trouble) => push_line(text, name, word(*trouble), wanted),
    }
}

/// The same of a text that is at hand.
pub fn push_line(
    text: &mut String,
    name: &str,
    found: &str,
    wanted: &str,
) -> Result<(), AllocError> {
    if found == wanted {
        writeln!(text, "{name:?} gives {found:?}: ok")
    } else {
        writeln!(text, "{name:?} gives {found:?} in place of {wanted:?}")
    }
}
