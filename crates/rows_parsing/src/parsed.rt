//! The syntax of files, or their first fault.

use crate::shown_syntax::{lex_fault, parse_fault, syntax};
use smk_lex::lex;
use smk_parse::{Lines, parse};
use std::alloc::{AllocError, Global};

/// Adds the syntax of the source, or its first fault.
pub fn push_file(alloc: Global, text: &mut String, source: &[u8]) -> Result<(), AllocError> {
    let Ok(lines) = Lines::new(alloc, source) else {
        return Err(AllocError);
    };
    match lex(alloc, source) {
        Ok(tokens) => match parse(alloc, source, &tokens) {
            Ok(found) => syntax(text, &found)?,
            Err(fault) => parse_fault(text, source, &lines, fault)?,
        },
        Err(fault) => lex_fault(text, &lines, fault)?,
    }
    text.push_str("\n")
}
