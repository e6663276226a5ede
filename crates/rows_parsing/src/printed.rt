//! Texts and files that are printed from what was read.

use rows_lines::{Trouble, push_row, push_title};
use smk_base::Bytes;
use smk_lex::lex;
use smk_parse::parse;
use smk_parse_print::{print, spell_text};
use std::alloc::{AllocError, Global};
use std::str;

/// The spelling of the text.
fn spelled(alloc: Global, text: &str) -> Result<String, Trouble> {
    let bytes = spell_text(alloc, text)?;
    let spelling = str::from_utf8(bytes.as_slice()).unwrap_or("?");
    Ok(String::from_str(alloc, spelling)?)
}

/// Adds the rows on texts that are spelled.
pub fn push_rows(alloc: Global, text: &mut String) -> Result<(), AllocError> {
    push_title(text, "spellings of texts")?;
    let table = [
        ("", "\"\""),
        ("say \"hi\", {x}", "\"say \\\"hi\\\", {x}\""),
        ("a\\b\nc\r\t", "\"a\\\\b\\nc\\r\t\""),
        ("größe", "\"größe\""),
    ];
    for (word, wanted) in table {
        push_row(text, word, &spelled(alloc, word), wanted)?;
    }
    Ok(())
}

/// What is printed of the syntax of a source, if it has one.
fn printed(alloc: Global, source: &[u8]) -> Result<Option<Bytes>, AllocError> {
    let Ok(tokens) = lex(alloc, source) else {
        return Ok(None);
    };
    let Ok(syntax) = parse(alloc, source, &tokens) else {
        return Ok(None);
    };
    match print(alloc, &syntax) {
        Ok(bytes) => Ok(Some(bytes)),
        Err(_) => Err(AllocError),
    }
}

/// Whether what is printed of these bytes is these bytes.
fn is_printed(alloc: Global, bytes: &[u8]) -> Result<bool, AllocError> {
    match printed(alloc, bytes)? {
        Some(again) => Ok(again.as_slice() == bytes),
        None => Ok(false),
    }
}

/// Adds what is printed of the source, and whether that prints the same again.
pub fn push_file(alloc: Global, text: &mut String, source: &[u8]) -> Result<(), AllocError> {
    match printed(alloc, source)? {
        Some(bytes) => {
            text.push_str(str::from_utf8(bytes.as_slice()).unwrap_or("?"))?;
            text.push_str(if is_printed(alloc, bytes.as_slice())? {
                "-- the same again\n"
            } else {
                "-- another text\n"
            })
        }
        None => text.push_str("-- no syntax\n"),
    }
}
