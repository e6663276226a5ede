//! Rows on how files are spelled: paths, lists, tokens, expressions, and whole files. Each row with a text that is wanted says `ok`, or what was
//! found in place of it.
//!
//! Files come from standard input. A section begins behind the byte 1C with a line that says of what it is: `parsed` or `printed`. A row begins
//! behind the byte 1E with a line that is its name, and what follows is a file.
#![tactic(auto)]

mod exprs;
mod lists;
mod parsed;
mod paths;
mod printed;
mod shown_syntax;
mod tokens;

use rows_lines::{ROW, SECTION, line_and_rest, push_title};
use std::alloc::{AllocError, Global};
use std::io::{self, Read};

/// The rows that need no files.
fn push_tables(alloc: Global, text: &mut String) -> Result<(), AllocError> {
    paths::push_rows(alloc, text)?;
    lists::push_rows(alloc, text)?;
    tokens::push_rows(alloc, text)?;
    exprs::push_rows(alloc, text)?;
    printed::push_rows(alloc, text)
}

/// Adds the row of a file.
fn push_file(alloc: Global, text: &mut String, title: &str, row: &[u8]) -> Result<(), AllocError> {
    let (name, source) = line_and_rest(row);
    writeln!(text, "== {name}")?;
    if title == "printed" {
        printed::push_file(alloc, text, source)
    } else {
        parsed::push_file(alloc, text, source)
    }
}

/// Adds the rows of a section.
fn push_section(alloc: Global, text: &mut String, section: &[u8]) -> Result<(), AllocError> {
    let (title, rows) = line_and_rest(section);
    push_title(text, title)?;
    for row in rows.split(|b| *b == ROW).skip(1) {
        push_file(alloc, text, title, row)?;
    }
    Ok(())
}

/// All rows.
fn rows(alloc: Global, input: &[u8]) -> Result<String, AllocError> {
    let mut text = String::new(alloc);
    push_tables(alloc, &mut text)?;
    for section in input.split(|b| *b == SECTION).skip(1) {
        push_section(alloc, &mut text, section)?;
    }
    Ok(text)
}

fn main(rt: HostRuntime) -> io::Result<()> {
    let alloc = rt.alloc();
    let mut input = Vec::new(alloc);
    rt.stdin().read_to_end(&mut input)?;
    match rows(alloc, &input) {
        Ok(text) => print!(rt; "{text}"),
        Err(_) => println!(rt; "out of memory"),
    }
}
