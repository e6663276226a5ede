//! Rows on workflows: rules that are checked, a command that is filled, and workspaces that are loaded. Each row with a text that is wanted says
//! `ok`, or what was found in place of it.
//!
//! Workspaces come from standard input. A section begins behind the byte 1C with a line that says of what it is. A row begins behind the byte
//! 1E with a line that is its name, and each file of a workspace begins behind the byte 1D with a line that is its path; the texts that are
//! set stand behind a `|` in the row's name.
#![tactic(auto)]

mod commands;
mod flows;
mod loaded;
mod shown_flow;

use rows_lines::{ROW, SECTION, line_and_rest, push_title};
use std::alloc::{AllocError, Global};
use std::io::{self, Read};

/// The rows that need no files.
fn push_tables(alloc: Global, text: &mut String) -> Result<(), AllocError> {
    flows::push_rows(alloc, text)?;
    commands::push_rows(alloc, text)
}

/// Adds the rows of a section of workspaces.
fn push_section(alloc: Global, text: &mut String, section: &[u8]) -> Result<(), AllocError> {
    let (title, rows) = line_and_rest(section);
    push_title(text, title)?;
    for row in rows.split(|b| *b == ROW).skip(1) {
        let (name, rest) = line_and_rest(row);
        writeln!(text, "== {name}")?;
        loaded::push_workspace(alloc, text, name, rest)?;
    }
    Ok(())
}

/// All rows.
fn rows(alloc: Global, input: &[u8]) -> Result<String, AllocError> {
    let mut text = String::new(alloc);
    push_tables(alloc, &mut text)?;
    for section in input.split(|b| *b == SECTION).skip(1) {
        push_section(alloc, &mut text, section)?;
    }
    Ok(text)
}

fn main(rt: HostRuntime) -> io::Result<()> {
    let alloc = rt.alloc();
    let mut input = Vec::new(alloc);
    rt.stdin().read_to_end(&mut input)?;
    match rows(alloc, &input) {
        Ok(text) => print!(rt; "{text}"),
        Err(_) => println!(rt; "out of memory"),
    }
}
