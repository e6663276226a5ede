//! Rows on what files say of values: configurations, `expand`, expressions, and patterns with paths. Each row with a text that is wanted says
//! `ok`, or what was found in place of it.
//!
//! Each line of standard input is a pattern, a tab and a path, and what it binds is told.
#![tactic(auto)]

mod configs;
mod expansions;
mod patterns;
mod values;

use smk_base::OutOfMemory;
use std::alloc::{AllocError, Global};
use std::io::{self, Read};

/// The rows of tables.
fn push_tables(alloc: Global, text: &mut String) -> Result<(), AllocError> {
    configs::push_rows(alloc, text)?;
    expansions::push_rows(alloc, text)?;
    values::push_rows(alloc, text)?;
    patterns::push_rows(alloc, text)
}

/// All rows.
fn rows(alloc: Global, lines: &str) -> Result<String, OutOfMemory> {
    let mut text = String::new(alloc);
    push_tables(alloc, &mut text)?;
    patterns::push_lines(alloc, &mut text, lines)?;
    Ok(text)
}

fn main(rt: HostRuntime) -> io::Result<()> {
    let alloc = rt.alloc();
    let mut lines = String::new(alloc);
    rt.stdin().read_to_string(&mut lines)?;
    match rows(alloc, lines.as_str()) {
        Ok(text) => print!(rt; "{text}"),
        Err(OutOfMemory) => println!(rt; "out of memory"),
    }
}
