//! Rows on the words of the command line. Each line of standard input is one, its words apart by one space; what is read of it is told behind
//! it, and behind that what a command of `clap` with the same options reads of it, where that is another thing. A line of `-` alone stands for
//! no words at all, and a line that begins with `#` is a title.
#![tactic(auto)]

mod by_clap;
mod shown;
mod shown_clap;

use by_clap::matches_of;
use shown::push_read;
use shown_clap::push_matches;
use smk_words_reading::read_words;
use std::alloc::{AllocError, Global};
use std::io::{self, Read};

/// The words of the line.
fn words_of(alloc: Global, line: &str) -> Result<Vec<String>, AllocError> {
    let mut words = Vec::new(alloc);
    if line == "-" {
        return Ok(words);
    }
    for word in line.split(' ') {
        words.push(String::from_str(alloc, word)?)?;
    }
    Ok(words)
}

/// What is read of the words.
fn told(alloc: Global, words: &[String]) -> Result<String, AllocError> {
    let mut text = String::new(alloc);
    push_read(&mut text, &read_words(alloc, words))?;
    Ok(text)
}

/// What `clap` reads of them.
fn told_by_clap(alloc: Global, words: &[String]) -> Result<String, AllocError> {
    let mut text = String::new(alloc);
    push_matches(&mut text, &matches_of(alloc, words))?;
    Ok(text)
}

/// Adds what is read of the words, and what `clap` reads where that is another thing.
fn push_both(alloc: Global, text: &mut String, words: &[String]) -> Result<(), AllocError> {
    let read = told(alloc, words)?;
    let other = told_by_clap(alloc, words)?;
    if read.as_str() == other.as_str() {
        writeln!(text, "{read}")
    } else {
        writeln!(text, "{read}; clap: {other}")
    }
}

/// Adds the row of the line.
fn push_row(alloc: Global, text: &mut String, line: &str) -> Result<(), AllocError> {
    if line.starts_with('#') {
        return writeln!(text, "{line}");
    }
    let words = words_of(alloc, line)?;
    write!(text, "{line} => ")?;
    push_both(alloc, text, words.as_slice())
}

/// All rows.
fn rows(alloc: Global, input: &str) -> Result<String, AllocError> {
    let mut text = String::new(alloc);
    for line in input.lines() {
        push_row(alloc, &mut text, line)?;
    }
    Ok(text)
}

fn main(rt: HostRuntime) -> io::Result<()> {
    let alloc = rt.alloc();
    let mut input = String::new(alloc);
    rt.stdin().read_to_string(&mut input)?;
    match rows(alloc, input.as_str()) {
        Ok(text) => print!(rt; "{text}"),
        Err(_) => println!(rt; "out of memory"),
    }
}
