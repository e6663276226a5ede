//! Workflows that are loaded from files in memory.

use crate::shown_flow::workflow;
use rows_lines::{FILE, line_and_rest};
use smk_base::{List, OutOfMemory, Pair, PathText, Text};
use smk_eval::{LoadFault, load};
use smk_report::{Fault, fault_line};
use smk_world_mem::{MemWork, Setup};
use std::alloc::{AllocError, Global};

/// The texts that are set: `KEY=VALUE`, with blanks between them, behind a `|`.
fn sets_in(alloc: Global, line: &str) -> Result<List<Pair>, LoadFault> {
    let mut sets = List::new(alloc);
    if let Some((_, all)) = line.split_once('|') {
        for set in all.split(' ') {
            if let Some((name, value)) = set.split_once('=') {
                sets.push(Pair {
                    name: Text::of(alloc, name)?,
                    value: Text::of(alloc, value)?,
                })?;
            }
        }
    }
    Ok(sets)
}

/// The workspace with these files.
fn workspace(alloc: Global, files: &[u8]) -> Result<MemWork, LoadFault> {
    let mut work = MemWork::new(
        alloc,
        Setup {
            failing: List::new(alloc),
            stop_after: None,
            order: List::new(alloc),
            killed: List::new(alloc),
        },
    );
    for file in files.split(|b| *b == FILE).skip(1) {
        let (path, bytes) = line_and_rest(file);
        if let Ok(path) = PathText::read(alloc, path) {
            work.place(&path, bytes, 1)?;
        }
    }
    Ok(work)
}

/// The rules and the clauses of the workspace.
fn told(alloc: Global, line: &str, files: &[u8]) -> Result<String, LoadFault> {
    let mut work = workspace(alloc, files)?;
    let sets = sets_in(alloc, line)?;
    let Ok(file) = PathText::read(alloc, "Snakefile") else {
        return Err(LoadFault::OutOfMemory);
    };
    if !work.is_at_rest() {
        return Err(LoadFault::Device);
    }
    let flow = load(alloc, &mut work, &file, &sets)?;
    Ok(workflow(alloc, &flow)?)
}

// The line of this fault.
fn line_of(alloc: Global, fault: LoadFault) -> Result<Text, OutOfMemory> {
    fault_line(alloc, &Fault::from(fault))
}

// Adds the line, or that there is no memory for it.
fn push_line(text: &mut String, line: &Result<Text, OutOfMemory>) -> Result<(), AllocError> {
    match line {
        Ok(line) => writeln!(text, "{}", line.as_str()),
        Err(OutOfMemory) => text.push_str("out of memory\n\n"),
    }
}

/// Adds the rules and the clauses of the workspace with these files, or why there are none. The texts that are set stand in the line.
pub fn push_workspace(
    alloc: Global,
    text: &mut String,
    line: &str,
    files: &[u8],
) -> Result<(), AllocError> {
    match told(alloc, line, files) {
        Ok(told) => writeln!(text, "{}", told.as_str()),
        Err(fault) => push_line(text, &line_of(alloc, fault)),
    }
}
