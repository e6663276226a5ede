//! A workspace in memory with the files of a row, and calls in it.

use crate::row::{Change, Row};
use rows_lines::Trouble;
use smk_base::{List, OutOfMemory, PathText, one};
use smk_cli::smk;
use smk_world_mem::{MemSink, MemWork, Setup};
use std::alloc::{AllocError, Global};
use std::thread::Threads;

/// A workspace, and the sinks of the calls in it.
#[derive(Drop)]
pub struct Trial {
    pub work: MemWork,
    pub out: MemSink,
    pub err: MemSink,
}

/// The workspace with two sinks that nothing has been put to.
pub fn with_sinks(alloc: Global, work: MemWork) -> Trial {
    Trial {
        work,
        out: MemSink::new(alloc, List::new(alloc)),
        err: MemSink::new(alloc, List::new(alloc)),
    }
}

// The number, where there is one.
fn numbers(alloc: Global, number: Option<u64>) -> Result<List<u64>, OutOfMemory> {
    match number {
        Some(number) => one(alloc, number),
        None => Ok(List::new(alloc)),
    }
}

/// An empty workspace whose call with the first number fails, and each call after the second number.
pub fn empty(
    alloc: Global,
    failing: Option<u64>,
    stop_after: Option<u64>,
) -> Result<MemWork, Trouble> {
    let failing = numbers(alloc, failing)?;
    Ok(MemWork::new(
        alloc,
        Setup {
            failing,
            stop_after,
            order: List::new(alloc),
            killed: List::new(alloc),
        },
    ))
}

// Writes the file by hand.
fn place(
    alloc: Global,
    work: &mut MemWork,
    path: &str,
    text: &str,
    time: u64,
) -> Result<(), Trouble> {
    let path = PathText::read(alloc, path)?;
    Ok(work.place(&path, text.as_bytes(), time)?)
}

// Writes the workflow file and the sources by hand.
fn fill(alloc: Global, work: &mut MemWork, row: &Row) -> Result<(), Trouble> {
    place(alloc, work, "Snakefile", row.workflow, 1)?;
    for (path, text) in row.files {
        place(alloc, work, path, text, 1)?;
    }
    Ok(())
}

// Makes the change by hand.
fn change(alloc: Global, work: &mut MemWork, row: &Row) -> Result<(), Trouble> {
    match row.change {
        Change::Nothing => Ok(()),
        Change::Workflow(text) => place(alloc, work, "Snakefile", text, 1000000),
        Change::File(path, text) => place(alloc, work, path, text, 1000000),
    }
}

// Adds the words.
fn push_words(alloc: Global, words: &mut Vec<String>, more: &[&str]) -> Result<(), AllocError> {
    for word in more {
        words.push(String::from_str(alloc, word)?)?;
    }
    Ok(())
}

// Calls with the words, unless a child runs; the status.
fn call_with<Rt: Threads + Sync>(
    rt: &Rt,
    alloc: Global,
    words: &[String],
    trial: &mut Trial,
) -> Result<u8, Trouble> {
    if trial.work.is_at_rest() {
        let outcome = smk(
            rt,
            alloc,
            words,
            &mut trial.work,
            &mut trial.out,
            &mut trial.err,
        );
        Ok(outcome.status)
    } else {
        Err(Trouble::Running)
    }
}

/// Calls with the words and with more words; the status.
pub fn call<Rt: Threads + Sync>(
    rt: &Rt,
    alloc: Global,
    words: &[&str],
    more: &[&str],
    trial: &mut Trial,
) -> Result<u8, Trouble> {
    let mut all = Vec::new(alloc);
    push_words(alloc, &mut all, words)?;
    push_words(alloc, &mut all, more)?;
    call_with(rt, alloc, all.as_slice(), trial)
}

/// Writes the files of the row; where something is changed later, makes a run and changes it. How many calls there have been. Nothing has been put to the sinks then.
pub fn begin<Rt: Threads + Sync>(
    rt: &Rt,
    alloc: Global,
    row: &Row,
    trial: &mut Trial,
) -> Result<u64, Trouble> {
    fill(alloc, &mut trial.work, row)?;
    if let Change::Nothing = row.change {
        return Ok(0);
    }
    call(rt, alloc, row.words, &[], trial)?;
    change(alloc, &mut trial.work, row)?;
    trial.out = MemSink::new(alloc, List::new(alloc));
    trial.err = MemSink::new(alloc, List::new(alloc));
    Ok(trial.work.calls())
}

// Whether the file holds the text.
fn holds(alloc: Global, work: &MemWork, path: &str, text: &str) -> Result<bool, Trouble> {
    let path = PathText::read(alloc, path)?;
    Ok(match work.bytes_at(&path) {
        Some(bytes) => bytes == text.as_bytes(),
        None => false,
    })
}

/// Whether each target holds what it is to hold in the end.
pub fn is_made(alloc: Global, work: &MemWork, row: &Row) -> Result<bool, Trouble> {
    for (path, text) in row.wanted {
        if !holds(alloc, work, path, text)? {
            return Ok(false);
        }
    }
    Ok(true)
}
