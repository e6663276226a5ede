//! Paths that are forgotten.

use crate::closing::{self, Made, close};
use crate::jobs::{begun, forgotten, record_of, workspace};
use crate::seen::line;
use rows_lines::{Trouble, push_case};
use smk_base::{List, OutOfMemory, PathText, Text, one};
use smk_job::Going;
use smk_record::Stamp;
use smk_store::StoreFault;
use smk_world::{Item, Kind};
use smk_world_mem::MemWork;
use std::alloc::{AllocError, Global};

// What forgetting came to.
fn answer(alloc: Global, answer: &Result<bool, StoreFault>) -> Result<String, AllocError> {
    match answer {
        Ok(true) => String::from_str(alloc, "forgotten"),
        Ok(false) => String::from_str(alloc, "nothing was known"),
        Err(StoreFault::StampSeen(path)) => format!(in alloc; "seen {}", path.as_str()),
        Err(StoreFault::Device) => String::from_str(alloc, "device"),
        Err(StoreFault::OutOfMemory) => String::from_str(alloc, "out of memory"),
    }
}

// Forgets the path, and says what that came to.
fn forget_it(alloc: Global, work: &mut MemWork, path: &PathText) -> Result<String, Trouble> {
    let forgotten = forgotten(alloc, work, path)?;
    Ok(answer(alloc, &forgotten)?)
}

// What is told where the path is forgotten.
fn told(alloc: Global, work: &mut MemWork, path: &str) -> Result<String, Trouble> {
    let path = PathText::read(alloc, path)?;
    let words = forget_it(alloc, work, &path)?;
    line(alloc, work, words.as_str(), &path)
}

// One item with the input.
fn inputs_of(alloc: Global, path: PathText) -> Result<List<Item>, OutOfMemory> {
    let item = Item {
        name: Text::of(alloc, "")?,
        paths: one(alloc, path)?,
    };
    one(alloc, item)
}

// Begins the job of `out`, whose input had this time as a source.
fn going(alloc: Global, work: &mut MemWork, input: &str, time: u64) -> Result<Going, Trouble> {
    let inputs = inputs_of(alloc, PathText::read(alloc, input)?)?;
    let stamps = one(alloc, Stamp::Time(time))?;
    let kept = record_of(
        alloc,
        PathText::read(alloc, "out")?,
        Kind::Plain,
        inputs,
        stamps,
    )?;
    begun(alloc, work, &kept)
}

// Makes `d/in` at the time 1, with its record.
fn make_input(alloc: Global, work: &mut MemWork) -> Result<(), Trouble> {
    let path = PathText::read(alloc, "d/in")?;
    let first = closing::going(alloc, work, &path, Kind::Plain, Made::File)?;
    let _ = close(alloc, work, first)?;
    Ok(())
}

// Writes it by hand.
fn place(
    alloc: Global,
    work: &mut MemWork,
    path: &str,
    bytes: &[u8],
    time: u64,
) -> Result<(), Trouble> {
    let path = PathText::read(alloc, path)?;
    Ok(work.place(&path, bytes, time)?)
}

// Removes it by hand.
fn take(alloc: Global, work: &mut MemWork, path: &str) -> Result<(), Trouble> {
    let path = PathText::read(alloc, path)?;
    work.take(&path);
    Ok(())
}

// Makes `out` from `d/in`, with its record.
fn make_output(alloc: Global, work: &mut MemWork) -> Result<(), Trouble> {
    let second = going(alloc, work, "d/in", 1)?;
    let placed = place(alloc, work, "out", b"2", 2);
    let _ = close(alloc, work, second)?;
    placed
}

// What is done before the path is forgotten.
#[derive(Clone, Copy)]
enum Before {
    Nothing,
    /// The job of `out` begins again.
    Begun,
    /// `d/in` is written by hand, at another time.
    Changed,
    /// `d/in` is removed by hand.
    Removed,
    /// `out` is forgotten.
    Forgotten,
}

// Begins the job of `out` again.
fn begin_again(alloc: Global, work: &mut MemWork) -> Result<(), Trouble> {
    let _ = going(alloc, work, "d/in", 1)?;
    Ok(())
}

// Forgets `out`.
fn forget_output(alloc: Global, work: &mut MemWork) -> Result<(), Trouble> {
    let path = PathText::read(alloc, "out")?;
    let _ = forget_it(alloc, work, &path)?;
    Ok(())
}

fn prepare(alloc: Global, work: &mut MemWork, before: Before) -> Result<(), Trouble> {
    match before {
        Before::Nothing => Ok(()),
        Before::Begun => begin_again(alloc, work),
        Before::Changed => place(alloc, work, "d/in", b"1", 3),
        Before::Removed => take(alloc, work, "d/in"),
        Before::Forgotten => forget_output(alloc, work),
    }
}

// What is told in this workspace.
fn row_in(
    alloc: Global,
    work: &mut MemWork,
    before: Before,
    path: &str,
) -> Result<String, Trouble> {
    make_input(alloc, work)?;
    make_output(alloc, work)?;
    prepare(alloc, work, before)?;
    told(alloc, work, path)
}

fn row(alloc: Global, before: Before, path: &str) -> Result<String, Trouble> {
    let mut work = workspace(alloc, List::new(alloc));
    row_in(alloc, &mut work, before, path)
}

/// Adds a line for each case.
pub fn push_rows(alloc: Global, text: &mut String) -> Result<(), AllocError> {
    for (name, before, path) in [
        ("forget an output", Before::Nothing, "out"),
        ("forget an input", Before::Nothing, "d/in"),
        ("forget a folder of inputs", Before::Nothing, "d"),
        ("forget the input of a job underway", Before::Begun, "d/in"),
        ("forget the output of a job underway", Before::Begun, "out"),
        ("forget an input that was changed", Before::Changed, "d/in"),
        (
            "forget the folder of one that was changed",
            Before::Changed,
            "d",
        ),
        ("forget an input that was removed", Before::Removed, "d/in"),
        ("forget an input of nothing", Before::Forgotten, "d/in"),
        ("forget an output again", Before::Forgotten, "out"),
    ] {
        push_case(text, name, &row(alloc, before, path))?;
    }
    Ok(())
}
