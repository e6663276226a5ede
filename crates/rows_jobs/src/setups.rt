//! Calls of the devices in memory that fail as they are set up.

use rows_lines::{Trouble, push_case};
use smk_base::{List, PathText, Place, one};
use smk_world::{Failed, Files, Sink};
use smk_world_mem::{MemSink, MemWork, Setup};
use std::alloc::{AllocError, Global};
use std::str;

// The workspace whose second call fails, and each call after the third.
fn workspace(alloc: Global) -> Result<MemWork, Trouble> {
    let failing = one(alloc, 2)?;
    Ok(MemWork::new(
        alloc,
        Setup {
            failing,
            stop_after: Some(3),
            order: List::new(alloc),
            killed: List::new(alloc),
        },
    ))
}

// Adds how the call went.
fn push_answer<T: Drop>(text: &mut String, answer: &Result<T, Failed>) -> Result<(), AllocError> {
    match answer {
        Ok(_) => text.push_str("goes"),
        Err(_) => text.push_str("fails"),
    }
}

// Adds how a look at the place goes, and how many have failed.
fn push_look(text: &mut String, work: &mut MemWork, place: &Place) -> Result<(), AllocError> {
    text.push_str(" ")?;
    push_answer(text, &work.stat(place))?;
    let faults = Files::faults(work);
    write!(text, " ({faults} failed)")
}

// How five looks at a place go.
fn looks(alloc: Global, work: &mut MemWork) -> Result<String, Trouble> {
    let place = Place::user(alloc, &PathText::read(alloc, "a")?)?;
    let mut text = String::from_str(alloc, "five looks:")?;
    for _ in 0..5 {
        push_look(&mut text, work, &place)?;
    }
    Ok(text)
}

// What is told of the workspace.
fn told_of_work(alloc: Global) -> Result<String, Trouble> {
    let mut work = workspace(alloc)?;
    looks(alloc, &mut work)
}

// How the sink takes three words and a flush.
fn puts(alloc: Global, sink: &mut MemSink) -> Result<String, AllocError> {
    let mut text = String::new(alloc);
    for word in ["one", "two", "three"] {
        push_answer(&mut text, &sink.put(word.as_bytes()))?;
        text.push_str(" ")?;
    }
    push_answer(&mut text, &sink.flush())?;
    Ok(text)
}

// What is told of the sink whose second call fails.
fn told_of_sink(alloc: Global) -> Result<String, Trouble> {
    let mut sink = MemSink::new(alloc, one(alloc, 2)?);
    let text = puts(alloc, &mut sink)?;
    let bytes = str::from_utf8(sink.bytes()).unwrap_or("?");
    let faults = Sink::faults(&sink);
    Ok(format!(in alloc; "{text}: {bytes} ({faults} failed)")?)
}

/// Adds a line for each case.
pub fn push_rows(alloc: Global, text: &mut String) -> Result<(), AllocError> {
    push_case(
        text,
        "a workspace whose call 2 fails, and all after call 3",
        &told_of_work(alloc),
    )?;
    push_case(text, "a sink whose call 2 fails", &told_of_sink(alloc))
}
