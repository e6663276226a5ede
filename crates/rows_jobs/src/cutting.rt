//! Jobs whose end is cut off by a call that fails.

use crate::closing::{Made, close, going, told_of_finish};
use crate::jobs::workspace;
use rows_lines::{Trouble, push_case};
use smk_base::{List, PathText, one};
use smk_world::Kind;
use smk_world_mem::MemWork;
use std::alloc::{AllocError, Global};

// The calls of the device in this workspace as the job is begun, and after it is finished.
fn calls_in(alloc: Global, work: &mut MemWork) -> Result<(u64, u64), Trouble> {
    let path = PathText::read(alloc, "out")?;
    let going = going(alloc, work, &path, Kind::Plain, Made::File)?;
    let begun = work.calls();
    let _ = close(alloc, work, going)?;
    Ok((begun, work.calls()))
}

// The calls of the device as the job is begun, and after it is finished.
fn calls(alloc: Global) -> Result<(u64, u64), Trouble> {
    let mut work = workspace(alloc, List::new(alloc));
    calls_in(alloc, &mut work)
}

// What is told of a job where the call with this number fails.
fn told(alloc: Global, number: u64) -> Result<String, Trouble> {
    let failing = one(alloc, number)?;
    told_of_finish(alloc, failing, Kind::Plain, Made::File)
}

/// Adds a line for each call of the job's end.
pub fn push_rows(alloc: Global, text: &mut String) -> Result<(), AllocError> {
    let Ok((begun, done)) = calls(alloc) else {
        return text.push_str("no calls\n");
    };
    for number in begun..done {
        let name = format!(in alloc; "call {} of the end", number - begun + 1)?;
        push_case(text, name.as_str(), &told(alloc, number + 1))?;
    }
    Ok(())
}
