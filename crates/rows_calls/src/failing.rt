//! Runs in which a call of the device or of the sink fails.

use crate::left::{Left, what_is_left, words_of};
use crate::runs::{COPY, HALF, answer};
use crate::trial::{Trial, call_by, set_up};
use rows_lines::{Trouble, push_case};
use std::alloc::{AllocError, Global};
use std::thread::Threads;

// How many calls the device has in a run by the workflow, in this workspace.
fn calls_in<Rt: Threads + Sync>(
    rt: &Rt,
    alloc: Global,
    workflow: &str,
    trial: &mut Trial,
) -> Result<u64, Trouble> {
    let _ = call_by(rt, alloc, workflow, "out.txt", trial)?;
    Ok(trial.work.calls())
}

// How many calls the device has in a run by the workflow.
fn calls<Rt: Threads + Sync>(rt: &Rt, alloc: Global, workflow: &str) -> Result<u64, Trouble> {
    let mut trial = set_up(alloc, None, None)?;
    calls_in(rt, alloc, workflow, &mut trial)
}

// Whether the run tells that the device failed, and tears nothing, in this workspace.
fn is_told_in<Rt: Threads + Sync>(
    rt: &Rt,
    alloc: Global,
    workflow: &str,
    trial: &mut Trial,
) -> Result<bool, Trouble> {
    let status = call_by(rt, alloc, workflow, "out.txt", trial)?;
    let told = status == 4 && trial.err.bytes() == b"smk: device failed\n".as_slice();
    let left = what_is_left(alloc, &mut trial.work)?;
    Ok(told && left != Left::Torn)
}

// Whether the run in which the call with this number fails tells so, and tears nothing.
fn is_told<Rt: Threads + Sync>(
    rt: &Rt,
    alloc: Global,
    workflow: &str,
    number: u64,
) -> Result<bool, Trouble> {
    let mut trial = set_up(alloc, Some(number), None)?;
    is_told_in(rt, alloc, workflow, &mut trial)
}

// The first of so many calls of which the run doesn't tell that it failed, or after which something is torn.
fn first_untold<Rt: Threads + Sync>(
    rt: &Rt,
    alloc: Global,
    workflow: &str,
    calls: u64,
) -> Result<Option<u64>, Trouble> {
    for number in 1..=calls {
        if !is_told(rt, alloc, workflow, number)? {
            return Ok(Some(number));
        }
    }
    Ok(None)
}

// What is told of the runs by the workflow in which so many calls fail, each in one run.
fn told_of_calls<Rt: Threads + Sync>(
    rt: &Rt,
    alloc: Global,
    workflow: &str,
    calls: u64,
) -> Result<String, Trouble> {
    match first_untold(rt, alloc, workflow, calls)? {
        Some(number) => Ok(format!(in alloc; "call {number} is not told, or tears something")?),
        None => Ok(String::from_str(alloc, "each is told, and nothing is torn")?),
    }
}

// What is told of the runs by the workflow in which one call fails, but for so many last ones.
fn told<Rt: Threads + Sync>(
    rt: &Rt,
    alloc: Global,
    workflow: &str,
    spared: u64,
) -> Result<String, Trouble> {
    let calls = calls(rt, alloc, workflow)?.saturating_sub(spared);
    if calls == 0 {
        return Ok(String::from_str(alloc, "no call")?);
    }
    told_of_calls(rt, alloc, workflow, calls)
}

// How the run ends in this workspace.
fn end_in<Rt: Threads + Sync>(
    rt: &Rt,
    alloc: Global,
    trial: &mut Trial,
) -> Result<String, Trouble> {
    let status = call_by(rt, alloc, COPY, "out.txt", trial)?;
    let left = what_is_left(alloc, &mut trial.work)?;
    Ok(answer(alloc, status, words_of(left), trial.err.bytes())?)
}

// How the run ends where the call of its sink with this number fails.
fn end_without_sink<Rt: Threads + Sync>(
    rt: &Rt,
    alloc: Global,
    number: u64,
) -> Result<String, Trouble> {
    let mut trial = set_up(alloc, None, Some(number))?;
    end_in(rt, alloc, &mut trial)
}

/// Adds the lines of each case.
pub fn push_rows<Rt: Threads + Sync>(
    rt: &Rt,
    alloc: Global,
    text: &mut String,
) -> Result<(), AllocError> {
    // The fault of a job comes before that of the two calls that release the lock.
    for (name, workflow, spared) in [
        ("a copy of which a call fails", COPY, 0),
        (
            "a command that fails, of which a call fails before the lock goes",
            HALF,
            2,
        ),
    ] {
        push_case(text, name, &told(rt, alloc, workflow, spared))?;
    }
    for number in 1..4u64 {
        let name = format!(in alloc; "a copy whose output fails at call {number}")?;
        push_case(text, name.as_str(), &end_without_sink(rt, alloc, number))?;
    }
    Ok(())
}
