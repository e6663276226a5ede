//! Runs after one that has made the target.

use crate::runs::COPY;
use crate::trial::{Trial, call, call_by, set_up};
use rows_lines::{Trouble, push_case};
use std::alloc::{AllocError, Global};
use std::thread::Threads;

// How many of so many later calls end with status 0.
fn clean_calls<Rt: Threads + Sync>(
    rt: &Rt,
    alloc: Global,
    count: u32,
    trial: &mut Trial,
) -> Result<u32, Trouble> {
    let mut clean = 0u32;
    for _ in 0..count {
        if call(rt, alloc, "out.txt", trial)? == 0 {
            clean = clean.saturating_add(1);
        }
    }
    Ok(clean)
}

// What is told of a run and 99 later ones in this workspace.
fn told_in<Rt: Threads + Sync>(
    rt: &Rt,
    alloc: Global,
    trial: &mut Trial,
) -> Result<String, Trouble> {
    let first = call_by(rt, alloc, COPY, "out.txt", trial)?;
    let clean = clean_calls(rt, alloc, 99, trial)?;
    let starts = trial.work.starts();
    Ok(format!(in alloc; "status {first}, then {clean} times status 0, {starts} started")?)
}

// What is told of a run and 99 later ones.
fn told<Rt: Threads + Sync>(rt: &Rt, alloc: Global) -> Result<String, Trouble> {
    let mut trial = set_up(alloc, None, None)?;
    told_in(rt, alloc, &mut trial)
}

/// Adds the line.
pub fn push_rows<Rt: Threads + Sync>(
    rt: &Rt,
    alloc: Global,
    text: &mut String,
) -> Result<(), AllocError> {
    push_case(text, "a copy, and 99 calls after it", &told(rt, alloc))
}
