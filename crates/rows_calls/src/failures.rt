//! Runs of which a call of the device fails.

use crate::again::goes_on;
use crate::row::Row;
use crate::stops::{Calls, Count, counted};
use crate::workspace::{Trial, begin, call, empty, is_made, with_sinks};
use rows_lines::Trouble;
use smk_world_crash::Choice;
use std::alloc::Global;
use std::str;
use std::thread::Threads;

// Whether a line of what was put says that the target is current.
fn says_current(out: &str, target: &str) -> bool {
    for line in out.lines() {
        if let Some(path) = line.strip_prefix("current ") {
            if path == target {
                return true;
            }
        }
    }
    false
}

// Whether no target is called current, unless all are made.
fn is_honest(alloc: Global, row: &Row, trial: &Trial) -> Result<bool, Trouble> {
    let out = str::from_utf8(trial.out.bytes()).unwrap_or("?");
    for (path, _) in row.wanted {
        if says_current(out, path) {
            return is_made(alloc, &trial.work, row);
        }
    }
    Ok(true)
}

// Makes the run in this workspace; whether it says that the device failed, and goes on after a crash that leaves all.
fn is_told_in<Rt: Threads + Sync>(
    rt: &Rt,
    alloc: Global,
    row: &Row,
    trial: &mut Trial,
) -> Result<bool, Trouble> {
    begin(rt, alloc, row, trial)?;
    let status = call(rt, alloc, row.words, &[], trial)?;
    let told = status == 4 && trial.err.bytes() == b"smk: device failed\n".as_slice();
    if !told || !is_honest(alloc, row, trial)? {
        return Ok(false);
    }
    goes_on(rt, alloc, row, &trial.work, Choice::Reading)
}

// Lets the call with this number fail.
fn is_told<Rt: Threads + Sync>(
    rt: &Rt,
    alloc: Global,
    row: &Row,
    number: u64,
) -> Result<bool, Trouble> {
    let mut trial = with_sinks(alloc, empty(alloc, Some(number), None)?);
    is_told_in(rt, alloc, row, &mut trial)
}

/// Lets each of the calls fail, one in each run.
pub fn failed_everywhere<Rt: Threads + Sync>(
    rt: &Rt,
    alloc: Global,
    row: &Row,
    calls: Calls,
) -> Result<Count, Trouble> {
    let mut count = Count {
        tried: 0,
        wrong: 0,
        first: 0,
    };
    for number in calls.before.saturating_add(1)..=calls.all {
        count = counted(count, number, is_told(rt, alloc, row, number)?);
    }
    Ok(count)
}
