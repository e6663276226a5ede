//! Runs that are stopped after each call of the device.

use crate::again::goes_on;
use crate::row::Row;
use crate::workspace::{Trial, begin, call, empty, is_made, with_sinks};
use rows_lines::Trouble;
use smk_world_crash::Choice;
use std::alloc::Global;
use std::thread::Threads;

/// What was tried, and how it ended.
#[derive(Clone, Copy)]
pub struct Count {
    pub tried: u64,
    pub wrong: u64,
    /// The number of the first call after which something went wrong, or 0.
    pub first: u64,
}

/// The calls of a run: those before it, and all at its end.
#[derive(Clone, Copy)]
pub struct Calls {
    pub before: u64,
    pub all: u64,
}

/// One more try, after the call with this number.
pub fn counted(count: Count, number: u64, good: bool) -> Count {
    if good {
        return Count {
            tried: count.tried.saturating_add(1),
            ..count
        };
    }
    Count {
        tried: count.tried.saturating_add(1),
        wrong: count.wrong.saturating_add(1),
        first: if count.first == 0 {
            number
        } else {
            count.first
        },
    }
}

// The calls of the run in this workspace, where nothing fails; none where it doesn't make the targets.
fn calls_in<Rt: Threads + Sync>(
    rt: &Rt,
    alloc: Global,
    row: &Row,
    trial: &mut Trial,
) -> Result<Option<Calls>, Trouble> {
    let before = begin(rt, alloc, row, trial)?;
    let status = call(rt, alloc, row.words, &[], trial)?;
    let all = trial.work.calls();
    if status == 0 && is_made(alloc, &trial.work, row)? {
        Ok(Some(Calls { before, all }))
    } else {
        Ok(None)
    }
}

/// The calls of the run, where nothing fails; none where it doesn't make the targets.
pub fn calls_of<Rt: Threads + Sync>(
    rt: &Rt,
    alloc: Global,
    row: &Row,
) -> Result<Option<Calls>, Trouble> {
    let mut trial = with_sinks(alloc, empty(alloc, None, None)?);
    calls_in(rt, alloc, row, &mut trial)
}

// Makes the run in this workspace, and lets each of the crashes follow.
fn stopped_in<Rt: Threads + Sync>(
    rt: &Rt,
    alloc: Global,
    row: &Row,
    number: u64,
    count: Count,
    trial: &mut Trial,
) -> Result<Count, Trouble> {
    begin(rt, alloc, row, trial)?;
    call(rt, alloc, row.words, &[], trial)?;
    let mut count = count;
    for choice in [Choice::Least, Choice::Reading, Choice::Mixed] {
        count = counted(count, number, goes_on(rt, alloc, row, &trial.work, choice)?);
    }
    Ok(count)
}

// Stops the run after the call with this number, and lets each of the crashes follow.
fn stopped<Rt: Threads + Sync>(
    rt: &Rt,
    alloc: Global,
    row: &Row,
    number: u64,
    count: Count,
) -> Result<Count, Trouble> {
    let mut trial = with_sinks(alloc, empty(alloc, None, Some(number))?);
    stopped_in(rt, alloc, row, number, count, &mut trial)
}

/// Stops the run after each of its calls, and lets each of the crashes follow.
pub fn stopped_everywhere<Rt: Threads + Sync>(
    rt: &Rt,
    alloc: Global,
    row: &Row,
    calls: Calls,
) -> Result<Count, Trouble> {
    let mut count = Count {
        tried: 0,
        wrong: 0,
        first: 0,
    };
    for number in calls.before..=calls.all {
        count = stopped(rt, alloc, row, number, count)?;
    }
    Ok(count)
}
