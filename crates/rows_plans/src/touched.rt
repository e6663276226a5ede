//! What is told of a job whose source isn't as it was when its record was written.

ghost use Rattle.std.specs.Prelude.{IsOk};
ghost use Rattle.smk_world_mem.specs.Work.{IsAtRest, world_in};

use crate::flow::{jobs_of, path_of, workspace};
use crate::{RowFault, looked, made};
use smk_base::Place;
use smk_plan_live::LivePlan;
use smk_trigger::{Reason, State};
use smk_world::Files;
use smk_world_mem::MemWork;
use std::alloc::{AllocError, Global};
use std::thread::Threads;

// The record of `m/1.txt`, made of `s/1.txt` at the time 1000, in format 1.
const BY_TIME: &str =
    "SMK1\n7:m/1.txt\n1\n5:first\n0\n0\n1\n0:\n1\n7:s/1.txt\nT1000\n1\n0:\n1\nF7:m/1.txt\n0\n";

// The same in format 2, with the SHA-256 of `x\n`.
const BY_SUM: &str =
    "SMK2\n7:m/1.txt\n1\n5:first\n0\n0\n1\n0:\n1\n7:s/1.txt\nS1000\n73cb3858a687a8494ca3323053016282f3dad39d42cf62ca4e79dda2aac7d9ac\n1\n0:\n1\nF7:m/1.txt\n0\n";

// Tells that nothing runs, or that something does.
fn rest(work: &MemWork) -> Result<(), RowFault>
    ensures rest { IsOk result → IsAtRest (world_in work.now) }
{
    if work.is_at_rest() {
        Ok(())
    } else {
        Err(RowFault::Running)
    }
}

// Writes the file.
fn put(work: &mut MemWork, place: &Place, bytes: &[u8]) -> Result<(), RowFault> {
    rest(work)?;
    work.write(place, bytes)?;
    Ok(())
}

/// Writes the record of the output.
pub(crate) fn put_record(
    alloc: Global,
    work: &mut MemWork,
    output: &str,
    record: &str,
) -> Result<(), RowFault> {
    let place = Place::record_of(alloc, &path_of(alloc, output)?)?;
    work.make_parents(&place)?;
    put(work, &place, record.as_bytes())
}

// The first job's output stands with this record, and its source has these bytes and this time.
fn prepare(
    alloc: Global,
    work: &mut MemWork,
    record: &str,
    bytes: &str,
    time: u64,
) -> Result<(), RowFault> {
    work.place(&path_of(alloc, "s/1.txt")?, bytes.as_bytes(), time)?;
    work.place(&path_of(alloc, "m/1.txt")?, b"1", 1)?;
    put_record(alloc, work, "m/1.txt", record)
}

// The kept plan of the first job and the one that reads what it makes.
fn planned<Rt: Threads + Sync>(
    rt: &Rt,
    alloc: Global,
    work: &mut MemWork,
) -> Result<LivePlan, RowFault> {
    let jobs = jobs_of(alloc, 1, false)?;
    let (store, seen) = looked(rt, alloc, work, &jobs)?;
    made(rt, alloc, jobs, store, seen)
}

// The reasons in words.
fn reasons_in_words(reasons: &[Reason]) -> &'static str {
    match reasons {
        [Reason::Updated(_)] => "updated",
        _ => "other reasons",
    }
}

// What the first job is.
fn first_in_words(states: &[State]) -> &'static str {
    match states.first() {
        None => "no job",
        Some(State::Open) => "open",
        Some(State::Dirty(reasons)) => reasons_in_words(reasons.as_slice()),
        Some(State::Restore) => "to be restored",
        Some(State::Clean) => "clean",
    }
}

// What the first job is, by this record and where its source has these bytes and this time.
fn told_in<Rt: Threads + Sync>(
    rt: &Rt,
    alloc: Global,
    work: &mut MemWork,
    record: &str,
    bytes: &str,
    time: u64,
) -> Result<&'static str, RowFault> {
    prepare(alloc, work, record, bytes, time)?;
    let live = planned(rt, alloc, work)?;
    let states = live.states(alloc)?;
    Ok(first_in_words(states.as_slice()))
}

// The same, in a workspace of its own.
fn told<Rt: Threads + Sync>(
    rt: &Rt,
    alloc: Global,
    record: &str,
    bytes: &str,
    time: u64,
) -> Result<&'static str, RowFault> {
    let mut work = workspace(alloc, 1)?;
    told_in(rt, alloc, &mut work, record, bytes, time)
}

// The line of a case.
fn line<Rt: Threads + Sync>(
    rt: &Rt,
    alloc: Global,
    name: &str,
    record: &str,
    bytes: &str,
    time: u64,
) -> Result<String, AllocError> {
    match told(rt, alloc, record, bytes, time) {
        Ok(words) => format!(in alloc; "{name}: {words}\n"),
        Err(fault) => format!(in alloc; "{name}: {fault:?}\n"),
    }
}

/// A line for each case. A source with the recorded time isn't read.
pub fn lines<Rt: Threads + Sync>(rt: &Rt, alloc: Global) -> Result<String, AllocError> {
    let mut text = String::new(alloc);
    for (name, record, bytes, time) in [
        ("the recorded time", BY_SUM, "x\n", 1000),
        ("another time, the same bytes", BY_SUM, "x\n", 2000),
        ("another time, other bytes", BY_SUM, "y\n", 2000),
        ("the recorded time, other bytes", BY_SUM, "y\n", 1000),
        ("by time, the recorded time", BY_TIME, "x\n", 1000),
        (
            "by time, another time, the same bytes",
            BY_TIME,
            "x\n",
            2000,
        ),
    ] {
        let line = line(rt, alloc, name, record, bytes, time)?;
        text.push_str(line.as_str())?;
    }
    Ok(text)
}
