//! What is told of two jobs while the child of the first one runs, and once what it made was removed.

ghost use Rattle.std.specs.Prelude.{IfOk};
ghost use Rattle.smk_plan_live.specs.Lives.{IsLive};

use crate::counting::Counting;
use crate::flow::{jobs_of, path_of, workspace};
use crate::touched::put_record;
use crate::{RowFault, begin, close, looked, made};
use smk_base::OutOfMemory;
use smk_plan_live::LivePlan;
use smk_record::Stamp;
use smk_trigger::State;
use smk_world_mem::MemWork;
use std::alloc::{AllocError, Global};
use std::thread::Threads;

// The record of `m/1.txt`.
const FIRST: &str =
    "SMK1\n7:m/1.txt\n1\n5:first\n0\n0\n1\n0:\n1\n7:s/1.txt\nT1\n1\n0:\n1\nF7:m/1.txt\n0\n";

// The same, made by another command.
const BY_ANOTHER: &str =
    "SMK1\n7:m/1.txt\n1\n5:other\n0\n0\n1\n0:\n1\n7:s/1.txt\nT1\n1\n0:\n1\nF7:m/1.txt\n0\n";

// The record of `total.txt`, made of `m/1.txt`.
const TOTAL: &str =
    "SMK1\n9:total.txt\n2\n5:total\n0\n0\n1\n0:\n1\n7:m/1.txt\nM1\n1\n0:\n1\nF9:total.txt\n0\n";

// What stands before the run.
#[derive(Clone, Copy)]
struct Before {
    record: &'static str,
    stands: bool,
    total: bool,
    temporary: bool,
}

// Places what stands.
fn place(alloc: Global, work: &mut MemWork, before: Before) -> Result<(), RowFault> {
    if before.stands {
        work.place(&path_of(alloc, "m/1.txt")?, b"1", 1)?;
    }
    if before.total {
        work.place(&path_of(alloc, "total.txt")?, b"1", 1)?;
        put_record(alloc, work, "total.txt", TOTAL)?;
    }
    put_record(alloc, work, "m/1.txt", before.record)
}

// The kept plan of the first job and the one that reads what it makes.
fn planned<Rt: Threads + Sync>(rt: &Rt, alloc: Global, before: Before) -> Result<LivePlan, RowFault>
    ensures { IfOk result IsLive }
{
    let mut work = workspace(alloc, 1)?;
    place(alloc, &mut work, before)?;
    let jobs = jobs_of(alloc, 1, before.temporary)?;
    let (store, seen) = looked(rt, alloc, &mut work, &jobs)?;
    made(rt, alloc, jobs, store, seen)
}

// The state of the number in words.
fn state_in_words(states: &[State], number: usize) -> &'static str {
    match states.get(number) {
        None => "no job",
        Some(State::Open) => "open",
        Some(State::Dirty(_)) => "dirty",
        Some(State::Restore) => "to be restored",
        Some(State::Clean) => "clean",
    }
}

// The stamp in words.
fn stamp_in_words(stamps: &[Option<Stamp>]) -> &'static str {
    match stamps.first() {
        None => "no input",
        Some(None) => "no stamp",
        Some(Some(_)) => "its serial",
    }
}

// By what the second job's input is judged now.
fn input_in_words(alloc: Global, live: &LivePlan) -> Result<&'static str, OutOfMemory> {
    Ok(match live.facts(alloc, 1)? {
        None => "no job",
        Some(facts) => stamp_in_words(facts.stamps.as_slice()),
    })
}

// The states of both jobs, and by what the second one's input is judged.
fn told(alloc: Global, live: &LivePlan) -> Result<String, RowFault> {
    let states = live.states(alloc)?;
    let first = state_in_words(states.as_slice(), 0);
    let last = state_in_words(states.as_slice(), 1);
    let input = input_in_words(alloc, live)?;
    Ok(format!(in alloc; "{first}, {last}, read by {input}")?)
}

// The first job begins and is closed; what is told before, meanwhile and after.
fn run(alloc: Global, live: &mut LivePlan) -> Result<String, RowFault>
    requires { IsLive live.old }
{
    let before = told(alloc, live)?;
    begin(alloc, live)?;
    let meanwhile = told(alloc, live)?;
    close(alloc, live, &Counting::new())?;
    let after = told(alloc, live)?;
    Ok(format!(in alloc; "{before}; {meanwhile}; {after}")?)
}

// What the first job made is removed; what is told before and after.
fn lose(alloc: Global, live: &mut LivePlan) -> Result<String, RowFault>
    requires { IsLive live.old }
{
    let before = told(alloc, live)?;
    let path = path_of(alloc, "m/1.txt")?;
    let Ok(()) = live.spent(alloc, &path) else {
        return Err(RowFault::Plan);
    };
    let after = told(alloc, live)?;
    Ok(format!(in alloc; "{before}; {after}")?)
}

// What is told in this case, where the first job runs or what it made is removed.
fn told_in<Rt: Threads + Sync>(
    rt: &Rt,
    alloc: Global,
    before: Before,
    runs: bool,
) -> Result<String, RowFault> {
    let mut live = planned(rt, alloc, before)?;
    if runs {
        return run(alloc, &mut live);
    }
    lose(alloc, &mut live)
}

// The line of a case.
fn line<Rt: Threads + Sync>(
    rt: &Rt,
    alloc: Global,
    name: &str,
    before: Before,
    runs: bool,
) -> Result<String, AllocError> {
    match told_in(rt, alloc, before, runs) {
        Ok(words) => format!(in alloc; "{name}: {words}\n"),
        Err(fault) => format!(in alloc; "{name}: {fault:?}\n"),
    }
}

/// A line for each case: the states of the first job and of the one that reads what it makes at each rest.
pub fn lines<Rt: Threads + Sync>(rt: &Rt, alloc: Global) -> Result<String, AllocError> {
    let again = Before {
        record: BY_ANOTHER,
        stands: true,
        total: true,
        temporary: false,
    };
    let gone = Before {
        record: FIRST,
        stands: false,
        total: false,
        temporary: false,
    };
    let whole = Before {
        record: FIRST,
        stands: true,
        total: true,
        temporary: false,
    };
    let spent = Before {
        temporary: true,
        ..whole
    };
    let mut text = String::new(alloc);
    for (name, before, runs) in [
        ("made anew", again, true),
        ("restored", gone, true),
        ("spent", spent, false),
        ("lost", whole, false),
    ] {
        let line = line(rt, alloc, name, before, runs)?;
        text.push_str(line.as_str())?;
    }
    Ok(text)
}
