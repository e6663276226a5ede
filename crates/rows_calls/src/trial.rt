//! A workspace in memory with a workflow and its input, and the call in it.

ghost use Rattle.std.specs.Prelude.{◌≡◌, [], IfOk};
ghost use Rattle.smk_world_mem.specs.Work.{running_in};

use rows_lines::Trouble;
use smk_base::{List, OutOfMemory, PathText, one};
use smk_cli::smk;
use smk_world_mem::{MemSink, MemWork, Setup};
use std::alloc::{AllocError, Global};
use std::thread::Threads;

/// A workspace with a workflow file and an input, and the sinks of a call in it.
#[derive(Drop)]
pub struct Trial {
    pub work: MemWork,
    pub out: MemSink,
    pub err: MemSink,
}

/// The number, where there is one.
pub fn numbers(alloc: Global, number: Option<u64>) -> Result<List<u64>, OutOfMemory> {
    match number {
        Some(number) => one(alloc, number),
        None => Ok(List::new(alloc)),
    }
}

/// An empty workspace whose calls with these numbers fail.
pub fn empty(alloc: Global, failing: List<u64>) -> MemWork {
    MemWork::new(
        alloc,
        Setup {
            failing,
            stop_after: None,
            order: List::new(alloc),
            killed: List::new(alloc),
        },
    )
}

// Writes the file by hand.
fn place(
    alloc: Global,
    work: &mut MemWork,
    path: &str,
    text: &str,
    time: u64,
) -> Result<(), Trouble> {
    let path = PathText::read(alloc, path)?;
    Ok(work.place(&path, text.as_bytes(), time)?)
}

// Writes the workflow file and the input by hand.
fn fill(alloc: Global, work: &mut MemWork, workflow: &str, input: &str) -> Result<(), Trouble> {
    place(alloc, work, "Snakefile", workflow, 1)?;
    place(alloc, work, "in.txt", input, 1000)
}

/// An empty workspace and its sinks, where the child with this number is killed.
pub fn set_up_killing(alloc: Global, child: Option<u64>) -> Result<Trial, Trouble> {
    let killed = numbers(alloc, child)?;
    let work = MemWork::new(
        alloc,
        Setup {
            failing: List::new(alloc),
            stop_after: None,
            order: List::new(alloc),
            killed,
        },
    );
    Ok(Trial {
        work,
        out: MemSink::new(alloc, List::new(alloc)),
        err: MemSink::new(alloc, List::new(alloc)),
    })
}

/// An empty workspace and its sinks, where the call of the device and the one of the first sink with these numbers fail.
pub fn set_up(
    alloc: Global,
    failing_call: Option<u64>,
    failing_put: Option<u64>,
) -> Result<Trial, Trouble> {
    let calls = numbers(alloc, failing_call)?;
    let puts = numbers(alloc, failing_put)?;
    Ok(Trial {
        work: empty(alloc, calls),
        out: MemSink::new(alloc, puts),
        err: MemSink::new(alloc, List::new(alloc)),
    })
}

// The words that ask for the target.
fn words(alloc: Global, target: &str) -> Result<Vec<String>, Trouble> {
    let mut words = Vec::new(alloc);
    for word in ["--cores", "1", target] {
        words.push(String::from_str(alloc, word)?)?;
    }
    Ok(words)
}

// Calls with these words; the status.
fn called<Rt: Threads + Sync>(
    rt: &Rt,
    alloc: Global,
    words: &[String],
    trial: &mut Trial,
) -> Result<u8, Trouble> {
    if trial.work.is_at_rest() {
        let outcome = smk(
            rt,
            alloc,
            words,
            &mut trial.work,
            &mut trial.out,
            &mut trial.err,
        );
        Ok(outcome.status)
    } else {
        Err(Trouble::Running)
    }
}

/// Calls for the target; the status.
pub fn call<Rt: Threads + Sync>(
    rt: &Rt,
    alloc: Global,
    target: &str,
    trial: &mut Trial,
) -> Result<u8, Trouble> {
    let words = words(alloc, target)?;
    called(rt, alloc, words.as_slice(), trial)
}

/// Writes the workflow and its input by hand, and calls for the target; the status.
pub fn call_on<Rt: Threads + Sync>(
    rt: &Rt,
    alloc: Global,
    workflow: &str,
    input: &str,
    target: &str,
    trial: &mut Trial,
) -> Result<u8, Trouble> {
    fill(alloc, &mut trial.work, workflow, input)?;
    call(rt, alloc, target, trial)
}

/// The same where the input is a line.
pub fn call_by<Rt: Threads + Sync>(
    rt: &Rt,
    alloc: Global,
    workflow: &str,
    target: &str,
    trial: &mut Trial,
) -> Result<u8, Trouble> {
    call_on(rt, alloc, workflow, "hello\n", target, trial)
}
