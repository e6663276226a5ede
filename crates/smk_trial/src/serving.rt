//! The command `--generate`: a trial in memory, which leaves the working folder alone.

ghost use Rattle.std.specs.Prelude.{◌≡◌, ◌≤◌, IfOk, MatchOption, Result as Answer};
ghost use Rattle.smk_report.specs.declared.fault.Fault.{Fault as FaultValue};
ghost use Rattle.smk_report.specs.Faults.{status_of as status_for};
ghost use Rattle.smk_cli_calls.specs.Ends.{fault_of};
ghost use Rattle.smk_trial.specs.Telling.{HasTold};

use crate::telling::tell_trial;
use smk_base::OutOfMemory;
use smk_report::{Fault, fault_line, status_of};
use smk_run::write_out;
use smk_words_reading::{Asked, WordsFault, read_words};
use smk_world::Sink;
use std::alloc::Global;
use std::thread::Threads;

/// A trial that words ask for.
#[derive(Clone, Copy)]
pub struct Generating {
    /// What the texts of its sources are made of.
    pub seed: u64,
    /// How many samples it has.
    pub size: u64,
}

// The trial of this seed and this size, within the bounds that the reader of words keeps to.
fn bounded(seed: u64, size: u64) -> Option<Generating>
    ensures { MatchOption result (Unit {0}) (λ g. (g.seed ≤ 4294967295) × (1 ≤ g.size) × (g.size ≤ 2000)) }
{
    if seed <= 4294967295 && 1 <= size && size <= 2000 {
        Some(Generating { seed, size })
    } else {
        None
    }
}

// The trial that is asked for, if one is.
fn generating_in(asked: &Asked) -> Option<Generating>
    ensures { MatchOption result (Unit {0}) (λ g. (g.seed ≤ 4294967295) × (1 ≤ g.size) × (g.size ≤ 2000)) }
{
    match asked {
        Asked::Generate { seed, size } => bounded(*seed, *size),
        _ => None,
    }
}

/// The trial that the words ask for, if they do. `OutOfMemory` where there is no memory to read them.
pub fn asked_generating(alloc: Global, words: &[String]) -> Result<Option<Generating>, OutOfMemory>
    ensures { IfOk result (λ found. MatchOption found (Unit {0}) (λ g. (g.seed ≤ 4294967295) × (1 ≤ g.size) × (g.size ≤ 2000))) }
{
    match read_words(alloc, words) {
        Ok(asked) => Ok(generating_in(&asked)),
        Err(WordsFault::OutOfMemory) => Err(OutOfMemory),
        Err(_) => Ok(None),
    }
}

/// Puts the line of the fault; its status.
pub fn tell_fault<O: Sink>(alloc: Global, fault: &Fault, err: &mut O) -> u8
    ensures { result ≡ status_for (Some fault.now) }
{
    if let Ok(line) = fault_line(alloc, fault) {
        let _ = write_out(err, line.as_str());
    }
    status_of(fault)
}

/// Makes the trial and puts what it tells, or the line of its fault; the status of that.
pub fn serve_generating<O: Sink, Rt: Threads + Sync>(
    rt: &Rt,
    alloc: Global,
    asked: Generating,
    out: &mut O,
    err: &mut O,
) -> u8
    requires seeds { asked.seed ≤ 4294967295 }
    requires least { 1 ≤ asked.size }
    requires most { asked.size ≤ 2000 }
    ensures { (answer : Answer (Unit {0}) FaultValue) × HasTold asked.seed asked.size (O.sunk out.old) (O.sunk out.new) answer × (result ≡ status_for (fault_of answer)) }
{
    match tell_trial(rt, alloc, asked.seed, asked.size, out) {
        Ok(()) => 0,
        Err(fault) => tell_fault(alloc, &fault, err),
    }
}
