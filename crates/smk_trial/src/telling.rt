//! The trial as a command.

ghost use Rattle.std.specs.Prelude.{◌≤◌};
ghost use Rattle.smk_trial.specs.Telling.{IsPut, TellsCounts, HasTold};

use crate::lines::trial_lines;
use crate::tried::Trial;
use crate::trying::trial;
use smk_base::OutOfMemory;
use smk_report::Fault;
use smk_run::write_out;
use smk_world::{Failed, Sink};
use std::alloc::Global;
use std::thread::Threads;

// Puts the text.
fn put_text<O: Sink>(text: &str, out: &mut O) -> Result<(), Fault>
    ensures { IsPut text.now (O.sunk out.old) (O.sunk out.new) result }
{
    match write_out(out, text) {
        Ok(()) => Ok(()),
        Err(Failed) => Err(Fault::Output),
    }
}

// Puts the lines of a trial.
fn put_lines<O: Sink>(alloc: Global, size: u64, trial: &Trial, out: &mut O) -> Result<(), Fault>
    ensures { TellsCounts size trial.now.first trial.now.second trial.now.third trial.now.total (O.sunk out.old) (O.sunk out.new) result }
{
    match trial_lines(alloc, size, trial) {
        Ok(text) => put_text(text.as_str(), out),
        Err(OutOfMemory) => Err(Fault::OutOfMemory),
    }
}

/// Makes a trial of a workflow of so many samples, whose texts the seed gives, and puts its lines. `OutOfMemory` where a run doesn't end with status 0, and `Output` where the
/// sink failed.
pub fn tell_trial<O: Sink, Rt: Threads + Sync>(
    rt: &Rt,
    alloc: Global,
    seed: u64,
    size: u64,
    out: &mut O,
) -> Result<(), Fault>
    requires seeds { seed ≤ 4294967295 }
    requires least { 1 ≤ size }
    requires most { size ≤ 2000 }
    ensures { HasTold seed size (O.sunk out.old) (O.sunk out.new) result }
{
    match trial(rt, alloc, seed, size) {
        Ok(trial) => put_lines(alloc, size, &trial, out),
        Err(OutOfMemory) => Err(Fault::OutOfMemory),
    }
}
