//! The turns of jobs, one after another.

ghost use Rattle.std.specs.Prelude.{◌≡◌, ◌≢◌, ◌≤◌, ◌+◌, [], map, slice_get, Some, None, true};
ghost use Rattle.std.specs.Option.{option_and_then};
ghost use Rattle.smk_base.specs.declared.tree.Pair.{Pair};
ghost use Rattle.smk_world.specs.World.{in_paths, out_paths, owned_paths};
ghost use Rattle.smk_world.specs.Calls.{are_apart};
ghost use Rattle.smk_world.specs.Trees.{Each};
ghost use Rattle.smk_record.specs.Records.{are_rising};
ghost use Rattle.smk_run.specs.Stamps.{IsBelow, number_at};
ghost use Rattle.smk_run.specs.Duties.{due_from, due_serial, serial_in};
ghost use Rattle.smk_run.specs.Runs.{HasTaken, HasHadTurn, HasRun, IsReady, command_of, job_fault};

use crate::faults::{failure, stopped};
use crate::one::run_one;
use crate::serials::serial_in;
use crate::stamps::{input_paths, see_outputs, see_paths};
use crate::summing::inputs_of;
use crate::wording::see_texts;
use crate::{Ending, Stop, Tally};
use smk_base::OutOfMemory;
use smk_chain::first_output;
use smk_flow::{Job, Workflow};
use smk_format::{command_of, rule_name};
use smk_plan::Duty;
use smk_report::Fault;
use smk_world::{Crew, Files, Sink};
use std::alloc::Global;
use std::collections::BTreeMap;
use std::thread::Threads;

// Takes the turn of a job, which has the serial `made`: finds the stamps of its inputs, with the digests of its sources, and runs it.
fn take<W: Crew, O: Sink, Rt: Threads + Sync>(
    rt: &Rt,
    alloc: Global,
    flow: &Workflow,
    serials: &BTreeMap<String, Option<u64>>,
    made: u64,
    job: &Job,
    command: &str,
    work: &mut W,
    out: &mut O,
) -> Result<Ending, Stop>
    requires none_runs { (W.device work.old).running ≡ [] }
    requires below { Each (λ p. IsBelow made (number_at serials.now p)) (in_paths job.now.recipe) }
    requires positive { 1 ≤ made }
    requires makes { out_paths job.now.recipe ≢ [] }
    requires apart { are_apart (owned_paths job.now.recipe job.now.logs) ≡ true }
    requires wildcards { are_rising (map (λ (w : Pair). w.name) job.now.recipe.wildcards) ≡ true }
    ensures { HasTaken W.act flow.now (number_at serials.now) job.now command.now made result (W.device work.old) (W.device work.new) (O.sunk out.old) (O.sunk out.new) }
{
    let Ok(paths) = input_paths(alloc, job.recipe.inputs.as_slice()) else {
        return Err(Stop::OutOfMemory);
    };
    see_paths(paths.as_slice());
    see_outputs(job.recipe.outputs.as_slice());
    see_texts(&job.recipe);
    match inputs_of(rt, alloc, serials, made, paths.as_slice(), work) {
        Ok(stamps) => run_one(alloc, flow, job, &stamps, made, command, work, out),
        Err(stop) => Err(stop),
    }
}

// Takes the turn of a job. The answer is the fault of a job that failed.
fn turn<W: Crew, O: Sink, Rt: Threads + Sync>(
    rt: &Rt,
    alloc: Global,
    flow: &Workflow,
    serials: &BTreeMap<String, Option<u64>>,
    made: u64,
    cores: u64,
    job: &Job,
    work: &mut W,
    out: &mut O,
) -> Result<Option<Fault>, Fault>
    requires none_runs { (W.device work.old).running ≡ [] }
    requires below { Each (λ p. IsBelow made (number_at serials.now p)) (in_paths job.now.recipe) }
    requires positive { 1 ≤ made }
    requires makes { out_paths job.now.recipe ≢ [] }
    requires apart { are_apart (owned_paths job.now.recipe job.now.logs) ≡ true }
    requires wildcards { are_rising (map (λ (w : Pair). w.name) job.now.recipe.wildcards) ≡ true }
    requires good { job_fault flow.now cores job.now ≡ None }
    ensures { HasHadTurn W.act flow.now (number_at serials.now) job.now (command_of cores job.now) made result (W.device work.old) (W.device work.new) (O.sunk out.old) (O.sunk out.new) }
{
    see_outputs(job.recipe.outputs.as_slice());
    see_paths(job.logs.as_slice());
    let rule = rule_name(flow, job.rule);
    let Some(path) = first_output(job) else {
        unreachable!()
    };
    let Ok(command) = command_of(alloc, flow, cores, job) else {
        return Err(Fault::OutOfMemory);
    };
    match take(
        rt,
        alloc,
        flow,
        serials,
        made,
        job,
        command.as_str(),
        work,
        out,
    ) {
        Ok(ending) => match failure(alloc, rule, path, ending) {
            Ok(first) => Ok(first),
            Err(OutOfMemory) => Err(Fault::OutOfMemory),
        },
        Err(stop) => Err(stopped(alloc, rule, path, stop)),
    }
}

// The tally of a run in which so many jobs were done, and so many failed.
fn ended(done: usize, failed: u64, first: Option<Fault>) -> Tally
    requires fits { done + failed ≤ 18446744073709551615 }
    ensures started { result.started ≡ done + failed }
    ensures done { result.done ≡ done }
    ensures failed { result.failed ≡ failed }
    ensures first { result.first ≡ first }
{
    let done = done as u64;
    Tally {
        started: done + failed,
        done,
        failed,
        first,
    }
}

// The serial of the job of this number, unless the job rests.
fn due_at(duties: &[Duty], serials: &[Option<u64>], number: usize) -> Option<Option<u64>>
    ensures { result ≡ option_and_then (due_serial (serial_in serials.now number)) (slice_get duties.now number) }
{
    let serial = serial_in(serials, number);
    match duties.get(number) {
        Some(Duty::Rest(_)) => None,
        Some(Duty::Restore(_)) => Some(serial),
        Some(Duty::Run) => Some(serial),
        None => None,
    }
}

/// Runs the jobs that don't rest, in order, where all jobs have these serials and the products those of `made`.
pub(crate) fn run_all<W: Crew, O: Sink, Rt: Threads + Sync>(
    rt: &Rt,
    alloc: Global,
    flow: &Workflow,
    made: &BTreeMap<String, Option<u64>>,
    serials: &[Option<u64>],
    duties: &[Duty],
    cores: u64,
    jobs: &[Job],
    work: &mut W,
    out: &mut O,
) -> Result<Tally, Fault>
    requires none_runs { (W.device work.old).running ≡ [] }
    requires ready { Each (IsReady flow.now cores (number_at made.now)) (due_from (serial_in serials.now) 0 duties.now jobs.now) }
    ensures { HasRun W.act flow.now cores (due_from (serial_in serials.now) 0 duties.now jobs.now) (number_at made.now) result (W.device work.old) (W.device work.new) (O.sunk out.old) (O.sunk out.new) }
{
    let mut done = 0;
    for (number, job) in jobs.iter().enumerate() {
        let Some(serial) = due_at(duties, serials, number) else {
            continue;
        };
        let Some(serial) = serial else {
            return Err(Fault::Serials);
        };
        match turn(rt, alloc, flow, made, serial, cores, job, work, out) {
            Ok(None) => done += 1,
            Ok(Some(fault)) => return Ok(ended(done, 1, Some(fault))),
            Err(fault) => return Err(fault),
        }
    }
    Ok(ended(done, 0, None))
}
