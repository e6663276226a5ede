//! The lines of the jobs, and the line of the plan.

ghost use Rattle.std.specs.Prelude.{◌≡◌, ◌≢◌, ◌++◌, [], IfOk, IfErr, OnOk, is_ok, string_bytes, length, zip};
ghost use Rattle.std.specs.List.{flat_map};
ghost use Rattle.smk_world.specs.Trees.{Each};
ghost use Rattle.smk_world.specs.World.{out_paths};
ghost use Rattle.smk_drive.specs.Reports.{listing_text};
ghost use Rattle.smk_run.specs.Reports.{HasReported, IsReport};
ghost use Rattle.smk_run.specs.Runs.{is_output};
ghost use Rattle.smk_cli_calls.specs.Listing.{job_line, IsFault};

use smk_base::{List, OutOfMemory};
use smk_chain::{Jobs, first_output};
use smk_flow::{Job, Workflow};
use smk_format::rule_name;
use smk_report::{Fault, plan_line, state_line};
use smk_run::write_out;
use smk_trigger::State;
use smk_world::{Failed, Sink};
use std::alloc::Global;

// Adds the line of the job.
fn push_job(
    alloc: Global,
    flow: &Workflow,
    job: &Job,
    state: &State,
    text: &mut String,
) -> Result<(), OutOfMemory>
    requires makes { out_paths job.now.recipe ≢ [] }
    ensures { OnOk result (string_bytes text.new ≡ string_bytes text.old ++ job_line flow.now (job.now, state.now)) }
{
    let Some(path) = first_output(job) else {
        unreachable!()
    };
    let line = state_line(alloc, rule_name(flow, job.rule), path, state)?;
    text.push_str(line.as_str())?;
    Ok(())
}

// Adds the lines of the jobs.
fn push_jobs(
    alloc: Global,
    flow: &Workflow,
    jobs: &[Job],
    states: &[State],
    text: &mut String,
) -> Result<(), OutOfMemory>
    requires make { Each (λ job. out_paths job.recipe ≢ []) jobs.now }
    ensures { OnOk result (string_bytes text.new ≡ string_bytes text.old ++ flat_map (job_line flow.now) (zip jobs.now states.now)) }
{
    for (number, job) in jobs.iter().enumerate() {
        let Some(state) = states.get(number) else {
            return Ok(());
        };
        push_job(alloc, flow, job, state, text)?;
    }
    Ok(())
}

// The text of the listing.
fn listing_text(
    alloc: Global,
    flow: &Workflow,
    jobs: &Jobs,
    states: &List<State>,
) -> Result<String, OutOfMemory>
    requires each { length states.now ≡ length jobs.now.jobs }
    requires make { Each (λ job. out_paths job.recipe ≢ []) jobs.now.jobs }
    ensures { IfOk result (λ text. string_bytes text
        ≡ listing_text flow.now (record { lists = jobs.now.lists; jobs = jobs.now.jobs; states = states.now })) }
{
    let mut text = String::new(alloc);
    push_jobs(
        alloc,
        flow,
        jobs.jobs.as_slice(),
        states.as_slice(),
        &mut text,
    )?;
    let line = plan_line(alloc, states)?;
    text.push_str(line.as_str())?;
    Ok(text)
}

/// Puts the listing of a plan: a line for each job that isn't clean, in plan order, with its reasons where it is to run; and the line of how many jobs there
/// are of each state.
///
/// `Output`: the sink failed, and a front of the listing was put. `OutOfMemory`: there is no memory for the text; then nothing was put.
///
/// There is a state for each job, and each job has an output.
pub(crate) fn put_listing<O: Sink>(
    alloc: Global,
    flow: &Workflow,
    jobs: &Jobs,
    states: &List<State>,
    out: &mut O,
) -> Result<(), Fault>
    requires each { length states.now ≡ length jobs.now.jobs }
    requires make { Each (λ job. out_paths job.recipe ≢ []) jobs.now.jobs }
    ensures told { HasReported (IsReport (is_ok result) (listing_text flow.now (record { lists = jobs.now.lists; jobs = jobs.now.jobs; states = states.now })))
        (O.sunk out.old) (O.sunk out.new) (is_output result) }
    ensures faults { IfErr result IsFault }
{
    let Ok(text) = listing_text(alloc, flow, jobs, states) else {
        return Err(Fault::OutOfMemory);
    };
    match write_out(out, text.as_str()) {
        Ok(()) => Ok(()),
        Err(Failed) => Err(Fault::Output),
    }
}
