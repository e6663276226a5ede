//! The commands of all jobs of a plan.

ghost use Rattle.std.specs.Prelude.{◌≡◌, ◌⊎◌, length, Some, None, IfOk, IfErr, OnOk};
ghost use Rattle.std.specs.List.{zip};
ghost use Rattle.smk_format.specs.Refused.{job_fault, state_fault, command_fault};
ghost use Rattle.smk_report.specs.declared.fault.Fault.TheVariants as fault;

use crate::command;
use crate::faults::field_fault;
use crate::making::command_of;
use crate::names::rule_name;
use smk_base::List;
use smk_flow::{Job, Workflow};
use smk_report::Fault;
use smk_trigger::State;
use std::alloc::Global;

// Looks at the command of a job that is to run.
fn check_text(alloc: Global, flow: &Workflow, cores: u64, job: &Job) -> Result<(), Fault>
    ensures good { OnOk result (job_fault flow.now cores job.now ≡ None) }
    ensures not { IfErr result (λ f. (f ≡ fault.OutOfMemory) ⊎ (job_fault flow.now cores job.now ≡ Some f)) }
{
    match command_of(alloc, flow, cores, job) {
        Ok(_text) => Ok(()),
        Err(fault) => Err(fault),
    }
}

// Looks at the fields of the command of a job that is Clean.
fn check_fields(alloc: Global, flow: &Workflow, cores: u64, job: &Job) -> Result<(), Fault>
    ensures good { OnOk result (state_fault flow.now cores job.now State.Clean ≡ None) }
    ensures not { IfErr result (λ f. (f ≡ fault.OutOfMemory) ⊎ (state_fault flow.now cores job.now State.Clean ≡ Some f)) }
{
    let rule = rule_name(flow, job.rule);
    match command(alloc, job, job.threads.min(cores)) {
        Ok(_text) => Ok(()),
        Err(fault) => field_fault(alloc, rule, fault),
    }
}

// Looks at the command of a job that has this state.
fn check_command(
    alloc: Global,
    flow: &Workflow,
    cores: u64,
    job: &Job,
    state: &State,
) -> Result<(), Fault>
    ensures good { OnOk result (state_fault flow.now cores job.now state.now ≡ None) }
    ensures not { IfErr result (λ f. (f ≡ fault.OutOfMemory) ⊎ (state_fault flow.now cores job.now state.now ≡ Some f)) }
{
    match state {
        State::Open => Ok(()),
        State::Dirty(_) => check_text(alloc, flow, cores, job),
        State::Restore => check_text(alloc, flow, cores, job),
        State::Clean => check_fields(alloc, flow, cores, job),
    }
}

// Looks at the commands of the jobs that have these states.
fn check_each(
    alloc: Global,
    flow: &Workflow,
    cores: u64,
    jobs: &[Job],
    states: &[State],
) -> Result<(), Fault>
    ensures good { OnOk result (command_fault flow.now cores (zip jobs.now states.now) ≡ None) }
    ensures not { IfErr result (λ f. (f ≡ fault.OutOfMemory) ⊎ (command_fault flow.now cores (zip jobs.now states.now) ≡ Some f)) }
{
    for (number, job) in jobs.iter().enumerate() {
        let Some(state) = states.get(number) else {
            return Ok(());
        };
        match check_command(alloc, flow, cores, job, state) {
            Ok(()) => {}
            Err(fault) => return Err(fault),
        }
    }
    Ok(())
}

/// Looks at the commands of the jobs, in order, up to the first fault of one. The states are those of the jobs, one for each.
///
/// `UnknownField` where a field of a command has no value, in each job that isn't Open, with the first such field. `TooLong` where a command
/// has NUL, with 0 bytes, or more than 120,000 bytes, in each job that is Dirty or Restore. It is the first job with such a fault, and there is
/// one exactly where `Ok` isn't answered, but that `OutOfMemory` comes where there is no memory for a command or the fault.
pub fn check_commands(
    alloc: Global,
    flow: &Workflow,
    cores: u64,
    jobs: &List<Job>,
    states: &List<State>,
) -> Result<(), Fault>
    requires each { length jobs.now ≡ length states.now }
    ensures good { OnOk result (command_fault flow.now cores (zip jobs.now states.now) ≡ None) }
    ensures not { IfErr result (λ f. (f ≡ fault.OutOfMemory) ⊎ (command_fault flow.now cores (zip jobs.now states.now) ≡ Some f)) }
{
    check_each(alloc, flow, cores, jobs.as_slice(), states.as_slice())
}
