//! The command of one job.

ghost use Rattle.std.specs.Prelude.{◌≡◌, ◌⊎◌, Some, None, IfOk, IfErr, OnOk};
ghost use Rattle.smk_format.specs.Refused.{command_of, job_fault};
ghost use Rattle.smk_report.specs.declared.fault.Fault.TheVariants as fault;

use crate::command;
use crate::faults::format_fault;
use crate::names::rule_name;
use smk_base::Text;
use smk_flow::{Job, Workflow};
use smk_report::Fault;
use std::alloc::Global;

/// The text of the job's command, with its threads cut to the cores.
///
/// `UnknownField` exactly where a field of it has no value, with the first such field; else `TooLong` exactly where the text has NUL, with 0
/// bytes, or more than 120,000 bytes. `OutOfMemory` where there is no memory for the text or for the fault.
pub fn command_of(alloc: Global, flow: &Workflow, cores: u64, job: &Job) -> Result<Text, Fault>
    ensures text { IfOk result (λ text. text ≡ command_of cores job.now) }
    ensures good { OnOk result (job_fault flow.now cores job.now ≡ None) }
    ensures not { IfErr result (λ f. (f ≡ fault.OutOfMemory) ⊎ (job_fault flow.now cores job.now ≡ Some f)) }
{
    let rule = rule_name(flow, job.rule);
    match command(alloc, job, job.threads.min(cores)) {
        Ok(text) => Ok(text),
        Err(fault) => Err(format_fault(alloc, rule, fault)),
    }
}
