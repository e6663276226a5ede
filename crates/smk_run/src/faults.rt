//! The faults of jobs.

ghost use Rattle.std.specs.Prelude.{◌≡◌, IfOk};
ghost use Rattle.smk_run.specs.Reports.{failure};
ghost use Rattle.smk_run.specs.Runs.{IsToldStop};
ghost use Rattle.smk_report.specs.declared.fault.Fault.TheVariants as fault;

use crate::{Ending, Stop};
use smk_base::{OutOfMemory, PathText, Text};
use smk_format::too_long;
use smk_report::Fault;
use std::alloc::Global;

// The rule's name and the path.
fn name_of(alloc: Global, rule: &str, path: &PathText) -> Result<(Text, PathText), OutOfMemory>
    ensures { IfOk result (λ both. (both.0 ≡ rule.now) × (both.1 ≡ path.now)) }
{
    Ok((Text::of(alloc, rule)?, path.copy(alloc)?))
}

/// The fault of a job of this rule with this first output, where it failed; none where it is done. `OutOfMemory` where there is no memory for its names.
pub fn failure(
    alloc: Global,
    rule: &str,
    path: &PathText,
    ending: Ending,
) -> Result<Option<Fault>, OutOfMemory>
    ensures { IfOk result (λ first. first ≡ failure (record { rule = rule.now; path = path.now }) ending) }
{
    if let Ending::Good = ending {
        return Ok(None);
    }
    let (rule, path) = name_of(alloc, rule, path)?;
    match ending {
        Ending::Good => Ok(None),
        Ending::Status(code) => Ok(Some(Fault::JobFailed { rule, path, code })),
        Ending::NoOutput(missing) => Ok(Some(Fault::NoOutput {
            rule,
            path,
            missing,
        })),
        Ending::WrongKind(wrong) => Ok(Some(Fault::WrongKind { rule, path, wrong })),
        Ending::BadMember(bad) => Ok(Some(Fault::BadMember { rule, path, bad })),
    }
}

// The fault of an input that is gone.
fn no_input(
    alloc: Global,
    rule: &str,
    path: &PathText,
    wanted: &PathText,
) -> Result<Fault, OutOfMemory>
    ensures { IfOk result (λ f. f ≡ fault.NoInput path.now rule.now wanted.now) }
{
    let (rule, path) = name_of(alloc, rule, path)?;
    let wanted = Text::of(alloc, wanted.as_str())?;
    Ok(Fault::NoInput { path, rule, wanted })
}

/// The fault of a run that stops at a job of this rule with this first output.
pub(crate) fn stopped(alloc: Global, rule: &str, path: &PathText, stop: Stop) -> Fault
    ensures { IsToldStop (record { rule = rule.now; path = path.now }) stop result }
{
    match stop {
        Stop::TooLong(bytes) => too_long(alloc, rule, bytes),
        Stop::Gone(wanted) => match no_input(alloc, rule, path, &wanted) {
            Ok(fault) => fault,
            Err(OutOfMemory) => Fault::OutOfMemory,
        },
        Stop::Device => Fault::Device,
        Stop::Output => Fault::Output,
        Stop::OutOfMemory => Fault::OutOfMemory,
    }
}
