//! The counts of jobs that have ended.

ghost use Rattle.std.specs.Prelude.{◌≡◌, ◌<◌, IfErr, IfOk, OnOk};
ghost use Rattle.smk_drive.specs.Reports.{named_job};
ghost use Rattle.smk_report.specs.declared.fault.Fault.TheVariants as fault;
ghost use Rattle.smk_run.specs.Reports.{failure};
ghost use Rattle.smk_run.specs.Turns.{is_good};
ghost use Rattle.smk_drive_hub.specs.Turned.{IsBarelyMore};
ghost use Rattle.smk_laws_closes.specs.Closes.{counted_end, first_failure, one_failed};

use smk_base::OutOfMemory;
use smk_chain::first_output;
use smk_flow::{Job, Workflow};
use smk_format::rule_name;
use smk_report::Fault;
use smk_run::{Ending, Tally, failure};
use std::alloc::Global;

// Whether a job that ends so is done.
pub(crate) fn is_good(ending: &Ending) -> bool
    ensures { result ≡ is_good ending.now }
{
    matches!(ending, Ending::Good)
}

// The fault of a job that failed so.
fn failure_of(
    alloc: Global,
    flow: &Workflow,
    job: &Job,
    ending: Ending,
) -> Result<Option<Fault>, OutOfMemory>
    ensures { IfOk result (λ found. found ≡ failure (named_job flow.now job.now) ending) }
{
    let Some(path) = first_output(job) else {
        return Err(OutOfMemory);
    };
    failure(alloc, rule_name(flow, job.rule), path, ending)
}

// The first of two faults, if any came.
fn first_failure(first: Option<Fault>, later: Option<Fault>) -> Option<Fault>
    ensures { result ≡ first_failure first later }
{
    match first {
        Some(fault) => Some(fault),
        None => later,
    }
}

// Counts one job more that failed, with this fault.
fn add_failure(tally: &mut Tally, found: Option<Fault>)
    requires count { tally.old.failed < 18446744073709551615 }
    ensures { tally.new ≡ one_failed found tally.old }
{
    tally.failed += 1;
    let first = tally.first.take();
    tally.first = first_failure(first, found);
}

// Counts the end of the job. `OutOfMemory` where there is no memory for its fault; then it isn't counted.
pub(crate) fn count_end(
    alloc: Global,
    flow: &Workflow,
    tally: &mut Tally,
    job: &Job,
    ending: Ending,
) -> Result<(), Fault>
    requires done { tally.old.done < 18446744073709551615 }
    requires failed { tally.old.failed < 18446744073709551615 }
    ensures counted { OnOk result (tally.new ≡ counted_end flow.now job.now ending tally.old) }
    ensures barely { IsBarelyMore tally.old tally.new }
    ensures err { IfErr result (λ f. f ≡ fault.OutOfMemory) }
{
    if is_good(&ending) {
        tally.done += 1;
        return Ok(());
    }
    match failure_of(alloc, flow, job, ending) {
        Ok(found) => {
            add_failure(tally, found);
            Ok(())
        }
        Err(OutOfMemory) => Err(Fault::OutOfMemory),
    }
}
