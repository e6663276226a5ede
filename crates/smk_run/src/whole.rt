//! All jobs, one after another.

ghost use Rattle.std.specs.Prelude.{◌≡◌, []};
ghost use Rattle.smk_plan.specs.Duties.{IsOld, AreServable};
ghost use Rattle.smk_run.specs.Duties.{due, serials};
ghost use Rattle.smk_plan.specs.Runnable.{AreRunnable};
ghost use Rattle.smk_run.specs.Runs.{AreGood, HasRun};

use crate::serials::{made_by, serials_of};
use crate::turns::run_all;
use crate::{Agenda, Tally};
use smk_chain::Jobs;
use smk_flow::Workflow;
use smk_report::Fault;
use smk_world::{Crew, Files, Sink};
use std::alloc::Global;
use std::thread::Threads;

/// Runs the jobs that are due one after another, in order, and reports each on the sink: a line as it starts, and one as it ends. There is a duty for each
/// job. One that rests is passed over: it has neither a turn nor a line. One that is restored keeps its serial; one that is run draws the next, of which the first is
/// `first`, and each other one is greater by one than the one before. After a job that failed none is started, and its fault is the tally's.
///
/// `Serials` exactly where the turn comes of a job that draws a serial, and there is none for it. `TooLong` where the record of a job would be too long as its turn
/// comes, and `NoInput` where a look finds no file at an input that was a source; then nothing was done of that job but looks at its inputs and reads of
/// its sources. `Device`: a call of the device failed, and none came after it but the wait for a running child. `Output`: the sink failed. `OutOfMemory`: want of
/// memory. After each fault no further job was started, and the child that ran was waited for and its job closed, unless a call of the device failed.
///
/// As the turn of a job comes, its inputs that are sources are looked at, one after another, and then read for their SHA-256, which several threads take: its records
/// have these, but for sources of more than 1,048,576 bytes.
///
/// No child runs before. Threads are cut to the cores. The jobs can be run: each has an output, its outputs and logs don't overlap one another, the names
/// of its wildcards rise, and what makes its inputs comes before it. The duties can be done: what is kept is below `first`, and what a job that is restored reads
/// is below what it keeps and isn't drawn in this run. The commands of jobs that are due have no fault. An input that nothing is known of counts as a source.
pub fn run_jobs<W: Crew, O: Sink, Rt: Threads + Sync>(
    rt: &Rt,
    alloc: Global,
    flow: &Workflow,
    jobs: &Jobs,
    agenda: &Agenda,
    cores: u64,
    work: &mut W,
    out: &mut O,
) -> Result<Tally, Fault>
    requires none_runs { (W.device work.old).running ≡ [] }
    requires runnable { AreRunnable jobs.now }
    requires positive { IsOld agenda.now.first 0 }
    requires servable { AreServable agenda.now.first jobs.now agenda.now.duties }
    requires good { AreGood flow.now cores (due agenda.now.first agenda.now.duties jobs.now.jobs) }
    ensures { HasRun W.act flow.now cores (due agenda.now.first agenda.now.duties jobs.now.jobs) (serials jobs.now.makers agenda.now.first agenda.now.duties) result
        (W.device work.old) (W.device work.new) (O.sunk out.old) (O.sunk out.new) }
{
    let Ok(serials) = serials_of(alloc, agenda.first, agenda.duties.as_slice()) else {
        return Err(Fault::OutOfMemory);
    };
    let Ok(made) = made_by(alloc, jobs.makers.as_slice(), serials.as_slice()) else {
        return Err(Fault::OutOfMemory);
    };
    run_all(
        rt,
        alloc,
        flow,
        &made,
        serials.as_slice(),
        agenda.duties.as_slice(),
        cores,
        jobs.jobs.as_slice(),
        work,
        out,
    )
}
