//! Jobs are run, and the run is reported.

ghost use Rattle.std.specs.Prelude.{◌≡◌, Some, Ok, [], length, IfErr, false};
ghost use Rattle.smk_report.specs.declared.fault.Fault.{Fault as FaultValue};
ghost use Rattle.smk_chain_walk.specs.Links.{AreLower};
ghost use Rattle.smk_plan.specs.Duties.{AreServable, IsOld};
ghost use Rattle.smk_run.specs.Duties.{due};
ghost use Rattle.smk_run.specs.Reports.{HasReported};
ghost use Rattle.smk_plan.specs.Runnable.{AreRunnable};
ghost use Rattle.smk_run.specs.Runs.{AreGood, is_device, is_output};
ghost use Rattle.smk_make.specs.After.{IsAfter};
ghost use Rattle.smk_make.specs.Closing as closing;
ghost use Rattle.smk_make.specs.Faults as faults;
ghost use Rattle.smk_make.specs.Making.{Concludes, IsClosing, IsFit, HasMade, HasCarriedOut, GoesOn};

use crate::Planned;
use crate::after::after_run;
use crate::closing::close_report;
use smk_base::{List, OutOfMemory, PathText};
use smk_chain::Jobs;
use smk_flow::Workflow;
use smk_plan::Duty;
use smk_plan_duties::duties_of;
use smk_report::Fault;
use smk_run::{Agenda, Tally, run_jobs};
use smk_store::steady;
use smk_world::{Crew, Sink};
use std::alloc::Global;
use std::thread::Threads;

// The answer of a run that came to its end.
fn answer(tally: Tally) -> Result<(), Fault>
    ensures { result ≡ closing.answer_of tally }
{
    match tally.first {
        None => Ok(()),
        Some(fault) => Err(fault),
    }
}

// Reports the end of a run.
fn report_end<O: Sink>(
    alloc: Global,
    targets: &List<PathText>,
    jobs: &Jobs,
    duties: &List<Duty>,
    tally: &Tally,
    out: &mut O,
) -> Result<(), Fault>
    requires lower { AreLower 0 jobs.now.befores }
    ensures told { HasReported (IsClosing jobs.now targets.now tally.now (IsAfter duties.now jobs.now.befores tally.now) result) (O.sunk out.old) (O.sunk out.new) (is_output result) }
    ensures faults { IfErr result faults.IsOfReport }
{
    let Ok(after) = after_run(alloc, duties.as_slice(), jobs.befores.as_slice(), tally) else {
        return Err(Fault::OutOfMemory);
    };
    close_report(
        alloc,
        jobs.makers.as_slice(),
        after.as_slice(),
        targets,
        tally,
        out,
    )
}

// Reports the end of a run, and answers.
fn conclude<O: Sink>(
    alloc: Global,
    targets: &List<PathText>,
    jobs: &Jobs,
    duties: &List<Duty>,
    tally: Tally,
    out: &mut O,
) -> Result<(), Fault>
    requires lower { AreLower 0 jobs.now.befores }
    requires job_failed { (f : FaultValue) → tally.first ≡ Some f → faults.IsOfJob f }
    ensures concluded { Concludes (Ok tally) result }
    ensures told { HasReported (IsClosing jobs.now targets.now tally (IsAfter duties.now jobs.now.befores tally) result) (O.sunk out.old) (O.sunk out.new) (is_output result) }
    ensures no_device { is_device result ≡ false }
{
    match report_end(alloc, targets, jobs, duties, &tally, out) {
        Err(fault) => Err(fault),
        Ok(()) => answer(tally),
    }
}

// Runs the jobs by these duties, and reports them and the targets.
fn run<W: Crew, O: Sink, Rt: Threads + Sync>(
    rt: &Rt,
    alloc: Global,
    flow: &Workflow,
    targets: &List<PathText>,
    jobs: &Jobs,
    agenda: &Agenda,
    cores: u64,
    work: &mut W,
    out: &mut O,
) -> Result<(), Fault>
    requires none_runs { (W.device work.old).running ≡ [] }
    requires runnable { AreRunnable jobs.now }
    requires lower { AreLower 0 jobs.now.befores }
    requires each { length agenda.now.duties ≡ length jobs.now.befores }
    requires positive { IsOld agenda.now.first 0 }
    requires servable { AreServable agenda.now.first jobs.now agenda.now.duties }
    requires good { AreGood flow.now cores (due agenda.now.first agenda.now.duties jobs.now.jobs) }
    ensures { HasMade W.act flow.now cores targets.now jobs.now agenda.now.first agenda.now.duties result (W.device work.old) (W.device work.new) (O.sunk out.old) (O.sunk out.new) }
{
    match run_jobs(rt, alloc, flow, jobs, agenda, cores, work, out) {
        Err(fault) => Err(fault),
        Ok(tally) => conclude(alloc, targets, jobs, &agenda.duties, tally, out),
    }
}

// Finds the duties, and runs the jobs by them.
fn serve<W: Crew, O: Sink, Rt: Threads + Sync>(
    rt: &Rt,
    alloc: Global,
    flow: &Workflow,
    targets: &List<PathText>,
    plan: &Planned<'_>,
    cores: u64,
    work: &mut W,
    out: &mut O,
) -> Result<(), Fault>
    requires none_runs { (W.device work.old).running ≡ [] }
    requires fit { IsFit flow.now cores plan.now.jobs.now plan.now.states.now }
    ensures { GoesOn W.act flow.now cores targets.now plan.now.jobs.now plan.now.states.now plan.now.store.now result
        (W.device work.old) (W.device work.new) (O.sunk out.old) (O.sunk out.new) (Ok tt) }
{
    let first = plan.store.next_serial();
    let Ok(duties) = duties_of(alloc, plan.jobs, plan.states, plan.store, first) else {
        return Err(Fault::OutOfMemory);
    };
    let agenda = Agenda { duties, first };
    run(
        rt, alloc, flow, targets, plan.jobs, &agenda, cores, work, out,
    )
}

/// Makes what was planned: makes firm what was found of earlier runs, runs the jobs that are Dirty or to be restored, one after another in plan order, and
/// reports them; and at the end, for each target whether it is current, and how many jobs were started, done and failed. A job that is Dirty draws a new
/// serial, one that is restored keeps its own. After a job that failed none is started.
///
/// The fault of the first job that failed; `Serials` where a job's turn comes and there is no serial for it; `TooLong` where its record would be too long; `NoInput`
/// where a source is gone; `Device` where the device failed; `Output` where the sink failed; `OutOfMemory`.
///
/// No child runs before. The jobs can be run and come after those that they need, there is a state for each, and the commands of those that are to run have
/// no fault.
pub fn make<W: Crew, O: Sink, Rt: Threads + Sync>(
    rt: &Rt,
    alloc: Global,
    flow: &Workflow,
    targets: &List<PathText>,
    plan: &Planned<'_>,
    cores: u64,
    work: &mut W,
    out: &mut O,
) -> Result<(), Fault>
    requires none_runs { (W.device work.old).running ≡ [] }
    requires fit { IsFit flow.now cores plan.now.jobs.now plan.now.states.now }
    ensures { HasCarriedOut W.act flow.now cores targets.now plan.now.jobs.now plan.now.states.now plan.now.store.now result
        (W.device work.old) (W.device work.new) (O.sunk out.old) (O.sunk out.new) }
{
    match steady(alloc, work, plan.store) {
        Err(fault) => Err(Fault::from(fault)),
        Ok(()) => serve(rt, alloc, flow, targets, plan, cores, work, out),
    }
}
