//! A whole run.

ghost use Rattle.std.specs.Prelude.{◌≡◌, ◌&&◌, [], nat_eq, not, IfOk};
ghost use Rattle.smk_drive.specs.Moments.{Rules};
ghost use Rattle.smk_drive_course.specs.Driven.{HasDriven};
ghost use Rattle.smk_drive_first.specs.Opening.{AreRules};
ghost use Rattle.smk_drive_hub.specs.Keeping.{parts_of};
ghost use Rattle.smk_laws_begins.specs.Standing.{IsReady};
ghost use Rattle.smk_laws_begins.specs.Stepping.{HasRunOn, IsWithin};
ghost use Rattle.smk_laws_begins.specs.Whole.{HasConcluded};
ghost use Rattle.smk_drive_run.specs.Keeping as spec;

use crate::ending::{copy_flags, is_all_made, put_closing};
use crate::entering::enter;
use crate::looping::go_on;
use smk_base::{List, OutOfMemory};
use smk_drive_course::End;
use smk_drive_hub::{Ground, Hub};
use smk_drive_step::Halt;
use smk_flow::Workflow;
use smk_pick::Settings;
use smk_plan_live::LivePlan;
use smk_report::Fault;
use smk_run::Tally;
use smk_world::{Crew, Sink};
use std::alloc::Global;
use std::mem;
use std::thread::Threads;

// Whether no job has failed and not all is made. It can't be: then all jobs are Clean, and all targets current. `OutOfMemory` where there is no memory to tell.
fn is_unmade(alloc: Global, live: &LivePlan, tally: &Tally) -> Result<bool, OutOfMemory>
    ensures { IfOk result (λ unmade. unmade ≡ (nat_eq tally.now.failed 0 && not (spec.is_all_made live.now.plan.states live.now.plan.current))) }
{
    let states = live.states(alloc)?;
    let is_made = is_all_made(&states, live.current());
    Ok(tally.failed == 0 && !is_made)
}

// Tells the end of a run of this plan in which no fault has come, unless no job has failed and not all is made. The answer is which targets are current.
fn report_made<O: Sink>(
    alloc: Global,
    settings: &Settings,
    live: &LivePlan,
    tally: &Tally,
    unmade: bool,
    out: &mut O,
) -> Result<List<bool>, Fault>
    requires { unmade ≡ (nat_eq tally.now.failed 0 && not (spec.is_all_made live.now.plan.states live.now.plan.current)) }
    ensures { spec.HasTold settings.now.targets live.now tally.now (spec.ended_as tally.now result) (O.sunk out.old) (O.sunk out.new) }
{
    if unmade {
        return Err(Fault::OutOfMemory);
    }
    match copy_flags(alloc, live.current().as_slice()) {
        Ok(current) => match put_closing(alloc, &settings.targets, &current, tally, out) {
            Ok(()) => Ok(current),
            Err(fault) => Err(fault),
        },
        Err(OutOfMemory) => Err(Fault::OutOfMemory),
    }
}

// Tells the end of a run of this plan in which no fault has come. The answer is which targets are current.
fn report<O: Sink>(
    alloc: Global,
    settings: &Settings,
    live: &LivePlan,
    tally: &Tally,
    out: &mut O,
) -> Result<List<bool>, Fault>
    ensures { spec.HasTold settings.now.targets live.now tally.now (spec.ended_as tally.now result) (O.sunk out.old) (O.sunk out.new) }
{
    match is_unmade(alloc, live, tally) {
        Err(_) => Err(Fault::OutOfMemory),
        Ok(unmade) => report_made(alloc, settings, live, tally, unmade, out),
    }
}

// The same, and the answer is the end.
fn finish<O: Sink>(
    alloc: Global,
    settings: &Settings,
    live: &LivePlan,
    tally: Tally,
    out: &mut O,
) -> Result<End, Fault>
    ensures { spec.HasTold settings.now.targets live.now tally result (O.sunk out.old) (O.sunk out.new) }
{
    match report(alloc, settings, live, &tally, out) {
        Ok(current) => Ok(End {
            started: tally.started,
            done: tally.done,
            failed: tally.failed,
            first: tally.first,
            current,
        }),
        Err(fault) => Err(fault),
    }
}

// What a run has counted, which it doesn't keep.
fn take_tally(tally: &mut Tally) -> Tally
    ensures { result ≡ tally.old }
{
    let nothing = Tally {
        started: 0,
        done: 0,
        failed: 0,
        first: None,
    };
    mem::replace(tally, nothing)
}

// The first fault of a run, which it doesn't keep.
fn take_fault(halt: &mut Halt) -> Option<Fault>
    ensures { result ≡ halt.old.fault }
{
    mem::replace(halt, Halt::none()).into_fault()
}

// Tells the end of a run, and answers.
fn conclude<O: Sink>(
    alloc: Global,
    settings: &Settings,
    hub: &mut Hub,
    out: &mut O,
) -> Result<End, Fault>
    ensures { HasConcluded settings.now.targets (parts_of hub.old) result (O.sunk out.old) (O.sunk out.new) }
{
    match take_fault(&mut hub.halt) {
        Some(fault) => Err(fault),
        None => {
            let tally = take_tally(&mut hub.tally);
            finish(alloc, settings, &hub.live, tally, out)
        }
    }
}

// Goes on from a run's start to its end.
fn run<W: Crew, O: Sink, Rt: Threads + Sync>(
    rt: &Rt,
    alloc: Global,
    ground: Ground<'_>,
    hub: Hub,
    work: &mut W,
    out: &mut O,
) -> Result<End, Fault>
    requires ready { IsReady ground.flow.now ground.settings.now (parts_of hub) (W.device work.old) }
    requires within { IsWithin 0 (parts_of hub) }
    ensures { HasRunOn W.act ground.entry.flow.now ground.entry.settings.now (parts_of hub) result
        (W.device work.old) (W.device work.new) (O.sunk out.old) (O.sunk out.new) }
{
    let mut hub = hub;
    let _waited = go_on(rt, alloc, ground, &mut hub, work, out);
    let answer = conclude(alloc, ground.settings, &mut hub, out);
    // By a call, since a drop that stands here is proved for each kind of fault that may be kept.
    mem::drop(hub);
    answer
}

/// Makes the targets of the settings: plans, and begins the jobs that the plan has to be run or restored, side by side as far as cores and bounds
/// reach, each after those that make what it needs. Each start and each end is put on the sink, and after the last one a line for each target and the counts.
///
/// After a job that failed no job begins, unless the settings say that others go on. After a fault no job begins either: children that run are waited for, and
/// their jobs closed, but after one of the device they are only waited for, until a wait fails. The first fault counts: a refusal of one of the plans;
/// `Serials` or `TooLong` as a job's turn comes; `Device`, `Output`, `OutOfMemory`. A job's failure is no fault of the run: it is told by the answer.
///
/// No child runs before; and none after, unless the device failed.
pub fn drive<W: Crew, O: Sink, Rt: Threads + Sync>(
    rt: &Rt,
    alloc: Global,
    flow: &Workflow,
    settings: &Settings,
    work: &mut W,
    out: &mut O,
) -> Result<End, Fault>
    requires idle { (W.device work.old).running ≡ [] }
    ensures { (rules : Rules) → AreRules flow.now settings.now rules
        → HasDriven W.act rules result (W.device work.old) (W.device work.new) (O.sunk out.old) (O.sunk out.new) }
{
    let ground = Ground { flow, settings };
    match enter(rt, alloc, flow, settings, work) {
        Ok(hub) => run(rt, alloc, ground, hub, work, out),
        Err(fault) => Err(fault),
    }
}
