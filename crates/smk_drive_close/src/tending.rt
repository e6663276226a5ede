//! What follows on the closing of a job: its outputs are made read-only, and the plan is told.

ghost use Rattle.std.specs.Prelude.{◌≡◌, ◌≢◌, IfErr, None, OnOk, option_map};
ghost use Rattle.std.specs.List.{slice_get};
ghost use Rattle.smk_world.specs.Devices.{HasActed};
ghost use Rattle.smk_keep.specs.Keeping.{keep_failed};
ghost use Rattle.smk_plan_live.specs.Lives.{IsLive};
ghost use Rattle.smk_report.specs.declared.fault.Fault.TheVariants as fault;
ghost use Rattle.smk_drive_course.specs.Driven.{device_failed};
ghost use Rattle.smk_drive_step.specs.Telling.{HasGuarded};
ghost use Rattle.smk_laws_turns.specs.Resting.{refused_command};
ghost use Rattle.smk_laws_closes.specs.Learning.{IsSamePlan};
ghost use Rattle.smk_laws_closes.specs.Tending.{HasTendedOf, guards_if};

use crate::knowing::learn;
use smk_drive_step::{Halt, guard_outputs, keep_fault};
use smk_flow::{Job, Workflow};
use smk_keep::KeepFault;
use smk_pick::Settings;
use smk_plan_live::LivePlan;
use smk_report::Fault;
use smk_world::Files;
use std::alloc::Global;

/// The job of the number, if there is one.
pub(crate) fn job_at(live: &LivePlan, number: u32) -> Option<&Job>
    ensures { option_map (λ j. j.now) result ≡ slice_get live.now.base.jobs.jobs number }
{
    live.jobs().jobs.as_slice().get(number as usize)
}

// Makes the outputs of the job of the number that are to be protected read-only, where it is done.
fn guard<W: Files>(
    alloc: Global,
    live: &LivePlan,
    number: u32,
    good: bool,
    work: &mut W,
) -> Result<(), KeepFault>
    ensures { HasActed W.act (HasGuarded (guards_if good (slice_get live.now.base.jobs.jobs number)) result) (W.device work.old) (W.device work.new)
        (keep_failed result) }
{
    let Some(job) = job_at(live, number) else {
        return Ok(());
    };
    if !good {
        return Ok(());
    }
    guard_outputs(alloc, work, &job.guards)
}

/// Makes the outputs of the job of the number read-only, where it is done, and tells the plan of its end, where no fault has come.
pub(crate) fn tend<W: Files>(
    alloc: Global,
    flow: &Workflow,
    settings: &Settings,
    halt: &Halt,
    live: &mut LivePlan,
    number: u32,
    good: bool,
    work: &mut W,
) -> Result<(), Fault>
    requires live { IsLive live.old }
    ensures same { IsSamePlan live.old live.new }
    ensures commands { OnOk result (halt.now.fault ≡ None → refused_command flow.now settings.now live.new ≡ None) }
    ensures acted { HasActed W.act (HasTendedOf flow.now settings.now number good halt.now.fault live.old live.new result) (W.device work.old) (W.device work.new)
        (device_failed result) }
    ensures other { IfErr result (λ f. f ≢ fault.Output) }
{
    match guard(alloc, live, number, good, work) {
        Ok(()) => {}
        Err(why) => return Err(keep_fault(why)),
    }
    if !halt.is_none() {
        return Ok(());
    }
    learn(alloc, flow, settings, live, number, work)
}
