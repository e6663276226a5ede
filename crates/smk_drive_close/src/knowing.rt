//! The plan is told of the end of a job.

ghost use Rattle.std.specs.Prelude.{◌≡◌, ◌≢◌, ◌⊎◌, IfErr, IfOk, None, OnOk, Some, false, true};
ghost use Rattle.std.specs.List.{slice_get};
ghost use Rattle.smk_flow.specs.declared.job.Job.{Job as JobValue};
ghost use Rattle.smk_world.specs.Calls.{HasOwners};
ghost use Rattle.smk_world.specs.Devices.{HasActed, HasLooked, WhereTold};
ghost use Rattle.smk_world.specs.World.{out_paths};
ghost use Rattle.smk_plan_live.specs.Lives.{IsLive};
ghost use Rattle.smk_plan_live.specs.declared.phase.Phase.TheVariants.{Running};
ghost use Rattle.smk_drive_course.specs.Driven.{device_failed};
ghost use Rattle.smk_drive_outcome.specs.Outcomes.{AreForPaths};
ghost use Rattle.smk_drive_step.specs.Crews.{is_device};
ghost use Rattle.smk_laws_turns.specs.Resting.{IsReplyOf, refused_command};
ghost use Rattle.smk_laws_closes.specs.Learning.{HasLearntOf, IsOutcomeIn, IsSamePlan, closed_base};
ghost use Rattle.smk_report.specs.declared.fault.Fault.TheVariants as fault;

use crate::tending::job_at;
use smk_drive_hub::reply_of;
use smk_drive_outcome::{Outcome, outcome_of};
use smk_drive_step::work_fault;
use smk_flow::{Job, Workflow};
use smk_pick::Settings;
use smk_plan_live::{LivePlan, Phase};
use smk_report::Fault;
use smk_trigger::Plain;
use smk_world::Files;
use std::alloc::Global;

// Whether the job of the number runs by the plan.
fn is_running(live: &LivePlan, number: u32) -> bool
    ensures { result ≡ true → slice_get live.now.base.phases number ≡ Some Running }
{
    match live.phase(number) {
        Some(phase) => matches!(phase, Phase::Running),
        None => false,
    }
}

// What is known of the outputs of the job, and what stands there.
fn outcome<W: Files>(alloc: Global, job: &Job, work: &mut W) -> Result<Outcome, Fault>
    ensures looked { HasLooked W.act (W.device work.old) (W.device work.new) (device_failed result) }
    ensures each { IfOk result (AreForPaths (out_paths job.now.recipe)) }
    ensures told { IfOk result (λ o. WhereTold (W.device work.old) (IsOutcomeIn job.now o)) }
    ensures err { IfErr result (λ f. (f ≡ fault.Device) ⊎ (f ≡ fault.OutOfMemory)) }
{
    match outcome_of(alloc, work, job) {
        Ok(outcome) => Ok(outcome),
        Err(why) => Err(work_fault(why)),
    }
}

// Tells the plan that the job of the number, which is this one, was closed, of whose outputs this is told. `OutOfMemory` also where it doesn't run by the plan.
fn tell(
    alloc: Global,
    flow: &Workflow,
    settings: &Settings,
    live: &mut LivePlan,
    number: u32,
    outcome: Outcome,
) -> Result<(), Fault>
    requires live { IsLive live.old }
    requires rows { (j : JobValue) → slice_get live.old.base.jobs.jobs number ≡ Some j → AreForPaths (out_paths j.recipe) outcome }
    ensures same { IsSamePlan live.old live.new }
    ensures reply { live.old.settings ≡ settings.now → IsReplyOf flow.now settings.now (closed_base number outcome live.old.base) live.new result }
    ensures commands { OnOk result (refused_command flow.now settings.now live.new ≡ None) }
    ensures other { IfErr result (λ f. (is_device f ≡ false) × (f ≢ fault.Output)) }
{
    if !is_running(live, number) {
        return Err(Fault::OutOfMemory);
    }
    let told = live.closed(alloc, number, outcome.entries, outcome.sights, &Plain);
    reply_of(alloc, flow, settings, live, told)
}

/// Goes by the end of the job of the number, if there is one: the plan is told of it, and what stands at its outputs.
///
/// The fault is the first that is refused of the plan that comes; or `Device`, where the device failed, or `OutOfMemory`.
pub(crate) fn learn<W: Files>(
    alloc: Global,
    flow: &Workflow,
    settings: &Settings,
    live: &mut LivePlan,
    number: u32,
    work: &mut W,
) -> Result<(), Fault>
    requires live { IsLive live.old }
    ensures same { IsSamePlan live.old live.new }
    ensures commands { OnOk result (refused_command flow.now settings.now live.new ≡ None) }
    ensures acted { HasActed W.act (HasLearntOf flow.now settings.now number live.old live.new result) (W.device work.old) (W.device work.new) (device_failed result) }
    ensures other { IfErr result (λ f. f ≢ fault.Output) }
{
    let Some(job) = job_at(live, number) else {
        return Err(Fault::OutOfMemory);
    };
    match outcome(alloc, job, work) {
        Ok(outcome) => tell(alloc, flow, settings, live, number, outcome),
        Err(fault) => Err(fault),
    }
}
