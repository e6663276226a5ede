//! What is refused of a plan, as the fault of a run.

ghost use Rattle.std.specs.Prelude.{◌≡◌, ◌≢◌, ◌⊎◌, [], false, true, map, None, Some, zip, IfErr, IfOk, OnOk};
ghost use Rattle.std.specs.List.{list_all};
ghost use Rattle.smk_report.specs.declared.fault.Fault.TheVariants as fault;
ghost use Rattle.smk_plan_live.specs.declared.base.Base.{Base};
ghost use Rattle.smk_plan_live.specs.Commands.{has_command};
ghost use Rattle.smk_plan_live.specs.Lives.{IsLive, IsRefusedNow};
ghost use Rattle.smk_drive_step.specs.Crews.{is_device};
ghost use Rattle.smk_laws_turns.specs.Resting.{IsAnswerOf, IsReplyOf, IsTold, looked_as, refused_command};

use smk_base::{List, OutOfMemory};
use smk_flow::Workflow;
use smk_format::check_commands;
use smk_pick::Settings;
use smk_plan::PlanFault;
use smk_plan_live::{LivePlan, Phase};
use smk_plan_preview::of_plan;
use smk_report::Fault;
use smk_trigger::State;
use std::alloc::Global;

// The state by which the command of a job is looked at that has come so far.
fn looked_as(state: &State, phase: Phase) -> State
    ensures { result ≡ looked_as (state.now, phase) }
{
    match (state, phase) {
        (State::Open, _) => State::Open,
        (State::Clean, _) => State::Clean,
        (State::Dirty(_) | State::Restore, Phase::Waiting) => State::Restore,
        (State::Dirty(_) | State::Restore, Phase::Running | Phase::Closed) => State::Clean,
    }
}

// Those of the jobs that have these states and have come so far.
fn looked_states(
    alloc: Global,
    states: &[State],
    phases: &[Phase],
) -> Result<List<State>, OutOfMemory>
    ensures { IfOk result (λ looked. looked ≡ map looked_as (zip states.now phases.now)) }
{
    let mut looked = List::new(alloc);
    for (number, state) in states.iter().enumerate() {
        let Some(phase) = phases.get(number) else {
            return Ok(looked);
        };
        looked.push(looked_as(state, *phase))?;
    }
    Ok(looked)
}

// `OutOfMemory` where a directory has become known: the plan doesn't grow.
fn check_grown(live: &LivePlan) -> Result<(), Fault>
    ensures ok { OnOk result (live.now.plan.known ≡ []) }
    ensures err { IfErr result (λ f. f ≡ fault.OutOfMemory) }
{
    if live.known().is_empty() {
        Ok(())
    } else {
        Err(Fault::OutOfMemory)
    }
}

// Whether all jobs are seen to have commands, for as many cores as are set.
fn have_commands(settings: &Settings, live: &LivePlan) -> bool
    requires live { IsLive live.now }
    ensures { result ≡ true → list_all (has_command settings.now.cores) live.now.base.jobs.jobs ≡ true }
{
    live.settings().cores == settings.cores && live.has_commands()
}

// Whether nothing is refused of the commands of the plan's jobs. They are filled in only where not all jobs are seen to have one.
fn check_jobs(
    alloc: Global,
    flow: &Workflow,
    settings: &Settings,
    live: &LivePlan,
) -> Result<(), Fault>
    requires live { IsLive live.now }
    ensures commands { OnOk result (refused_command flow.now settings.now live.now ≡ None) }
    ensures err { IfErr result (λ f. (f ≡ fault.OutOfMemory) ⊎ (refused_command flow.now settings.now live.now ≡ Some f)) }
{
    if have_commands(settings, live) {
        return Ok(());
    }
    let states = live.states(alloc)?;
    let looked = looked_states(alloc, states.as_slice(), live.phases())?;
    check_commands(alloc, flow, settings.cores, &live.jobs().jobs, &looked)?;
    Ok(())
}

/// Whether nothing is refused of the commands of the plan's jobs, where those of jobs that have begun aren't looked at any more but for their fields. The fault is the
/// first that is; or `OutOfMemory`.
pub fn check_texts(
    alloc: Global,
    flow: &Workflow,
    settings: &Settings,
    live: &LivePlan,
) -> Result<(), Fault>
    requires live { IsLive live.now }
    ensures commands { OnOk result (refused_command flow.now settings.now live.now ≡ None) }
    ensures err { IfErr result (λ f. (f ≡ fault.OutOfMemory) ⊎ (refused_command flow.now settings.now live.now ≡ Some f)) }
    ensures quiet { IfErr result (λ f. (is_device f ≡ false) × (f ≢ fault.Output)) }
{
    check_jobs(alloc, flow, settings, live)
}

/// Whether the plan may go on: nothing is refused of its commands; and no directory has become known. The fault is the first of the commands; or `OutOfMemory`, also
/// where a directory has become known.
pub fn check_plan(
    alloc: Global,
    flow: &Workflow,
    settings: &Settings,
    live: &LivePlan,
) -> Result<(), Fault>
    requires live { IsLive live.now }
    ensures commands { OnOk result (refused_command flow.now settings.now live.now ≡ None) }
    ensures known { OnOk result (live.now.plan.known ≡ []) }
    ensures err { IfErr result (λ f. (f ≡ fault.OutOfMemory) ⊎ (refused_command flow.now settings.now live.now ≡ Some f)) }
{
    check_texts(alloc, flow, settings, live)?;
    check_grown(live)
}

/// What a run makes of what the kept plan answered as it was told of a beginning, or of an output that was removed: the fault of the plan; or the plan goes on, or a
/// fault of its commands. No directory becomes known by these.
pub fn answer_of(
    alloc: Global,
    flow: &Workflow,
    settings: &Settings,
    live: &LivePlan,
    told: Result<(), PlanFault>,
) -> Result<(), Fault>
    requires live { IsLive live.now }
    ensures quiet { IfErr result (λ f. (is_device f ≡ false) × (f ≢ fault.Output)) }
    ensures answer { (base : Base) → OnOk told (IsTold settings.now base live.now)
        → IfErr told (λ refusal. refusal ≢ PlanFault.OutOfMemory → IsRefusedNow settings.now base refusal) → IsAnswerOf flow.now settings.now base live.now result }
{
    match told {
        Ok(()) => check_plan(alloc, flow, settings, live),
        Err(refusal) => Err(of_plan(alloc, flow, refusal)),
    }
}

/// The same as it was told of an end: directories may have become known by that, so that the plan is to grow.
pub fn reply_of(
    alloc: Global,
    flow: &Workflow,
    settings: &Settings,
    live: &LivePlan,
    told: Result<(), PlanFault>,
) -> Result<(), Fault>
    requires live { IsLive live.now }
    ensures quiet { IfErr result (λ f. (is_device f ≡ false) × (f ≢ fault.Output)) }
    ensures commands { OnOk result (refused_command flow.now settings.now live.now ≡ None) }
    ensures reply { (base : Base) → OnOk told (IsTold settings.now base live.now)
        → IfErr told (λ refusal. refusal ≢ PlanFault.OutOfMemory → IsRefusedNow settings.now base refusal) → IsReplyOf flow.now settings.now base live.now result }
{
    match told {
        Ok(()) => check_texts(alloc, flow, settings, live),
        Err(refusal) => Err(of_plan(alloc, flow, refusal)),
    }
}
