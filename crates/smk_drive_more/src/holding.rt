//! Whether something is known of what running jobs restore.

ghost use Rattle.std.specs.Prelude.{◌≡◌, zip};
ghost use Rattle.std.specs.List.{list_all};
ghost use Rattle.smk_trigger.specs.JobStates as states;
ghost use Rattle.smk_plan.specs.States.{test_some};
ghost use Rattle.smk_laws_turns.specs.Growing as growing;

use smk_flow::Job;
use smk_plan::Told;
use smk_plan_live::LivePlan;
use smk_trigger::State;
use smk_world::{Out, OutItem};

// Whether something is known of each of these outputs.
fn are_known<T: Told>(told: &T, outs: &[Out]) -> bool
    ensures { result ≡ list_all (growing.is_known_in (T.known told.now)) outs.now }
{
    for out in outs {
        if told.kept(&out.path).is_none() {
            return false;
        }
    }
    true
}

// So of each output of these items.
fn are_items_known<T: Told>(told: &T, items: &[OutItem]) -> bool
    ensures { result ≡ list_all (growing.are_known_in (T.known told.now)) items.now }
{
    for item in items {
        if !are_known(told, item.outs.as_slice()) {
            return false;
        }
    }
    true
}

// Whether a job that began with the state, if its child runs, is to restore.
fn restores(began: &Option<State>) -> bool
    ensures { result ≡ test_some states.is_restore began.now }
{
    match began {
        Some(state) => matches!(state, State::Restore),
        None => false,
    }
}

// Whether the job, whose child runs from this state, if it does, doesn't restore, or something is known of each of its outputs.
fn is_held<T: Told>(told: &T, job: &Job, began: &Option<State>) -> bool
    ensures { result ≡ growing.is_held (T.known told.now) (job.now, began.now) }
{
    if !restores(began) {
        return true;
    }
    are_items_known(told, job.recipe.outputs.as_slice())
}

// So of each of the jobs.
fn are_jobs_held<T: Told>(told: &T, jobs: &[Job], began: &[Option<State>]) -> bool
    ensures { result ≡ list_all (growing.is_held (T.known told.now)) (zip jobs.now began.now) }
{
    for (number, job) in jobs.iter().enumerate() {
        let Some(began) = began.get(number) else {
            return true;
        };
        if !is_held(told, job, began) {
            return false;
        }
    }
    true
}

/// Whether something is known of each output of the jobs that run as Restores.
pub(crate) fn are_held(live: &LivePlan) -> bool
    ensures { result ≡ growing.are_held live.now.base }
{
    are_jobs_held(live.told(), live.jobs().jobs.as_slice(), live.ran_from())
}
