//! What is to be done with each job.

ghost use Rattle.std.specs.Prelude.{◌≡◌, [], List as Items, length, IfOk};
ghost use Rattle.smk_world.specs.Trees.{Path};
ghost use Rattle.smk_pick.specs.declared.settings.Settings.{Settings as SettingsValue};
ghost use Rattle.smk_store.specs.Images.{Image};
ghost use Rattle.smk_store.specs.Loading.{IsStoreOf};
ghost use Rattle.smk_store.specs.Serials.{next_serial};
ghost use Rattle.smk_plan.specs.Duties.{AreFor, AreServable, IsOld};
ghost use Rattle.smk_plan_duties.specs.Choosing.{duties_in, duty_by, is_able, resting, restoring};
ghost use Rattle.smk_plan_duties.specs.Meaning.{AreMeant, IsPlanned};
ghost use Rattle.smk_plan_duties.specs.Numbers.{is_able_by};

use crate::numbers::numbers_of;
use crate::serials::{are_inputs_below, is_old, made_of};
use smk_base::{List, OutOfMemory};
use smk_chain::Jobs;
use smk_flow::Job;
use smk_plan::Duty;
use smk_store::Store;
use smk_trigger::State;
use std::alloc::Global;
use std::collections::BTreeMap;

// What is done with a job that rests with this serial.
fn resting(first: Option<u64>, made: Option<u64>) -> Duty
    ensures { result ≡ resting first made }
{
    match made {
        None => Duty::Rest(0),
        Some(made) => {
            if is_old(first, made) {
                Duty::Rest(made)
            } else {
                Duty::Rest(0)
            }
        }
    }
}

// Whether the job can be run again with this serial, after jobs with these duties.
fn is_able(
    numbers: &BTreeMap<String, Option<u32>>,
    duties: &[Duty],
    first: Option<u64>,
    job: &Job,
    made: u64,
) -> bool
    ensures { result ≡ is_able_by first numbers.now duties.now job.now made }
{
    made >= 1
        && is_old(first, made)
        && are_inputs_below(numbers, duties, made, job.recipe.inputs.as_slice())
}

// What is done with a job that is run again, after jobs with these duties.
fn restoring(
    numbers: &BTreeMap<String, Option<u32>>,
    duties: &[Duty],
    first: Option<u64>,
    job: &Job,
    made: Option<u64>,
) -> Duty
    ensures { result ≡ restoring (is_able_by first numbers.now) duties.now job.now made }
{
    match made {
        None => Duty::Run,
        Some(made) => {
            if is_able(numbers, duties, first, job, made) {
                Duty::Restore(made)
            } else {
                Duty::Run
            }
        }
    }
}

// What is done with the job in this state, after jobs with these duties.
fn duty_of(
    numbers: &BTreeMap<String, Option<u32>>,
    store: &Store,
    duties: &[Duty],
    first: Option<u64>,
    job: &Job,
    state: &State,
) -> Duty
    ensures { result ≡ duty_by first (is_able_by first numbers.now) store.now duties.now job.now state.now }
{
    let made = made_of(store, job);
    match state {
        State::Open => resting(first, made),
        State::Dirty(_) => Duty::Run,
        State::Restore => restoring(numbers, duties, first, job, made),
        State::Clean => resting(first, made),
    }
}

// What is done with the jobs in these states.
fn all_duties(
    alloc: Global,
    numbers: &BTreeMap<String, Option<u32>>,
    store: &Store,
    first: Option<u64>,
    jobs: &[Job],
    states: &[State],
) -> Result<List<Duty>, OutOfMemory>
    ensures { IfOk result (λ duties. duties ≡ duties_in first (is_able_by first numbers.now) store.now [] jobs.now states.now) }
{
    let mut duties = List::new(alloc);
    let mut rest = states;
    for job in jobs {
        let Some((state, later)) = rest.split_first() else {
            return Ok(duties);
        };
        let duty = duty_of(numbers, store, duties.as_slice(), first, job, state);
        duties.push(duty)?;
        rest = later;
    }
    Ok(duties)
}

// What is done with the jobs in these states, by their makers.
fn told_duties(
    alloc: Global,
    jobs: &Jobs,
    states: &List<State>,
    store: &Store,
    first: Option<u64>,
) -> Result<List<Duty>, OutOfMemory>
    ensures { IfOk result (λ duties. duties ≡ duties_in first (is_able first jobs.now.makers) store.now [] jobs.now.jobs states.now) }
{
    let numbers = numbers_of(alloc, jobs.makers.as_slice())?;
    all_duties(
        alloc,
        &numbers,
        store,
        first,
        jobs.jobs.as_slice(),
        states.as_slice(),
    )
}

/// What a run is to do with each job, in plan order, by their states, where it draws serials from the first one on. A job that is Clean or Open rests, one that
/// is Dirty is run, and a Restore is run again with the serial of its record. `OutOfMemory` where there is no memory for the answer.
///
/// Whatever the store and the states are, all of it can be done: where the serials of the records aren't as a run keeps them, a Restore is run as a job that is Dirty,
/// and a job that rests does so with the serial 0. Neither comes where the states are those of a plan over the image of which the store is.
pub fn duties_of(
    alloc: Global,
    jobs: &Jobs,
    states: &List<State>,
    store: &Store,
    first: Option<u64>,
) -> Result<List<Duty>, OutOfMemory>
    requires lengths { length states.now ≡ length jobs.now.jobs }
    requires positive { IsOld first 0 }
    ensures servable { IfOk result (AreServable first jobs.now) }
    ensures states { IfOk result (AreFor states.now) }
    ensures told { IfOk result (λ duties. (image : Image) (settings : SettingsValue) (ran : Items Path) (asked : Items Path) → IsStoreOf image store.now → first ≡ next_serial store.now
        → IsPlanned image settings ran jobs.now asked states.now → AreMeant image jobs.now.jobs states.now duties) }
{
    told_duties(alloc, jobs, states, store, first)
}
