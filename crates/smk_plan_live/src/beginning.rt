//! How a job begins.

ghost use Rattle.std.specs.Prelude.{◌≡◌, ◌≢◌, ◌<◌, length, map, option_map, Some, IfOk, OnOk, OnErr, IfErr};
ghost use Rattle.std.specs.List.{slice_get};
ghost use Rattle.smk_plan_live.specs.Lives.{IsLive};
ghost use Rattle.smk_plan_live.specs.Carried.{has_name, marked_entry, begun_entry, gone_sight, nothing_at, begun_entries, gone_sights};
ghost use Rattle.smk_plan_live.specs.Changes.{HasBegun, IsRefusedBegun};
ghost use Rattle.smk_plan_live.specs.Steps.{IsStart};

use crate::base::Base;
use crate::now::entry_now;
use crate::outs::out_paths_in;
use crate::rows::Rows;
use crate::slots::Slots;
use crate::{LivePlan, Phase};
use smk_base::{OutOfMemory, PathText};
use smk_chain::first_output;
use smk_flow::Job;
use smk_plan::{PlanFault, Sight};
use smk_plan_facts::kept_again;
use smk_store::{Entry, Kept};
use smk_trigger::{Plain, State};
use smk_world::Stat;
use std::alloc::Global;

// The entry with a mark; a record only where it is valid.
fn marked_entry(alloc: Global, entry: Option<&Entry>) -> Result<Entry, OutOfMemory>
    ensures { IfOk result (λ marked. marked ≡ marked_entry (option_map (λ e. e.now) entry.entry)) }
{
    match entry {
        None => Ok(Entry {
            kept: Kept::Absent,
            marked: true,
            noted: false,
        }),
        Some(entry) => Ok(Entry {
            kept: kept_again(alloc, &entry.kept)?,
            marked: true,
            noted: entry.noted,
        }),
    }
}

// What is known of each of the outputs once their job has begun.
fn begun_entries(
    alloc: Global,
    base: &Base,
    paths: &[PathText],
) -> Result<Vec<Option<Entry>>, OutOfMemory>
    ensures { IfOk result (λ row. row.items ≡ map (begun_entry base.now) paths.now) }
{
    let mut row = Vec::new(alloc);
    for path in paths {
        let entry = marked_entry(alloc, entry_now(base, path))?;
        row.push(Some(entry))?;
    }
    Ok(row)
}

/// Nothing is seen at the path.
pub(crate) fn nothing_at(alloc: Global, path: &PathText) -> Result<Sight, OutOfMemory>
    ensures { IfOk result (λ sight. sight ≡ nothing_at path.now) }
{
    Ok(Sight {
        path: path.copy(alloc)?,
        stat: Stat::Nothing,
        members: None,
        guarded: false,
        sum: None,
    })
}

// Nothing is seen at each of the paths.
fn gone_sights(alloc: Global, paths: &[PathText]) -> Result<Vec<Option<Sight>>, OutOfMemory>
    ensures { IfOk result (λ row. row.items ≡ map gone_sight paths.now) }
{
    let mut row = Vec::new(alloc);
    for path in paths {
        let sight = nothing_at(alloc, path)?;
        row.push(Some(sight))?;
    }
    Ok(row)
}

// What is known and seen of the outputs of the job once it has begun.
fn begun_rows(alloc: Global, base: &Base, job: &Job) -> Result<Rows, OutOfMemory>
    ensures entries { IfOk result (λ rows. rows.entries ≡ begun_entries base.now job.now) }
    ensures sights { IfOk result (λ rows. rows.sights ≡ gone_sights job.now) }
{
    let paths = out_paths_in(alloc, job.recipe.outputs.as_slice())?;
    let entries = begun_entries(alloc, base, paths.as_slice())?;
    let sights = gone_sights(alloc, paths.as_slice())?;
    Ok(Rows {
        entries: Slots::of(entries),
        sights: Slots::of(sights),
    })
}

// A job that begins: the state that it has, and what is known and seen of its outputs from then on.
#[derive(Drop)]
pub(crate) struct Start {
    pub(crate) state: State,
    pub(crate) rows: Rows,
}

// The element of the number.
fn element<T>(elements: &[T], number: usize) -> &T
    requires { number < length elements.now }
    ensures { slice_get elements.now number ≡ Some result.now }
{
    &elements[number]
}

// Whether the job has an output to be named by.
fn has_name(job: &Job) -> bool
    ensures { result ≡ has_name job.now }
{
    first_output(job).is_some()
}

impl LivePlan {
    // How the job of the number begins.
    fn start_of(&self, alloc: Global, number: u32) -> Result<Start, OutOfMemory>
        requires { number < length self.now.base.jobs.jobs }
        ensures { IfOk result (IsStart self.now.base self.now.plan.states number) }
    {
        let job = element(self.base.jobs.jobs.as_slice(), number as usize);
        if !has_name(job) {
            return Err(OutOfMemory);
        }
        let Some(state) = self.state(alloc, number)? else {
            return Err(OutOfMemory);
        };
        let rows = begun_rows(alloc, &self.base, job)?;
        Ok(Start { state, rows })
    }

    /// The job has begun: its child runs, with the state that the job has. From now on its outputs are marked, and nothing stands at them.
    ///
    /// What is whole is told anew of it alone. Ranks are told anew of it and of the jobs that read what it makes, and of all
    /// where another job's rank changes or a Clean job lacks an output. The flags of all jobs are gone over, so the time is linear in the jobs and what they read and
    /// make, with no look-up by path but for those of these few jobs on whose reasons something hangs. No judge is asked but the plain one.
    ///
    /// The faults are those of a plan of that moment: the first thing that is refused of it. `OutOfMemory` where there is no memory for all this, or the job has no
    /// output to be named by. After any of them nothing is changed.
    pub fn began(&mut self, alloc: Global, job: u32) -> Result<(), PlanFault>
        requires live { IsLive self.old }
        requires waiting { slice_get self.old.base.phases job ≡ Some Phase.Waiting }
        ensures live { IsLive self.new }
        ensures ok { OnOk result (HasBegun job self.old self.new) }
        ensures err { OnErr result (self.new ≡ self.old) }
        ensures refused { IfErr result (λ fault. fault ≢ PlanFault.OutOfMemory → IsRefusedBegun job self.old fault) }
    {
        match self.start_of(alloc, job) {
            Err(_) => Err(PlanFault::OutOfMemory),
            Ok(start) => {
                let Start { state, rows } = start;
                let number = job as usize;
                self.advance(alloc, number, Phase::Running, Some(state), rows, &Plain)
            }
        }
    }
}
