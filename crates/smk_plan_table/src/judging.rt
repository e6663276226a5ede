//! What is judged of jobs at a moment at which no child runs.

ghost use Rattle.std.specs.Prelude.{◌≡◌, map, None, IfOk};
ghost use Rattle.std.specs.List.{AllZip};
ghost use Rattle.smk_world.specs.Trees.{among};
ghost use Rattle.smk_store.specs.Images.{Image};
ghost use Rattle.smk_plan.specs.Sights.{wholes_of};
ghost use Rattle.smk_plan.specs.States.{job_path};
ghost use Rattle.smk_plan_states.specs.Judged.{AreJudged};
ghost use Rattle.smk_plan_states.specs.Tables.{IsTableOf};
ghost use Rattle.smk_plan_table.specs.Parts.{IsSuspectOf};
ghost use Rattle.smk_plan_table.specs.Plans.{Agree, at_rest};

use crate::begun::begun_of;
use crate::suspects::{Suspect, suspects_of};
use smk_base::{List, OutOfMemory, PathText};
use smk_chain::Jobs;
use smk_flow::Job;
use smk_pick::Settings;
use smk_plan::{Loaded, Seen, Wholes};
use smk_plan_facts::{facts, forced_of, wholes};
use smk_plan_states::{Judged, Table};
use smk_store::Store;
use smk_trigger::{Plain, State, all_reasons};
use std::alloc::Global;
use std::thread::Threads;

/// What is told of jobs before their states are: what is judged of them, what is whole, their table, which of them have begun, and what may be refused of each.
#[derive(Drop)]
pub(crate) struct Basis {
    pub(crate) judged: Judged,
    pub(crate) wholes: Wholes,
    pub(crate) table: Table,
    pub(crate) begun: Vec<bool>,
    pub(crate) suspects: Vec<Suspect>,
}

// No state for each job.
fn none_running(alloc: Global, jobs: &[Job]) -> Result<List<Option<State>>, OutOfMemory>
    ensures { IfOk result (λ none. none ≡ map (λ j. None) jobs.now) }
{
    let mut none = List::new(alloc);
    for _job in jobs {
        none.push(None)?;
    }
    Ok(none)
}

/// What is told of these jobs, of which none runs and those with the first outputs `ran` have begun.
pub(crate) fn judge<Rt: Threads + Sync>(
    rt: &Rt,
    alloc: Global,
    jobs: &Jobs,
    store: &Store,
    seen: &Seen,
    settings: &Settings,
    ran: &List<PathText>,
) -> Result<Basis, OutOfMemory>
    ensures judged { IfOk result (λ made. (image : Image) → Agree image jobs.now store.now seen.now settings.now.targets
        → AreJudged (at_rest image settings.now ran.now) jobs.now made.judged) }
    ensures wholes { IfOk result (λ made. (image : Image) → Agree image jobs.now store.now seen.now settings.now.targets → made.wholes ≡ wholes_of image jobs.now) }
    ensures table { IfOk result (λ made. IsTableOf jobs.now settings.now.targets made.table) }
    ensures begun { IfOk result (λ made. made.begun.items ≡ map (λ j. among ran.now (job_path j)) jobs.now.jobs) }
    ensures suspects { IfOk result (λ made. AllZip (IsSuspectOf store.now seen.now settings.now.bounds) jobs.now.jobs made.suspects.items) }
{
    let facts = facts(alloc, jobs, store, seen, settings, ran)?;
    let wholes = wholes(alloc, jobs, store, seen)?;
    let reasons = all_reasons(rt, alloc, &facts, &Plain)?;
    let forced = forced_of(alloc, facts.as_slice())?;
    let running = none_running(alloc, jobs.jobs.as_slice())?;
    let table = Table::of(alloc, jobs, &settings.targets)?;
    let begun = begun_of(alloc, jobs.jobs.as_slice(), ran.as_slice())?;
    let told = Loaded { store, seen };
    let suspects = suspects_of(alloc, &told, &settings.bounds, jobs.jobs.as_slice())?;
    Ok(Basis {
        judged: Judged {
            reasons,
            forced,
            running,
        },
        wholes,
        table,
        begun,
        suspects,
    })
}
