//! What jobs keep as new ones come.

ghost use Rattle.std.specs.Prelude.{◌≡◌, map, option_map, None, IfOk};
ghost use Rattle.std.specs.List.{slice_get};
ghost use Rattle.std.specs.Option.{option_and_then};
ghost use Rattle.std.specs.BTreeMap.{get_by_text};
ghost use Rattle.smk_plan_live.specs.Now.{joined, entry_now, sight_now};
ghost use Rattle.smk_plan_live.specs.Carried.{copied_entry, if_first, origin, or_waiting, phase_from, began_from, entries_from, sights_from};

use crate::Phase;
use crate::base::Base;
use crate::children::state_if_any;
use crate::copies::sight_if_any;
use crate::now::{entry_now, sight_now, site_of};
use crate::outs::out_paths_in;
use crate::slots::Slots;
use smk_base::{OutOfMemory, PathText};
use smk_chain::first_output;
use smk_flow::Job;
use smk_plan::Sight;
use smk_plan_facts::kept_again;
use smk_store::Entry;
use smk_trigger::State;
use std::alloc::Global;

// A copy of the entry; a record only where it is valid.
fn entry_again(alloc: Global, entry: &Entry) -> Result<Entry, OutOfMemory>
    ensures { IfOk result (λ copy. copy ≡ copied_entry entry.now) }
{
    Ok(Entry {
        kept: kept_again(alloc, &entry.kept)?,
        marked: entry.marked,
        noted: entry.noted,
    })
}

// The same where there is one.
fn entry_if_any(alloc: Global, entry: Option<&Entry>) -> Result<Option<Entry>, OutOfMemory>
    ensures { IfOk result (λ copy. copy ≡ option_map copied_entry (option_map (λ e. e.now) entry.entry)) }
{
    match entry {
        None => Ok(None),
        Some(entry) => {
            let copy = entry_again(alloc, entry)?;
            Ok(Some(copy))
        }
    }
}

// What is known of each of the paths.
fn entries_again(
    alloc: Global,
    base: &Base,
    paths: &[PathText],
) -> Result<Vec<Option<Entry>>, OutOfMemory>
    ensures { IfOk result (λ row. row.items ≡ map (λ q. option_map copied_entry (entry_now base.now q)) paths.now) }
{
    let mut row = Vec::new(alloc);
    for path in paths {
        let entry = entry_if_any(alloc, entry_now(base, path))?;
        row.push(entry)?;
    }
    Ok(row)
}

// What was seen at each of the paths.
fn sights_again(
    alloc: Global,
    base: &Base,
    paths: &[PathText],
) -> Result<Vec<Option<Sight>>, OutOfMemory>
    ensures { IfOk result (λ row. row.items ≡ map (sight_now base.now) paths.now) }
{
    let mut row = Vec::new(alloc);
    for path in paths {
        let sight = sight_if_any(alloc, sight_now(base, path))?;
        row.push(sight)?;
    }
    Ok(row)
}

// The number of the job of which the path is the first output.
fn number_of(base: &Base, path: &PathText) -> Option<usize>
    ensures { result ≡ option_and_then if_first (get_by_text base.now.sites path.now) }
{
    match site_of(base, path) {
        None => None,
        Some(site) => {
            if site.place == 0 {
                Some(site.job)
            } else {
                None
            }
        }
    }
}

// The number that the job had before, by its first output.
fn origin(base: &Base, job: &Job) -> Option<usize>
    ensures { result ≡ origin base.now job.now }
{
    match first_output(job) {
        None => None,
        Some(path) => number_of(base, path),
    }
}

// The phase of the number.
fn phase_at(phases: &[Phase], number: usize) -> Phase
    ensures { result ≡ or_waiting (slice_get phases.now number) }
{
    match phases.get(number) {
        None => Phase::Waiting,
        Some(phase) => *phase,
    }
}

// How far the job had come.
fn phase_from(base: &Base, job: &Job) -> Phase
    ensures { result ≡ phase_from base.now job.now }
{
    match origin(base, job) {
        None => Phase::Waiting,
        Some(number) => phase_at(base.phases.as_slice(), number),
    }
}

// The state of the number.
fn began_at(began: &[Option<State>], number: usize) -> Result<Option<State>, OutOfMemory>
    ensures { IfOk result (λ state. state ≡ joined (slice_get began.now number)) }
{
    match began.get(number) {
        None => Ok(None),
        Some(state) => state_if_any(state),
    }
}

// The state that the job had when it began, if its child runs.
fn began_from(base: &Base, job: &Job) -> Result<Option<State>, OutOfMemory>
    ensures { IfOk result (λ state. state ≡ began_from base.now job.now) }
{
    match origin(base, job) {
        None => Ok(None),
        Some(number) => began_at(base.began.as_slice(), number),
    }
}

// What was known of the job's outputs, where it was there before.
fn entries_from(
    alloc: Global,
    base: &Base,
    job: &Job,
) -> Result<Option<Slots<Option<Entry>>>, OutOfMemory>
    ensures { IfOk result (λ row. row ≡ entries_from base.now job.now) }
{
    match origin(base, job) {
        None => Ok(None),
        Some(_) => {
            let paths = out_paths_in(alloc, job.recipe.outputs.as_slice())?;
            let row = entries_again(alloc, base, paths.as_slice())?;
            Ok(Some(Slots::of(row)))
        }
    }
}

// What was seen at the job's outputs, where it was there before.
fn sights_from(
    alloc: Global,
    base: &Base,
    job: &Job,
) -> Result<Option<Slots<Option<Sight>>>, OutOfMemory>
    ensures { IfOk result (λ row. row ≡ sights_from base.now job.now) }
{
    match origin(base, job) {
        None => Ok(None),
        Some(_) => {
            let paths = out_paths_in(alloc, job.recipe.outputs.as_slice())?;
            let row = sights_again(alloc, base, paths.as_slice())?;
            Ok(Some(Slots::of(row)))
        }
    }
}

// How far each of the jobs had come.
fn all_phases(alloc: Global, base: &Base, jobs: &[Job]) -> Result<Vec<Phase>, OutOfMemory>
    ensures { IfOk result (λ found. found.items ≡ map (phase_from base.now) jobs.now) }
{
    let mut found = Vec::new(alloc);
    for job in jobs {
        found.push(phase_from(base, job))?;
    }
    Ok(found)
}

// The state that each of the jobs had when it began, if its child runs.
fn all_began(alloc: Global, base: &Base, jobs: &[Job]) -> Result<Vec<Option<State>>, OutOfMemory>
    ensures { IfOk result (λ found. found.items ≡ map (began_from base.now) jobs.now) }
{
    let mut found = Vec::new(alloc);
    for job in jobs {
        let state = began_from(base, job)?;
        found.push(state)?;
    }
    Ok(found)
}

// What was known of the outputs of each of the jobs that was there before.
fn all_entries(
    alloc: Global,
    base: &Base,
    jobs: &[Job],
) -> Result<Vec<Option<Slots<Option<Entry>>>>, OutOfMemory>
    ensures { IfOk result (λ found. found.items ≡ map (entries_from base.now) jobs.now) }
{
    let mut found = Vec::new(alloc);
    for job in jobs {
        let row = entries_from(alloc, base, job)?;
        found.push(row)?;
    }
    Ok(found)
}

// What was seen at the outputs of each of the jobs that was there before.
fn all_sights(
    alloc: Global,
    base: &Base,
    jobs: &[Job],
) -> Result<Vec<Option<Slots<Option<Sight>>>>, OutOfMemory>
    ensures { IfOk result (λ found. found.items ≡ map (sights_from base.now) jobs.now) }
{
    let mut found = Vec::new(alloc);
    for job in jobs {
        let row = sights_from(alloc, base, job)?;
        found.push(row)?;
    }
    Ok(found)
}

/// For each job how far it has come, the state at its beginning, and what is known and was seen of its outputs.
#[derive(Drop)]
pub(crate) struct Rows {
    pub(crate) phases: Vec<Phase>,
    pub(crate) began: Vec<Option<State>>,
    pub(crate) entries: Vec<Option<Slots<Option<Entry>>>>,
    pub(crate) sights: Vec<Option<Slots<Option<Sight>>>>,
}

/// What the jobs that were there before had.
pub(crate) fn rows_from(alloc: Global, base: &Base, jobs: &[Job]) -> Result<Rows, OutOfMemory>
    ensures phases { IfOk result (λ rows. rows.phases.items ≡ map (phase_from base.now) jobs.now) }
    ensures began { IfOk result (λ rows. rows.began.items ≡ map (began_from base.now) jobs.now) }
    ensures entries { IfOk result (λ rows. rows.entries.items ≡ map (entries_from base.now) jobs.now) }
    ensures sights { IfOk result (λ rows. rows.sights.items ≡ map (sights_from base.now) jobs.now) }
{
    let phases = all_phases(alloc, base, jobs)?;
    let began = all_began(alloc, base, jobs)?;
    let entries = all_entries(alloc, base, jobs)?;
    let sights = all_sights(alloc, base, jobs)?;
    Ok(Rows {
        phases,
        began,
        entries,
        sights,
    })
}

// For each job that it waits.
fn waiting(alloc: Global, jobs: &[Job]) -> Result<Vec<Phase>, OutOfMemory>
    ensures { IfOk result (λ found. found.items ≡ map (λ j. Phase.Waiting) jobs.now) }
{
    let mut found = Vec::new(alloc);
    for _job in jobs {
        found.push(Phase::Waiting)?;
    }
    Ok(found)
}

// For each job that there is nothing.
fn nothing<T: Drop>(alloc: Global, jobs: &[Job]) -> Result<Vec<Option<T>>, OutOfMemory>
    ensures { IfOk result (λ found. found.items ≡ map (λ j. None) jobs.now) }
{
    let mut found = Vec::new(alloc);
    for _job in jobs {
        found.push(None)?;
    }
    Ok(found)
}

/// What jobs have of which none has begun.
pub(crate) fn first_rows(alloc: Global, jobs: &[Job]) -> Result<Rows, OutOfMemory>
    ensures phases { IfOk result (λ rows. rows.phases.items ≡ map (λ j. Phase.Waiting) jobs.now) }
    ensures began { IfOk result (λ rows. rows.began.items ≡ map (λ j. None) jobs.now) }
    ensures entries { IfOk result (λ rows. rows.entries.items ≡ map (λ j. None) jobs.now) }
    ensures sights { IfOk result (λ rows. rows.sights.items ≡ map (λ j. None) jobs.now) }
{
    let phases = waiting(alloc, jobs)?;
    let began = nothing(alloc, jobs)?;
    let entries = nothing(alloc, jobs)?;
    let sights = nothing(alloc, jobs)?;
    Ok(Rows {
        phases,
        began,
        entries,
        sights,
    })
}
