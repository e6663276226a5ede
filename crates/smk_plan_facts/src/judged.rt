//! The facts of jobs.

ghost use Rattle.std.specs.Prelude.{◌≡◌, ◌++◌, map, IfOk, OnOk, true};
ghost use Rattle.std.specs.List.{flat_map, list_all, AllZip};
ghost use Rattle.std.specs.BTreeSet.{contains_text};
ghost use Rattle.smk_world.specs.Trees.{among, is_path_text};
ghost use Rattle.smk_store.specs.Images.{Image};
ghost use Rattle.smk_store.specs.Loading.{IsStoreOf};
ghost use Rattle.smk_plan.specs.Sights.{IsSeenOf};
ghost use Rattle.smk_plan.specs.States.{Plan};
ghost use Rattle.smk_plan.specs.Summed.{AreSummed};
ghost use Rattle.smk_plan_facts.specs.Facts.{told_sources, AreFactsOf, HasOwnRecords, TellSources};
ghost use Rattle.smk_plan_facts.specs.Telling.{copied_at, facts_in, forced_by, forced_in, has_path_texts, marked_at, stamp_in};

use crate::copies::copy_at;
use crate::forced::Forcing;
use crate::known::is_marked;
use crate::stamps::{sources_of, stamp_now};
use smk_base::{Copied, List, OutOfMemory, PathText};
use smk_chain::Jobs;
use smk_flow::Job;
use smk_pick::Settings;
use smk_plan::{Loaded, Seen, Told};
use smk_record::Stamp;
use smk_store::{Kept, Store};
use smk_trigger::JobFacts;
use smk_world::{Item, Out, OutItem};
use std::alloc::Global;
use std::collections::BTreeSet;

// Goes over the paths, which tells that their texts are those of paths.
fn see_paths(paths: &[PathText])
    ensures { list_all is_path_text paths.now ≡ true }
{
    for path in paths {
        // The call tells that the text is a path's.
        let _text = path.as_str();
    }
}

// Goes over the inputs of these items.
fn see_inputs(inputs: &[Item])
    ensures { list_all is_path_text (flat_map (λ item. item.paths) inputs.now) ≡ true }
{
    for item in inputs {
        see_paths(item.paths.as_slice());
    }
}

// Goes over the inputs of these jobs.
fn see_jobs(jobs: &[Job])
    ensures { list_all has_path_texts jobs.now ≡ true }
{
    for job in jobs {
        see_inputs(job.recipe.inputs.as_slice());
    }
}

// Adds what is kept of these outputs.
fn add_kept<T: Told>(
    alloc: Global,
    kept: &mut List<Kept>,
    told: &T,
    outs: &[Out],
) -> Result<(), OutOfMemory>
    ensures { OnOk result (kept.new ≡ kept.old ++ map (copied_at (T.known told.now)) outs.now) }
{
    for out in outs {
        let copy = copy_at(alloc, told, &out.path)?;
        kept.push(copy)?;
    }
    Ok(())
}

// What is kept of the outputs of these items, in their order; a record only where it is valid.
fn kept_of<T: Told>(alloc: Global, told: &T, outputs: &[OutItem]) -> Result<List<Kept>, OutOfMemory>
    ensures { IfOk result (λ kept. kept ≡ flat_map (λ item. map (copied_at (T.known told.now)) item.outs) outputs.now) }
{
    let mut kept = List::new(alloc);
    for item in outputs {
        add_kept(alloc, &mut kept, told, item.outs.as_slice())?;
    }
    Ok(kept)
}

// Adds which of these outputs are marked.
fn add_marks<T: Told>(marked: &mut List<bool>, told: &T, outs: &[Out]) -> Result<(), OutOfMemory>
    ensures { OnOk result (marked.new ≡ marked.old ++ map (marked_at (T.known told.now)) outs.now) }
{
    for out in outs {
        marked.push(is_marked(told, &out.path))?;
    }
    Ok(())
}

// Which outputs of these items are marked, in their order.
fn marks_of<T: Told>(
    alloc: Global,
    told: &T,
    outputs: &[OutItem],
) -> Result<List<bool>, OutOfMemory>
    ensures { IfOk result (λ marked. marked ≡ flat_map (λ item. map (marked_at (T.known told.now)) item.outs) outputs.now) }
{
    let mut marked = List::new(alloc);
    for item in outputs {
        add_marks(&mut marked, told, item.outs.as_slice())?;
    }
    Ok(marked)
}

// Adds the stamps of these inputs.
fn add_stamps<T: Told>(
    alloc: Global,
    stamps: &mut List<Option<Stamp>>,
    told: &T,
    sources: &BTreeSet<String>,
    paths: &[PathText],
) -> Result<(), OutOfMemory>
    ensures { OnOk result (stamps.new ≡ stamps.old ++ map (stamp_in (T.known told.now) (T.seen told.now) (contains_text sources.now)) paths.now) }
{
    for path in paths {
        let stamp = stamp_now(alloc, told, sources, path)?;
        stamps.push(stamp)?;
    }
    Ok(())
}

// The stamps of the inputs of these items.
fn stamps_in<T: Told>(
    alloc: Global,
    told: &T,
    sources: &BTreeSet<String>,
    inputs: &[Item],
) -> Result<List<Option<Stamp>>, OutOfMemory>
    ensures { IfOk result (λ stamps. stamps ≡ flat_map (λ item. map (stamp_in (T.known told.now) (T.seen told.now) (contains_text sources.now)) item.paths) inputs.now) }
{
    let mut stamps = List::new(alloc);
    for item in inputs {
        add_stamps(alloc, &mut stamps, told, sources, item.paths.as_slice())?;
    }
    Ok(stamps)
}

/// The facts of the job, which is forced or not, where these are the paths that no job makes: its recipe, what is kept and marked of its outputs, and the stamps of
/// its inputs now. `OutOfMemory` where there is no memory for them.
pub fn own_facts<T: Told>(
    alloc: Global,
    told: &T,
    sources: &BTreeSet<String>,
    forced: bool,
    job: &Job,
) -> Result<JobFacts, OutOfMemory>
    ensures { IfOk result (λ found. found ≡ facts_in (T.known told.now) (T.seen told.now) (contains_text sources.now) (λ k. forced) job.now) }
{
    let recipe = job.recipe.copied(alloc)?;
    let kept = kept_of(alloc, told, job.recipe.outputs.as_slice())?;
    let marked = marks_of(alloc, told, job.recipe.outputs.as_slice())?;
    let stamps = stamps_in(alloc, told, sources, job.recipe.inputs.as_slice())?;
    Ok(JobFacts {
        recipe,
        kept,
        marked,
        stamps,
        forced,
    })
}

// The facts of the job, forced or not as this tells.
fn job_facts<T: Told>(
    alloc: Global,
    told: &T,
    sources: &BTreeSet<String>,
    forcing: &Forcing,
    job: &Job,
) -> Result<JobFacts, OutOfMemory>
    ensures { IfOk result (λ found. found ≡ facts_in (T.known told.now) (T.seen told.now) (contains_text sources.now) (forced_in forcing.now) job.now) }
{
    own_facts(alloc, told, sources, forcing.is_forced(job), job)
}

// The facts of the jobs.
fn all_facts<T: Told>(
    alloc: Global,
    told: &T,
    sources: &BTreeSet<String>,
    forcing: &Forcing,
    jobs: &[Job],
) -> Result<List<JobFacts>, OutOfMemory>
    ensures { IfOk result (λ found. found ≡ map (facts_in (T.known told.now) (T.seen told.now) (contains_text sources.now) (forced_in forcing.now)) jobs.now) }
{
    let mut found = List::new(alloc);
    for job in jobs {
        let facts = job_facts(alloc, told, sources, forcing, job)?;
        found.push(facts)?;
    }
    Ok(found)
}

// The facts of the jobs, by what is known and was seen.
fn told_facts<T: Told>(
    alloc: Global,
    jobs: &Jobs,
    told: &T,
    settings: &Settings,
    ran: &List<PathText>,
) -> Result<List<JobFacts>, OutOfMemory>
    ensures { IfOk result (λ found. found ≡ map (facts_in (T.known told.now) (T.seen told.now) (among (told_sources jobs.now.makers)) (forced_by settings.now ran.now)) jobs.now.jobs) }
{
    let sources = sources_of(alloc, jobs.makers.as_slice())?;
    let forcing = Forcing::of(alloc, settings, ran)?;
    all_facts(alloc, told, &sources, &forcing, jobs.jobs.as_slice())
}

/// The facts of each job, in plan order, by what is known and was seen: its recipe, what is kept and marked of its outputs, the stamps of its inputs now, and
/// whether it is forced, where the jobs with the first outputs `ran` have begun in this run and none runs. The inputs are texts of paths. `OutOfMemory` where
/// there is no memory for them.
pub fn facts_told<T: Told>(
    alloc: Global,
    jobs: &Jobs,
    told: &T,
    settings: &Settings,
    ran: &List<PathText>,
) -> Result<List<JobFacts>, OutOfMemory>
    ensures value { IfOk result (λ found. found ≡ map (facts_in (T.known told.now) (T.seen told.now) (among (told_sources jobs.now.makers)) (forced_by settings.now ran.now)) jobs.now.jobs) }
    ensures texts { IfOk result (λ found. list_all has_path_texts jobs.now.jobs ≡ true) }
{
    see_jobs(jobs.jobs.as_slice());
    told_facts(alloc, jobs, told, settings, ran)
}

/// Which jobs are forced, as their facts tell. `OutOfMemory` where there is no memory for the answer.
pub fn forced_of(alloc: Global, facts: &[JobFacts]) -> Result<List<bool>, OutOfMemory>
    ensures { IfOk result (λ found. found ≡ map (λ f. f.forced) facts.now) }
{
    let mut found = List::new(alloc);
    for one in facts {
        found.push(one.forced)?;
    }
    Ok(found)
}

/// The facts of each job, in plan order: its recipe, what the store has of its outputs, the stamps of its inputs now, and whether it is forced, where the jobs
/// with the first outputs `ran` have begun in this run and none runs. `OutOfMemory` where there is no memory for them.
///
/// The store and what is seen of the outputs and sources are those of one image of the folder, whose records are valid and their paths' own; and the makers of
/// the jobs tell of each source among the inputs. A source was seen with its SHA-256 where a record of the job has it with one and another time, if it is small
/// enough for that: else its time alone is told, from which the same reasons follow. The time is near linear in the number of outputs, inputs, makers and
/// targets, and in the length of the records.
pub fn facts(
    alloc: Global,
    jobs: &Jobs,
    store: &Store,
    seen: &Seen,
    settings: &Settings,
    ran: &List<PathText>,
) -> Result<List<JobFacts>, OutOfMemory>
    ensures { IfOk result (λ found. (image : Image) (plan : Plan) → IsStoreOf image store.now → IsSeenOf image jobs.now seen.now → AreSummed image jobs.now seen.now
        → HasOwnRecords image → TellSources image jobs.now → AllZip (AreFactsOf image settings.now ran.now plan) jobs.now.jobs found) }
{
    facts_told(alloc, jobs, &Loaded { store, seen }, settings, ran)
}
