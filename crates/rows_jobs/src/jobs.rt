//! Jobs of one output, and what is done with them.

ghost use Rattle.std.specs.Prelude.{◌≡◌, ◌≢◌, ◌∷◌, [], IfOk, IsOk, OnOk};
ghost use Rattle.smk_world.specs.World.{out_paths};
ghost use Rattle.smk_world_mem.specs.Work.{IsAtRest, running_in, world_in};
ghost use Rattle.rows_jobs.specs.Bare.{IsBare};

use rows_lines::Trouble;
use smk_base::{Copied, List, OutOfMemory, PathText, Text, one};
use smk_flow::Job;
use smk_job::{CloseFault, Going, abandon, begin, finish};
use smk_record::{Record, Stamp};
use smk_store::{StoreFault, forget, load};
use smk_world::{Crew, Failed, Item, Kind, Out, OutItem, Recipe};
use smk_world_mem::{MemWork, Setup};
use std::alloc::Global;

/// A workspace with nothing in it, of which the calls with these numbers fail.
pub fn workspace(alloc: Global, failing: List<u64>) -> MemWork {
    MemWork::new(
        alloc,
        Setup {
            failing,
            stop_after: None,
            order: List::new(alloc),
            killed: List::new(alloc),
        },
    )
}

// One item with the output.
fn outputs_of(alloc: Global, path: &PathText, kind: Kind) -> Result<List<OutItem>, OutOfMemory>
    ensures { IfOk result (λ items. items ≡ record { name = []; outs = record { path = path.now; kind = kind } ∷ [] } ∷ []) }
{
    let out = Out {
        path: path.copy(alloc)?,
        kind,
    };
    let item = OutItem {
        name: Text::of(alloc, "")?,
        outs: one(alloc, out)?,
    };
    one(alloc, item)
}

// The recipe of a command that writes nothing.
fn recipe_of(
    alloc: Global,
    path: &PathText,
    kind: Kind,
    inputs: List<Item>,
) -> Result<Recipe, OutOfMemory>
    ensures { IfOk result (λ recipe. out_paths recipe ≡ path.now ∷ []) }
{
    let outputs = outputs_of(alloc, path, kind)?;
    Ok(Recipe {
        template: Text::of(alloc, "fail {input}")?,
        wildcards: List::new(alloc),
        params: List::new(alloc),
        inputs,
        outputs,
    })
}

/// The record of an output of this kind, made from these inputs with these stamps.
pub fn record_of(
    alloc: Global,
    path: PathText,
    kind: Kind,
    inputs: List<Item>,
    stamps: List<Stamp>,
) -> Result<Record, Trouble>
    ensures { IfOk result (λ kept. IsBare kept) }
{
    let recipe = recipe_of(alloc, &path, kind, inputs)?;
    match Record::new(path, 1, recipe, stamps, List::new(alloc)) {
        Some(kept) => Ok(kept),
        None => Err(Trouble::NoRecord),
    }
}

// The job whose record this will be, but for its members.
fn job_of(alloc: Global, kept: &Record) -> Result<Job, OutOfMemory>
    ensures recipe { IfOk result (λ job. job.recipe ≡ kept.now.recipe) }
    ensures logs { IfOk result (λ job. job.logs ≡ []) }
{
    let recipe = kept.recipe().copied(alloc)?;
    Ok(Job {
        rule: 0,
        recipe,
        gathers: List::new(alloc),
        logs: List::new(alloc),
        threads: 1,
        amounts: List::new(alloc),
        words: List::new(alloc),
        priority: 0,
        temps: List::new(alloc),
        guards: List::new(alloc),
    })
}

// Whether the workspace is told and nothing runs in it.
fn rest(work: &MemWork) -> Result<(), Trouble>
    ensures rest { IsOk result → IsAtRest (world_in work.now) }
    ensures idle { IsOk result → running_in work.now ≡ [] }
{
    if work.is_at_rest() {
        Ok(())
    } else {
        Err(Trouble::Running)
    }
}

// Begins the job.
fn started(alloc: Global, work: &mut MemWork, kept: &Record, job: &Job) -> Result<Going, Trouble>
    requires bare { IsBare kept.now }
    requires recipe { job.now.recipe ≡ kept.now.recipe }
    requires logs { job.now.logs ≡ [] }
    ensures { OnOk result (running_in work.new ≢ []) }
{
    rest(work)?;
    match begin(alloc, work, job, kept.stamps(), kept.made(), "fail") {
        Ok(going) => Ok(going),
        Err(_) => Err(Trouble::NotBegun),
    }
}

// Begins the job, and waits for its child.
fn waited(alloc: Global, work: &mut MemWork, kept: &Record, job: &Job) -> Result<Going, Trouble>
    requires bare { IsBare kept.now }
    requires recipe { job.now.recipe ≡ kept.now.recipe }
    requires logs { job.now.logs ≡ [] }
{
    let going = started(alloc, work, kept, job)?;
    work.wait()?;
    Ok(going)
}

/// Begins the job whose record this will be, but for its members, and waits for its child.
pub fn begun(alloc: Global, work: &mut MemWork, kept: &Record) -> Result<Going, Trouble>
    requires { IsBare kept.now }
{
    let job = job_of(alloc, kept)?;
    waited(alloc, work, kept, &job)
}

/// Finishes the job.
pub fn finished(
    alloc: Global,
    work: &mut MemWork,
    going: Going,
) -> Result<Result<(), CloseFault>, Trouble> {
    rest(work)?;
    Ok(finish(alloc, work, going))
}

/// Abandons the job.
pub fn abandoned(work: &mut MemWork, going: Going) -> Result<Result<(), Failed>, Trouble> {
    rest(work)?;
    Ok(abandon(work, going))
}

/// Forgets the path.
pub fn forgotten(
    alloc: Global,
    work: &mut MemWork,
    path: &PathText,
) -> Result<Result<bool, StoreFault>, Trouble> {
    let store = load(alloc, work)?;
    rest(work)?;
    Ok(forget(alloc, work, &store, path))
}
