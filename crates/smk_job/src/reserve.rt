//! What a job needs, made before it begins.

ghost use Rattle.std.specs.Prelude.{◌≡◌, ◌++◌, [], map, length, IfOk, OnOk, true};
ghost use Rattle.std.specs.List.{flat_map};
ghost use Rattle.smk_base.specs.Path.{is_path};
ghost use Rattle.smk_world.specs.World.{out_paths};
ghost use Rattle.smk_world.specs.Trees.{Each, outs_of};
ghost use Rattle.smk_record.specs.Records.{is_valid, record_of};
ghost use Rattle.smk_job.specs.Jobs.{bare_bytes};
ghost use Rattle.smk_job.specs.Reserves.{IsReserved, AreReserved, HasReserved, HasAll, IsAssembled};

use crate::fault::BeginFault;
use crate::going::Ready;
use smk_base::{Bytes, Copied, List, OutOfMemory, PathText, Place};
use smk_flow::Job;
use smk_record::{Record, Stamp, write};
use smk_store::JobPlaces;
use smk_world::{Out, OutItem, Recipe};
use std::alloc::Global;

// Adds the outputs.
fn push_outs(alloc: Global, outs: &mut List<Out>, more: &[Out]) -> Result<(), OutOfMemory>
    ensures { OnOk result (outs.new ≡ outs.old ++ more.now) }
{
    for out in more {
        outs.push(out.copied(alloc)?)?;
    }
    Ok(())
}

// The outputs of these items, in order.
fn all_outs(alloc: Global, outputs: &[OutItem]) -> Result<List<Out>, OutOfMemory>
    ensures { IfOk result (λ outs. outs ≡ flat_map (λ item. item.outs) outputs.now) }
{
    let mut outs = List::new(alloc);
    for item in outputs {
        push_outs(alloc, &mut outs, item.outs.as_slice())?;
    }
    Ok(outs)
}

// Their paths.
fn paths_of(alloc: Global, outs: &[Out]) -> Result<List<PathText>, OutOfMemory>
    ensures { IfOk result (λ paths. paths ≡ map (λ out. out.path) outs.now) }
{
    let mut paths = List::new(alloc);
    for out in outs {
        paths.push(out.path.copy(alloc)?)?;
    }
    Ok(paths)
}

// Adds the places of the paths themselves.
fn push_users(
    alloc: Global,
    places: &mut List<Place>,
    paths: &[PathText],
) -> Result<(), OutOfMemory>
    ensures { OnOk result ((places.new ≡ places.old ++ paths.now) × Each (λ p. is_path p ≡ true) paths.now) }
{
    for path in paths {
        // The call tells that the text is a path's.
        let _text = path.as_str();
        places.push(Place::user(alloc, path)?)?;
    }
    Ok(())
}

// Adds the places of the outputs.
fn push_places(alloc: Global, places: &mut List<Place>, outs: &[Out]) -> Result<(), OutOfMemory>
    ensures { OnOk result ((places.new ≡ places.old ++ map (λ out. out.path) outs.now) × Each (λ p. is_path p ≡ true) (map (λ out. out.path) outs.now)) }
{
    for out in outs {
        // The call tells that the text is a path's.
        let _text = out.path.as_str();
        places.push(Place::user(alloc, &out.path)?)?;
    }
    Ok(())
}

// The places of the outputs and logs.
fn owned(alloc: Global, outs: &[Out], logs: &[PathText]) -> Result<List<Place>, OutOfMemory>
    ensures { IfOk result (λ places. (places ≡ map (λ out. out.path) outs.now ++ logs.now) × Each (λ p. is_path p ≡ true) (map (λ out. out.path) outs.now ++ logs.now)) }
{
    let mut places = List::new(alloc);
    push_places(alloc, &mut places, outs)?;
    push_users(alloc, &mut places, logs)?;
    Ok(places)
}

/// A copy of the stamps.
pub(crate) fn copy_stamps(alloc: Global, stamps: &[Stamp]) -> Result<List<Stamp>, OutOfMemory>
    ensures { IfOk result (λ copy. copy ≡ stamps.now) }
{
    let mut copy = List::new(alloc);
    for stamp in stamps {
        copy.push(*stamp)?;
    }
    Ok(copy)
}

// The bytes of an output's record, without members.
fn bare(
    alloc: Global,
    path: &PathText,
    made: u64,
    recipe: &Recipe,
    stamps: &List<Stamp>,
) -> Result<Bytes, BeginFault>
    requires valid { is_valid (record_of path.now made recipe.now stamps.now []) ≡ true }
    ensures { IsReserved (bare_bytes made recipe.now stamps.now path.now) result }
{
    let kept = Record::new(
        path.copy(alloc)?,
        made,
        recipe.copied(alloc)?,
        copy_stamps(alloc, stamps.as_slice())?,
        List::new(alloc),
    );
    let Some(kept) = kept else { unreachable!() };
    let bytes = write(alloc, &kept)?;
    let length = bytes.as_slice().len() as u64;
    if length > 1_048_576 {
        return Err(BeginFault::TooLong(length));
    }
    Ok(bytes)
}

// The bytes of the records of these outputs, without members.
fn bare_all(
    alloc: Global,
    paths: &[PathText],
    made: u64,
    recipe: &Recipe,
    stamps: &List<Stamp>,
) -> Result<List<Bytes>, BeginFault>
    requires valid { Each (λ p. is_valid (record_of p made recipe.now stamps.now []) ≡ true) paths.now }
    ensures { AreReserved made recipe.now stamps.now paths.now result }
{
    let mut records = List::new(alloc);
    for path in paths {
        records.push(bare(alloc, path, made, recipe, stamps)?)?;
    }
    Ok(records)
}

// The outputs of the recipe, and their paths.
#[tactic(auto, using(crate::proofs::Outs::paths_same))]
fn outputs(alloc: Global, recipe: &Recipe) -> Result<(List<Out>, List<PathText>), OutOfMemory>
    ensures { IfOk result (λ both. (both.0 ≡ outs_of recipe.now) × (both.1 ≡ out_paths recipe.now)) }
{
    let outs = all_outs(alloc, recipe.outputs.as_slice())?;
    let paths = paths_of(alloc, outs.as_slice())?;
    Ok((outs, paths))
}

// All that the job needs, of these parts.
fn assemble(
    alloc: Global,
    job: &Job,
    stamps: &List<Stamp>,
    made: u64,
    outs: List<Out>,
    paths: &List<PathText>,
    records: List<Bytes>,
) -> Result<Ready, OutOfMemory>
    ensures { IfOk result (λ ready. IsAssembled job.now.recipe job.now.logs stamps.now made outs paths.now records ready) }
{
    Ok(Ready {
        recipe: job.recipe.copied(alloc)?,
        logs: job.logs.copied(alloc)?,
        stamps: copy_stamps(alloc, stamps.as_slice())?,
        made,
        outs,
        places: JobPlaces::of(alloc, paths, &job.logs)?,
        records,
    })
}

// All that it takes to close the job.
fn ready(alloc: Global, job: &Job, stamps: &List<Stamp>, made: u64) -> Result<Ready, BeginFault>
    requires valid { Each (λ p. is_valid (record_of p made job.now.recipe stamps.now []) ≡ true) (out_paths job.now.recipe) }
    ensures { HasReserved job.now.recipe job.now.logs stamps.now made result }
{
    let (outs, paths) = outputs(alloc, &job.recipe)?;
    let records = bare_all(alloc, paths.as_slice(), made, &job.recipe, stamps)?;
    Ok(assemble(alloc, job, stamps, made, outs, &paths, records)?)
}

/// All that the job needs, and the places of its outputs and logs.

pub(crate) fn reserve(
    alloc: Global,
    job: &Job,
    stamps: &List<Stamp>,
    made: u64,
) -> Result<(Ready, List<Place>), BeginFault>
    requires valid { Each (λ p. is_valid (record_of p made job.now.recipe stamps.now []) ≡ true) (out_paths job.now.recipe) }
    ensures { HasAll job.now.recipe job.now.logs stamps.now made result }
{
    let ready = ready(alloc, job, stamps, made)?;
    let owned = owned(alloc, ready.outs.as_slice(), job.logs.as_slice())?;
    Ok((ready, owned))
}
