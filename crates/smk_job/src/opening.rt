//! A job begins.

ghost use Rattle.std.specs.Prelude.{◌≡◌, ◌≢◌, ◌++◌, [], length, true, Contains, IfOk, IfErr, is_err};
ghost use Rattle.smk_base.specs.Path.{is_path};
ghost use Rattle.smk_world.specs.World.{in_paths, out_paths, owned_paths};
ghost use Rattle.smk_world.specs.Devices.{WhereTold, HasCarried};
ghost use Rattle.smk_world.specs.Trees.{Each};
ghost use Rattle.smk_record.specs.Records.{is_valid, record_of};
ghost use Rattle.smk_store.specs.Steps.{AreUnused, places_of, mark_requests};
ghost use Rattle.smk_job.specs.Jobs.{clear_requests, begin_failed, LetsBegin, IsBegunFor, HasBegun};
ghost use Rattle.smk_job.specs.Reserves.{HasLaunched};
ghost use Rattle.smk_job.specs.Starts.{HasStarted, begun_child, started_child};

use crate::fault::BeginFault;
use crate::going::Going;
use crate::reserve::reserve;
use crate::steps::clear;
use smk_base::{List, PathText, Place};
use smk_flow::Job;
use smk_record::Stamp;
use smk_store::{JobPlaces, mark};
use smk_world::{Crew, Failed, Files, Recipe};
use std::alloc::Global;

// Marks the job, and makes room for its outputs.
fn prepare<W: Files>(work: &mut W, places: &JobPlaces, owned: &[Place]) -> Result<(), Failed>
    requires unused { AreUnused (W.device work.old) places.now.outputs }
    ensures { HasCarried W.act (mark_requests places.now ++ clear_requests places.now.outputs owned.now) (W.device work.old) (W.device work.new) (is_err result) }
{
    mark(work, places)?;
    clear(work, places.outputs.as_slice(), owned)
}

// Marks the job, makes room for its outputs, and starts its command: the child's number.
fn launch<W: Crew>(
    work: &mut W,
    places: &JobPlaces,
    owned: &[Place],
    recipe: &Recipe,
    logs: &List<PathText>,
    command: &str,
) -> Result<u64, Failed>
    requires at { places.now ≡ places_of (out_paths recipe.now) logs.now }
    requires own { owned.now ≡ owned_paths recipe.now logs.now }
    requires paths { Each (λ p. is_path p ≡ true) (owned_paths recipe.now logs.now) }
    requires room { WhereTold (W.device work.old) (λ w. LetsBegin w recipe.now logs.now) }
    ensures launched { HasStarted W.act (HasLaunched recipe.now logs.now command.now result) (started_child result) (W.device work.old) (W.device work.new) (is_err result) }
    ensures fresh { IfOk result (λ number. ¬ (Contains (W.device work.old).running number)) }
{
    prepare(work, places, owned)?;
    work.start(recipe, logs, command)
}

/// Begins the job: makes its marks and notes and makes them firm, removes what stands at its outputs, makes the folders of its
/// outputs and logs, and starts the command. Its records will have these stamps of its inputs and this serial. No running child has its number.
///
/// `TooLong` exactly where a record without members would have more than 1,048,576 bytes, with the bytes of the first output's that
/// would; `OutOfMemory` where there is no memory for what the job needs until it is closed. Then no call was made. `Device`: a call
/// failed, and none came after it.
///
/// There is a stamp for each path of the recipe's inputs, in order; the records with these stamps, this serial and no members are
/// valid; and where the world is told, the running children leave room for the job.
pub fn begin<W: Crew>(
    alloc: Global,
    work: &mut W,
    job: &Job,
    stamps: &List<Stamp>,
    made: u64,
    command: &str,
) -> Result<Going, BeginFault>
    requires each_stamped { length stamps.now ≡ length (in_paths job.now.recipe) }
    requires valid { Each (λ p. is_valid (record_of p made job.now.recipe stamps.now []) ≡ true) (out_paths job.now.recipe) }
    requires room { WhereTold (W.device work.old) (λ w. LetsBegin w job.now.recipe job.now.logs) }
    ensures begun { HasStarted W.act (HasBegun job.now.recipe job.now.logs command.now result) (begun_child result) (W.device work.old) (W.device work.new) (begin_failed result) }
    ensures answer { IsBegunFor job.now.recipe job.now.logs stamps.now made result }
    ensures fresh { IfOk result (λ going. ¬ (Contains (W.device work.old).running going.number)) }
    ensures untouched { IfErr result (λ fault. fault ≢ BeginFault.Device → work.new ≡ work.old) }
{
    let (ready, owned) = reserve(alloc, job, stamps, made)?;
    match launch(
        work,
        &ready.places,
        owned.as_slice(),
        &job.recipe,
        &job.logs,
        command,
    ) {
        Ok(number) => Ok(Going { ready, number }),
        Err(Failed) => Err(BeginFault::Device),
    }
}
