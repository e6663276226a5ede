//! Telling of paths, and of where the jobs that fit them by name write.

ghost use Rattle.std.specs.Prelude.{◌≡◌, true, false, is_some, IfOk, OnOk, map};
ghost use Rattle.std.specs.List.{AllByRecursion};
ghost use Rattle.smk_base.specs.Path.{is_path};
ghost use Rattle.smk_world.specs.Calls.{device_failed};
ghost use Rattle.smk_world.specs.Devices.{HasLooked};
ghost use Rattle.smk_pattern.specs.Shapes.{Text as TextValue};
ghost use Rattle.smk_choose.specs.declared.choice.Making.{Making as MakingValue};
ghost use Rattle.smk_choose.specs.Choose.{candidates};
ghost use Rattle.smk_choose.specs.Told.{standing_of, told_by, making};
ghost use Rattle.smk_choose.specs.Finding.{places_by};
ghost use Rattle.smk_choose.specs.Index.{AreReadings};
ghost use Rattle.smk_chain_sight.specs.Telling.{HasTold, IsListed, ArePlacesListed, IsListedAround, candidates_by};

use crate::seeing::{Sighted, standing_at};
use smk_base::{OutOfMemory, PathFault, PathText, Text};
use smk_choose::{Making, Readings, Sources, apart, places};
use smk_flow::Workflow;
use smk_store::Store;
use smk_world::{Files, WorkFault};
use std::alloc::Global;
use std::collections::BTreeMap;

/// What was seen of paths, and what is told of them.
#[derive(Drop)]
pub(crate) struct Eye {
    pub(crate) seen: BTreeMap<String, Sighted>,
    pub(crate) sources: Sources,
}

// Whether it was told of the path.
fn is_told(eye: &Eye, path: &PathText) -> bool
    ensures { result ≡ is_some (standing_of eye.now.sources path.now) }
{
    eye.sources.standing(path).is_some()
}

// Tells of the path, unless it was told of.
#[tactic(auto, using(crate::proofs::Eyes::told_nothing))]
fn tell<W: Files>(
    alloc: Global,
    store: &Store,
    work: &mut W,
    eye: &mut Eye,
    path: &PathText,
) -> Result<(), WorkFault>
    ensures looked { HasLooked W.act (W.device work.old) (W.device work.new) (device_failed result) }
    ensures listed { OnOk result (IsListed eye.new path.now) }
    ensures told { OnOk result (HasTold (W.device work.old) store.now eye.old eye.new) }
{
    if is_told(eye, path) {
        return Ok(());
    }
    let found = standing_at(alloc, store, work, &mut eye.seen, path)?;
    let copy = path.copy(alloc)?;
    eye.sources.add(copy, found.source, found.holds)?;
    Ok(())
}

// Tells of the text, where it is a path.
#[tactic(auto, using(crate::proofs::Eyes::told_nothing))]
fn tell_text<W: Files>(
    alloc: Global,
    store: &Store,
    work: &mut W,
    eye: &mut Eye,
    text: &str,
) -> Result<(), WorkFault>
    ensures looked { HasLooked W.act (W.device work.old) (W.device work.new) (device_failed result) }
    ensures listed { OnOk result (is_path text.now ≡ true → IsListed eye.new text.now) }
    ensures told { OnOk result (HasTold (W.device work.old) store.now eye.old eye.new) }
{
    match PathText::read(alloc, text) {
        Ok(path) => tell(alloc, store, work, eye, &path),
        Err(PathFault::BadPath) => Ok(()),
        Err(PathFault::OutOfMemory) => Err(WorkFault::OutOfMemory),
    }
}

// Tells of these texts, where they are paths.
#[tactic(auto, using(crate::proofs::Eyes::told_nothing))]
fn tell_texts<W: Files>(
    alloc: Global,
    store: &Store,
    work: &mut W,
    eye: &mut Eye,
    texts: &[Text],
) -> Result<(), WorkFault>
    ensures looked { HasLooked W.act (W.device work.old) (W.device work.new) (device_failed result) }
    ensures listed { OnOk result (AllByRecursion (λ (t : TextValue). is_path t ≡ true → IsListed eye.new t) texts.now) }
    ensures told { OnOk result (HasTold (W.device work.old) store.now eye.old eye.new) }
{
    for text in texts {
        tell_text(alloc, store, work, eye, text.as_str())?;
    }
    Ok(())
}

// Tells of where the job writes.
#[tactic(auto, using(crate::proofs::Eyes::told_nothing))]
fn tell_places<W: Files>(
    alloc: Global,
    flow: &Workflow,
    store: &Store,
    work: &mut W,
    eye: &mut Eye,
    job: &Making,
) -> Result<(), WorkFault>
    ensures looked { HasLooked W.act (W.device work.old) (W.device work.new) (device_failed result) }
    ensures listed { OnOk result (AllByRecursion (λ (t : TextValue). is_path t ≡ true → IsListed eye.new t) (places_by flow.now job.now)) }
    ensures told { OnOk result (HasTold (W.device work.old) store.now eye.old eye.new) }
{
    let texts = places(alloc, flow, job)?;
    tell_texts(alloc, store, work, eye, texts.as_slice())?;
    Ok(())
}

// Tells of where these jobs write.
#[tactic(auto, using(crate::proofs::Eyes::told_nothing))]
fn tell_jobs<W: Files>(
    alloc: Global,
    flow: &Workflow,
    store: &Store,
    work: &mut W,
    eye: &mut Eye,
    jobs: &[Making],
) -> Result<(), WorkFault>
    ensures looked { HasLooked W.act (W.device work.old) (W.device work.new) (device_failed result) }
    ensures listed { OnOk result (AllByRecursion (λ (m : MakingValue). AllByRecursion (λ (t : TextValue). is_path t ≡ true → IsListed eye.new t) (places_by flow.now m)) jobs.now) }
    ensures told { OnOk result (HasTold (W.device work.old) store.now eye.old eye.new) }
{
    for job in jobs {
        tell_places(alloc, flow, store, work, eye, job)?;
    }
    Ok(())
}

// The candidates of a path that isn't a source, once it is told where the jobs that fit it by name write.
fn candidates_of<W: Files>(
    alloc: Global,
    flow: &Workflow,
    readings: &Readings,
    store: &Store,
    work: &mut W,
    eye: &mut Eye,
    path: &PathText,
) -> Result<Vec<Making>, WorkFault>
    requires { AreReadings flow.now readings.now }
    ensures looked { HasLooked W.act (W.device work.old) (W.device work.new) (device_failed result) }
    ensures listed { OnOk result (ArePlacesListed flow.now eye.new path.now) }
    ensures told { OnOk result (HasTold (W.device work.old) store.now eye.old eye.new) }
    ensures jobs { IfOk result (λ jobs. jobs.items ≡ map making (candidates flow.now (told_by eye.new.sources) path.now)) }
{
    let fitting = readings.fitting(alloc, flow, path)?;
    tell_jobs(alloc, flow, store, work, eye, &fitting)?;
    let jobs = apart(alloc, flow, &eye.sources, fitting)?;
    Ok(jobs)
}

/// Tells of the path, and, where it is no source, of where the jobs that fit it by name write. Answers its candidates, none for a
/// source.
pub(crate) fn tell_around<W: Files>(
    alloc: Global,
    flow: &Workflow,
    readings: &Readings,
    store: &Store,
    work: &mut W,
    eye: &mut Eye,
    path: &PathText,
) -> Result<Vec<Making>, WorkFault>
    requires { AreReadings flow.now readings.now }
    ensures looked { HasLooked W.act (W.device work.old) (W.device work.new) (device_failed result) }
    ensures listed { OnOk result (IsListedAround flow.now eye.new path.now) }
    ensures told { OnOk result (HasTold (W.device work.old) store.now eye.old eye.new) }
    ensures jobs { IfOk result (λ jobs. jobs.items ≡ map making (candidates_by flow.now (told_by eye.new.sources) path.now)) }
{
    tell(alloc, store, work, eye, path)?;
    if eye.sources.is(path) {
        return Ok(Vec::new(alloc));
    }
    let jobs = candidates_of(alloc, flow, readings, store, work, eye, path)?;
    Ok(jobs)
}
