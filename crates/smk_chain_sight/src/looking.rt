//! Looking at the working folder for some targets.

ghost use Rattle.std.specs.Prelude.{◌≡◌, ◌<◌, ◌≤◌, [], ℕ, List as Items, Option, false, IfOk, IfErr, bytes_eq};
ghost use Rattle.smk_world.specs.Calls.{device_failed};
ghost use Rattle.smk_world.specs.Devices.{HasLooked, WhereTold};
ghost use Rattle.smk_record.specs.declared.record.Record.{Record as RecordValue};
ghost use Rattle.smk_store.specs.Images.{seen, Image};
ghost use Rattle.smk_store.specs.Loading.{IsStoreOf};
ghost use Rattle.smk_choose.specs.Index.{AreReadings};
ghost use Rattle.smk_choose.specs.Told.{told_by};
ghost use Rattle.smk_chain.specs.Derive.{sources_of, distinct};
ghost use Rattle.smk_chain_sight.specs.Sight.{Suffices, TellsReach, IsLarge, sight_failed};
ghost use Rattle.smk_chain_sight.specs.Viewing.{Viewed};
ghost use Rattle.smk_chain_sight.specs.Telling.{IsTrue};
ghost use Rattle.smk_chain_sight.specs.Reaching.{AreKept};
ghost use Rattle.smk_chain_sight.specs.Disk.{IsOwnedCovered};

use crate::reaching::{Ground, LIMIT, Paths, add_paths, count, spread};
use crate::telling::Eye;
use smk_base::{List, OutOfMemory, PathText};
use smk_chain::{Listings, SightFault};
use smk_choose::{Readings, Sources};
use smk_choose_wants::Guide;
use smk_flow::Workflow;
use smk_store::Store;
use smk_world::{Files, WorkFault};
use std::alloc::Global;
use std::collections::{BTreeMap, BTreeSet};

// What is told for some targets, and how many paths were found.
#[derive(Drop)]
struct View {
    sources: Sources,
    count: usize,
}

// No paths.
fn no_paths(alloc: Global) -> Paths
    ensures kept { AreKept result }
    ensures none { result.paths.items ≡ [] }
{
    Paths {
        known: BTreeSet::new(alloc),
        paths: Vec::new(alloc),
    }
}

// Nothing is told yet.
fn no_eye(alloc: Global) -> Eye
    ensures { (image : Image) → IsTrue image result }
{
    Eye {
        seen: BTreeMap::new(alloc),
        sources: Sources::new(alloc),
    }
}

// The targets, each once.
fn started(alloc: Global, targets: &List<PathText>) -> Result<Paths, OutOfMemory>
    ensures kept { IfOk result (λ found. AreKept found) }
    ensures are { IfOk result (λ found. found.paths.items ≡ distinct bytes_eq targets.now) }
{
    let mut found = no_paths(alloc);
    add_paths(alloc, &mut found, targets.as_slice())?;
    Ok(found)
}

// Tells of all that could be wanted for the targets, unless there is too much of it.
fn look_around<W: Files>(
    alloc: Global,
    flow: &Workflow,
    readings: &Readings,
    store: &Store,
    lists: &Listings,
    targets: &List<PathText>,
    work: &mut W,
) -> Result<View, WorkFault>
    requires { AreReadings flow.now readings.now }
    ensures looked { HasLooked W.act (W.device work.old) (W.device work.new) (device_failed result) }
    ensures told { IfOk result (λ view. WhereTold (W.device work.old) (λ w. (image : Image) → Viewed w.nodes store.now image
        → TellsReach flow.now (sources_of image) lists.now targets.now (told_by view.sources) view.count)) }
{
    let guide = Guide::of(alloc, readings, lists)?;
    let mut found = started(alloc, targets)?;
    let mut eye = no_eye(alloc);
    let ground = Ground {
        flow,
        lists,
        guide: &guide,
        store,
    };
    spread(alloc, &ground, work, &mut eye, &mut found, 0, 400)?;
    Ok(View {
        sources: eye.sources,
        count: count(&found),
    })
}

// What is told, unless there are too many paths.
fn sources_in(view: View) -> Result<Sources, SightFault>
    ensures ok { IfOk result (λ sources. (sources ≡ view.sources) × (view.count ≤ 100000)) }
    ensures quiet { sight_failed result ≡ false }
    ensures fault { IfErr result (λ fault. (fault ≡ SightFault.TooManyPaths view.count) × (100000 < view.count)) }
{
    if view.count > LIMIT {
        return Err(SightFault::TooManyPaths(view.count as u64));
    }
    Ok(view.sources)
}

/// Looks at the working folder for the targets and for all that could be wanted for them, so that their jobs can be derived: tells of each
/// path of their reach whether it is a source, and whether it holds one; and, where it is none, so of each output and log of the jobs
/// that fit it by name. Nothing is changed. Each path is looked at once; a folder's tree is listed only where a folder stands at such
/// a path, up to the first source in it. What was read of the rules is given.
///
/// `TooManyPaths`: the reach has more than 100,000 paths; with how many had been found then. `Device`: a call of the device failed.
/// `OutOfMemory`: there is no memory for what is found.
pub fn sight<W: Files>(
    alloc: Global,
    flow: &Workflow,
    readings: &Readings,
    store: &Store,
    lists: &Listings,
    targets: &List<PathText>,
    work: &mut W,
) -> Result<Sources, SightFault>
    requires { AreReadings flow.now readings.now }
    ensures looked { HasLooked W.act (W.device work.old) (W.device work.new) (sight_failed result) }

    // What it tells is so in the folder as it reads wherever it matters, and leads to the same reach and derivation: where what
    // running children own is covered, as what is covered is no source.
    ensures told { IfOk result (λ sources. WhereTold (W.device work.old) (λ w. IsOwnedCovered w store.now
        → (read : Items ℕ → Option RecordValue) → IsStoreOf (seen read w) store.now
        → Suffices flow.now (sources_of (seen read w)) lists.now targets.now (told_by sources))) }

    // The reach has more than 100,000 paths just where that is the fault.
    ensures too_many { IfErr result (λ fault. (count : ℕ) → fault ≡ SightFault.TooManyPaths count → (100000 < count) × WhereTold (W.device work.old) (λ w. IsOwnedCovered w store.now
        → (read : Items ℕ → Option RecordValue) → IsStoreOf (seen read w) store.now
        → IsLarge flow.now (sources_of (seen read w)) lists.now targets.now)) }
{
    match look_around(alloc, flow, readings, store, lists, targets, work) {
        Ok(view) => sources_in(view),
        Err(WorkFault::Failed) => Err(SightFault::Device),
        Err(WorkFault::OutOfMemory) => Err(SightFault::OutOfMemory),
    }
}
