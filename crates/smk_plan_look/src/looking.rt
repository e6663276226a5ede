//! Looking at the outputs and the sources of jobs.

ghost use Rattle.std.specs.Prelude.{◌≡◌, ℕ, List as Items, Option, IfOk};
ghost use Rattle.std.specs.List.{filter};
ghost use Rattle.smk_world.specs.Calls.{device_failed};
ghost use Rattle.smk_world.specs.Devices.{HasLooked, WhereTold};
ghost use Rattle.smk_world.specs.Trees.{Each, is_path_text};
ghost use Rattle.smk_record.specs.declared.record.Record.{Record as RecordValue};
ghost use Rattle.smk_store.specs.Images.{seen};
ghost use Rattle.smk_store.specs.Loading.{IsStoreOf};
ghost use Rattle.smk_store.specs.Walking.{path_in, texts_of};
ghost use Rattle.smk_store.specs.Unowned.{IsUnownedUnder};
ghost use Rattle.smk_plan.specs.Sights.{AreRising};
ghost use Rattle.smk_plan_look.specs.Needs.{AreSpared};
ghost use Rattle.smk_plan_look.specs.Seeing.{IsSightOf, ArePlain, AreSeenUnowned, AreSummedUnowned, are_paths, look_fault, look_failed};

use crate::paths::paths_in;
use crate::sights::sight_at;
use crate::summing::summed;
use smk_base::{List, OutOfMemory, PathFault, PathText};
use smk_chain::Jobs;
use smk_plan::{LookFault, Seen, Sight};
use smk_store::Store;
use smk_world::{Files, WorkFault};
use std::alloc::Global;
use std::collections::BTreeSet;
use std::thread::Threads;

// The path that the text is. None where it is none.
fn path_in(alloc: Global, text: &str) -> Result<Option<PathText>, OutOfMemory>
    ensures { IfOk result (λ path. path ≡ path_in text.now) }
{
    match PathText::read(alloc, text) {
        Ok(path) => Ok(Some(path)),
        Err(PathFault::BadPath) => Ok(None),
        Err(PathFault::OutOfMemory) => Err(OutOfMemory),
    }
}

// What is seen of these texts, where they are paths.
fn sights_of<W: Files>(
    alloc: Global,
    work: &mut W,
    paths: &BTreeSet<String>,
) -> Result<List<Sight>, WorkFault>
    ensures looked { HasLooked W.act (W.device work.old) (W.device work.new) (device_failed result) }
    ensures rising { IfOk result (λ sights. AreRising sights) }
    ensures paths { IfOk result (λ sights. are_paths sights ≡ filter is_path_text (texts_of paths.now.keys)) }
    ensures told { IfOk result (λ sights. WhereTold (W.device work.old) (λ w. Each (λ s. IsUnownedUnder w.nodes s.path → IsSightOf w.nodes s.path s) sights)) }
{
    let mut sights = List::new(alloc);
    for text in paths {
        let Some(path) = path_in(alloc, text.as_str())? else {
            continue;
        };
        let sight = sight_at(alloc, work, path)?;
        sights.push(sight)?;
    }
    Ok(sights)
}

// What is seen of the outputs and the sources, without digests.
fn seen_of<W: Files>(alloc: Global, work: &mut W, jobs: &Jobs) -> Result<Seen, WorkFault>
    ensures looked { HasLooked W.act (W.device work.old) (W.device work.new) (device_failed result) }
    ensures told { IfOk result (λ sights. WhereTold (W.device work.old) (λ w. (read : Items ℕ → Option RecordValue)
        → ArePlain w (seen read w) jobs.now sights)) }
{
    let paths = paths_in(alloc, jobs)?;
    let sights = sights_of(alloc, work, &paths)?;
    Ok(Seen::of(sights))
}

// What is seen of them, with the digests that are needed.
fn look_at<W: Files, Rt: Threads + Sync>(
    rt: &Rt,
    alloc: Global,
    work: &mut W,
    jobs: &Jobs,
    store: &Store,
) -> Result<Seen, WorkFault>
    ensures looked { HasLooked W.act (W.device work.old) (W.device work.new) (device_failed result) }
    ensures told { IfOk result (λ sights. WhereTold (W.device work.old) (λ w. (read : Items ℕ → Option RecordValue)
        → AreSeenUnowned w (seen read w) jobs.now sights)) }
    ensures summed { IfOk result (λ sights. WhereTold (W.device work.old) (λ w. (read : Items ℕ → Option RecordValue)
        → IsStoreOf (seen read w) store.now → AreSummedUnowned w (seen read w) jobs.now sights)) }
    ensures spared { IfOk result (λ sights. AreSpared store.now jobs.now sights) }
{
    let seen = seen_of(alloc, work, jobs)?;
    let found = summed(rt, alloc, work, jobs, store, seen)?;
    Ok(found)
}

// The same fault.
fn fault_of(fault: WorkFault) -> LookFault
    ensures { result ≡ look_fault fault }
{
    match fault {
        WorkFault::Failed => LookFault::Device,
        WorkFault::OutOfMemory => LookFault::OutOfMemory,
    }
}

/// Looks at each output of the jobs and each source among their makers, each once: what stands there; of a folder all that is under it, where a
/// record may have it; and whether a read-only file stands there or under it. Nothing is changed. A folder with all that is under it is listed twice.
/// Then the sources are digested that a record of one of the jobs that use them has with a SHA-256 and another time, by the store: each once, and
/// none of more than 1,048,576 bytes. No other file is read.
///
/// `Device`: a call of the device failed. `OutOfMemory`: there is no memory for what is found.
pub fn look<W: Files, Rt: Threads + Sync>(
    rt: &Rt,
    alloc: Global,
    work: &mut W,
    jobs: &Jobs,
    store: &Store,
) -> Result<Seen, LookFault>
    ensures looked { HasLooked W.act (W.device work.old) (W.device work.new) (look_failed result) }

    // Each output and each source is seen as it stands in the folder, where no running child owns it or anything under it. A digest is that of
    // the file.
    ensures told { IfOk result (λ sights. WhereTold (W.device work.old) (λ w. (read : Items ℕ → Option RecordValue)
        → AreSeenUnowned w (seen read w) jobs.now sights)) }

    // Each source is seen with its digest where that is needed, if the store is the folder's.
    ensures summed { IfOk result (λ sights. WhereTold (W.device work.old) (λ w. (read : Items ℕ → Option RecordValue)
        → IsStoreOf (seen read w) store.now → AreSummedUnowned w (seen read w) jobs.now sights)) }

    // There are no other digests.
    ensures spared { IfOk result (λ sights. AreSpared store.now jobs.now sights) }
{
    match look_at(rt, alloc, work, jobs, store) {
        Ok(seen) => Ok(seen),
        Err(fault) => Err(fault_of(fault)),
    }
}
