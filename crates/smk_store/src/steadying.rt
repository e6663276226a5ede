//! Making firm what was loaded.

ghost use Rattle.std.specs.Prelude.{◌≡◌, ◌≢◌, ◌++◌, ℕ, List as Items, length, map, IfOk, OnOk, IfErr};
ghost use Rattle.std.specs.List.{flat_map};
ghost use Rattle.smk_world.specs.Devices.{HasActed};
ghost use Rattle.smk_store.specs.Faults.{store_failed};
ghost use Rattle.smk_store.specs.Stores.{known};
ghost use Rattle.smk_store.specs.Steadying.{HasTried, signs_of, all_signs, steady_requests};

use crate::{Entry, Store, StoreFault};
use smk_base::{List, OutOfMemory, PathText, Place};
use smk_world::{Failed, Files};
use std::alloc::Global;

// Adds the places of the path's mark and note, where they stand.
fn push_signs(
    alloc: Global,
    places: &mut List<Place>,
    path: &PathText,
    entry: &Entry,
) -> Result<(), OutOfMemory>
    ensures { OnOk result (places.new ≡ places.old ++ signs_of (record { path = path.now; entry = entry.now })) }
{
    if entry.marked {
        places.push(Place::mark_of(alloc, path)?)?;
    }
    if entry.noted {
        places.push(Place::note_of(alloc, path)?)?;
    }
    Ok(())
}

// The places of all marks and notes of the paths.
fn signs_in(
    alloc: Global,
    paths: &[PathText],
    entries: &[Entry],
) -> Result<List<Place>, OutOfMemory>
    requires each { length entries.now ≡ length paths.now }
    ensures { IfOk result (λ places. places ≡ all_signs (known paths.now entries.now)) }
{
    let mut places = List::new(alloc);
    for (i, path) in paths.iter().enumerate() {
        push_signs(alloc, &mut places, path, &entries[i])?;
    }
    Ok(places)
}

// The places of all marks and notes that were loaded.
fn signs_of(alloc: Global, store: &Store) -> Result<List<Place>, OutOfMemory>
    ensures { IfOk result (λ places. places ≡ all_signs store.now) }
{
    signs_in(alloc, store.paths().as_slice(), store.entries().as_slice())
}

/// Makes firm every mark and note that was loaded, together. Where there is none this is still one call, on no place.
///
/// `Device`: that call failed. `OutOfMemory`: there is no memory for the places; then no call was made.
pub fn steady<W: Files>(alloc: Global, work: &mut W, store: &Store) -> Result<(), StoreFault>
    ensures acted { HasActed W.act (HasTried (steady_requests store.now) result) (W.device work.old) (W.device work.new) (store_failed result) }
    ensures untouched { IfErr result (λ fault. fault ≢ StoreFault.Device → work.new ≡ work.old) }
    ensures no_stamp { IfErr result (λ fault. (p : Items ℕ) → fault ≢ StoreFault.StampSeen p) }
{
    let Ok(places) = signs_of(alloc, store) else {
        return Err(StoreFault::OutOfMemory);
    };
    match work.settle(&places) {
        Ok(()) => Ok(()),
        Err(Failed) => Err(StoreFault::Device),
    }
}
