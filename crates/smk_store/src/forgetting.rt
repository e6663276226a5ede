//! Forgetting what is known of a path.

ghost use Rattle.std.specs.Prelude.{◌≡◌, [], ◌∷◌, ◌++◌, IfOk, is_some, is_err};
ghost use Rattle.smk_base.specs.Place.{record_place, mark_place, note_place, records_folder, marks_folder, notes_folder};
ghost use Rattle.smk_world.specs.Devices.{HasActed, HasCarried};
ghost use Rattle.smk_world.specs.Requests.Request.{Settle};
ghost use Rattle.smk_store.specs.Faults.{store_failed};
ghost use Rattle.smk_store.specs.Forgetting.{HasForgotten};
ghost use Rattle.smk_store.specs.Steps.{remove_each};
ghost use Rattle.smk_store.specs.Stores.{entry_of};

use crate::sources::seen_under;
use crate::steps::remove_each;
use crate::{Store, StoreFault};
use smk_base::{List, OutOfMemory, PathText, Place};
use smk_world::{Failed, Files, WorkFault};
use std::alloc::Global;

// What is made firm first, and what is removed then.
#[derive(Drop)]
struct ForgetPlaces {
    around: List<Place>,
    records: List<Place>,
    marks: List<Place>,
}

// The places of the path.
fn places_of(alloc: Global, p: &PathText) -> Result<ForgetPlaces, OutOfMemory>
    ensures { IfOk result (λ places. (places.around ≡ p.now ∷ records_folder ∷ marks_folder ∷ notes_folder ∷ [])
        × (places.records ≡ record_place p.now ∷ note_place p.now ∷ []) × (places.marks ≡ mark_place p.now ∷ [])) }
{
    let mut around = List::new(alloc);
    around.push(Place::user(alloc, p)?)?;
    around.push(Place::records(alloc)?)?;
    around.push(Place::marks(alloc)?)?;
    around.push(Place::notes(alloc)?)?;
    let mut records = List::new(alloc);
    records.push(Place::record_of(alloc, p)?)?;
    records.push(Place::note_of(alloc, p)?)?;
    let mut marks = List::new(alloc);
    marks.push(Place::mark_of(alloc, p)?)?;
    Ok(ForgetPlaces {
        around,
        records,
        marks,
    })
}

// Removes the places, and makes that firm.
fn clear<W: Files>(work: &mut W, places: &List<Place>) -> Result<(), Failed>
    requires none_runs { (W.device work.old).running ≡ [] }
    ensures { HasCarried W.act (remove_each places.now ++ Settle places.now ∷ []) (W.device work.old) (W.device work.new) (is_err result) }
{
    remove_each(work, places.as_slice())?;
    work.settle(places)
}

// All calls that come after the looks.
fn clear_all<W: Files>(work: &mut W, places: &ForgetPlaces) -> Result<(), Failed>
    requires none_runs { (W.device work.old).running ≡ [] }
    ensures { HasCarried W.act (Settle places.now.around ∷ ((remove_each places.now.records ++ Settle places.now.records ∷ [])
        ++ (remove_each places.now.marks ++ Settle places.now.marks ∷ []))) (W.device work.old) (W.device work.new) (is_err result) }
{
    work.settle(&places.around)?;
    clear(work, &places.records)?;
    clear(work, &places.marks)
}

/// Forgets the path: its record, its note and at last its mark are removed for good. Answers whether anything was known of it; where
/// nothing was, nothing is changed. The store has just the records, marks and notes that stand, and no child runs.
///
/// `StampSeen` exactly where a file at or under the path has a time that a readable record, marked or not, holds as the stamp of that
/// source: with the first such file in byte order. Then nothing was changed. `Device`: a call failed, and none came after it.
/// `OutOfMemory`: there is no memory for the places; then nothing was changed.
pub fn forget<W: Files>(
    alloc: Global,
    work: &mut W,
    store: &Store,
    p: &PathText,
) -> Result<bool, StoreFault>
    requires none_runs { (W.device work.old).running ≡ [] }
    ensures acted { HasActed W.act (HasForgotten store.now p.now result) (W.device work.old) (W.device work.new) (store_failed result) }
    ensures known { IfOk result (λ was_known. was_known ≡ is_some (entry_of store.now p.now)) }
{
    let Ok(places) = places_of(alloc, p) else {
        return Err(StoreFault::OutOfMemory);
    };
    match seen_under(alloc, work, store, p) {
        Ok(None) => {}
        Ok(Some(seen)) => return Err(StoreFault::StampSeen(seen)),
        Err(WorkFault::Failed) => return Err(StoreFault::Device),
        Err(WorkFault::OutOfMemory) => return Err(StoreFault::OutOfMemory),
    }
    if store.entry(p).is_none() {
        return Ok(false);
    }
    match clear_all(work, &places) {
        Ok(()) => Ok(true),
        Err(Failed) => Err(StoreFault::Device),
    }
}
