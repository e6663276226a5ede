//! Loading what stands of the engine's own files.

ghost use Rattle.std.specs.Prelude.{◌≡◌, ◌≢◌, ◌||◌, ◌^◌, ◌<◌, ℕ, List as Items, Option, IfOk, IfErr, OnOk, IsSome, length, option_map, map, true};
ghost use Rattle.std.specs.BTreeSet.{contains_text};
ghost use Rattle.std.specs.List.{filter};
ghost use Rattle.smk_base.specs.Place.{record_place};
ghost use Rattle.smk_world.specs.World.{reading};
ghost use Rattle.smk_world.specs.Calls.{found_of, device_failed};
ghost use Rattle.smk_world.specs.Devices.{WhereTold, HasLooked};
ghost use Rattle.smk_world.specs.declared.event.Node.{Node};
ghost use Rattle.smk_world.specs.Trees.{is_path_text};
ghost use Rattle.smk_record.specs.declared.record.Record.{Record as RecordValue};
ghost use Rattle.smk_record.specs.Spelling.{ReadsRecords};
ghost use Rattle.smk_store.specs.Images.{seen, for_path, kept_by};
ghost use Rattle.smk_store.specs.Faults.{store_failed};
ghost use Rattle.smk_store.specs.Loading.{IsStoreOf, store_folder, entry_at};
ghost use Rattle.smk_store.specs.Unowned.{IsUnownedUnder};
ghost use Rattle.smk_store.specs.Walking.{HasSigns, texts_of, path_in, known_all};

use crate::names::paths_in;
use crate::{Entry, Kept, Store, StoreFault};
use smk_base::{List, OutOfMemory, PathFault, PathText, Place};
use smk_record::read;
use smk_world::{Files, Found, WorkFault};
use std::alloc::Global;
use std::collections::BTreeSet;

// A file of more bytes isn't read as a record.
const RECORD_LIMIT: u64 = 33_554_432;

// The paths of which a record, a mark or a note stands.
#[derive(Drop)]
struct Signs {
    records: BTreeSet<String>,
    marks: BTreeSet<String>,
    notes: BTreeSet<String>,
}

// Looks for all of them.
fn signs_in<W: Files>(alloc: Global, work: &mut W) -> Result<Signs, WorkFault>
    ensures looked { HasLooked W.act (W.device work.old) (W.device work.new) (device_failed result) }
    ensures told { IfOk result (λ signs. WhereTold (W.device work.old) (λ w. IsUnownedUnder w.nodes store_folder
        → HasSigns w (λ q. contains_text signs.records q) (λ q. contains_text signs.marks q) (λ q. contains_text signs.notes q))) }
{
    let records = paths_in(alloc, work, &Place::records(alloc)?)?;
    let marks = paths_in(alloc, work, &Place::marks(alloc)?)?;
    let notes = paths_in(alloc, work, &Place::notes(alloc)?)?;
    Ok(Signs {
        records,
        marks,
        notes,
    })
}

// Adds the texts of the other set.
fn add_texts(
    alloc: Global,
    all: &mut BTreeSet<String>,
    more: &BTreeSet<String>,
) -> Result<(), OutOfMemory>
    ensures { OnOk result ((q : Items ℕ) → contains_text all.new q ≡ (contains_text all.old q || contains_text more.now q)) }
{
    for text in more {
        let copy = String::from_str(alloc, text.as_str())?;
        all.insert(copy)?;
    }
    Ok(())
}

// The paths of which something stands.
fn all_texts(alloc: Global, signs: &Signs) -> Result<BTreeSet<String>, OutOfMemory>
    ensures { IfOk result (λ all. (q : Items ℕ) → contains_text all q ≡ (contains_text signs.now.records q || (contains_text signs.now.marks q || contains_text signs.now.notes q))) }
{
    let mut all = BTreeSet::new(alloc);
    add_texts(alloc, &mut all, &signs.records)?;
    add_texts(alloc, &mut all, &signs.marks)?;
    add_texts(alloc, &mut all, &signs.notes)?;
    Ok(all)
}

// The record of the path in these bytes of a file. It counts only where it is of this path.
fn kept_in(alloc: Global, path: &PathText, bytes: &[u8]) -> Result<Kept, OutOfMemory>
    ensures { IfOk result (λ kept. (read : Items ℕ → Option RecordValue) → ReadsRecords read → length bytes.now < 2 ^ 64 → kept ≡ for_path path.now (read bytes.now)) }
{
    let Some(record) = read(alloc, bytes)? else {
        return Ok(Kept::Unreadable);
    };
    if record.path().as_str() == path.as_str() {
        Ok(Kept::Held(record))
    } else {
        Ok(Kept::Unreadable)
    }
}

// The record of the path by what a read of its place found, where something stands there.
fn kept_found(alloc: Global, path: &PathText, found: Found) -> Result<Kept, OutOfMemory>
    ensures { IfOk result (λ kept. (read : Items ℕ → Option RecordValue) → ReadsRecords read
        → (node : Option Node) → IsSome node → found ≡ found_of 33554432 node → kept ≡ kept_by read path.now node) }
{
    match found {
        Found::Held(bytes) => kept_in(alloc, path, bytes.as_slice()),
        Found::TooBig(_) => Ok(Kept::Unreadable),
        Found::Nothing => Ok(Kept::Unreadable),
    }
}

// The record of the path, where something stands in its place.
fn kept_at<W: Files>(alloc: Global, work: &mut W, path: &PathText) -> Result<Kept, WorkFault>
    ensures looked { HasLooked W.act (W.device work.old) (W.device work.new) (device_failed result) }
    ensures told { IfOk result (λ kept. WhereTold (W.device work.old) (λ w. IsUnownedUnder w.nodes store_folder → IsSome (reading (w.nodes (record_place path.now)))
        → (read : Items ℕ → Option RecordValue) → ReadsRecords read → kept ≡ kept_by read path.now (reading (w.nodes (record_place path.now))))) }
{
    let place = Place::record_of(alloc, path)?;
    let found = work.read(alloc, &place, RECORD_LIMIT)?;
    Ok(kept_found(alloc, path, found)?)
}

// The record of the path.
fn kept_of<W: Files>(
    alloc: Global,
    work: &mut W,
    signs: &Signs,
    path: &PathText,
) -> Result<Kept, WorkFault>
    ensures looked { HasLooked W.act (W.device work.old) (W.device work.new) (device_failed result) }
    ensures told { IfOk result (λ kept. WhereTold (W.device work.old) (λ w. IsUnownedUnder w.nodes store_folder
        → HasSigns w (λ q. contains_text signs.now.records q) (λ q. contains_text signs.now.marks q) (λ q. contains_text signs.now.notes q) → is_path_text path.now ≡ true
        → (read : Items ℕ → Option RecordValue) → ReadsRecords read → kept ≡ (seen read w).kept path.now)) }
{
    if signs.records.contains(path.as_str()) {
        kept_at(alloc, work, path)
    } else {
        Ok(Kept::Absent)
    }
}

// All that is known of the path.
fn entry_of<W: Files>(
    alloc: Global,
    work: &mut W,
    signs: &Signs,
    path: &PathText,
) -> Result<Entry, WorkFault>
    ensures looked { HasLooked W.act (W.device work.old) (W.device work.new) (device_failed result) }
    ensures told { IfOk result (λ entry. WhereTold (W.device work.old) (λ w. IsUnownedUnder w.nodes store_folder
        → HasSigns w (λ q. contains_text signs.now.records q) (λ q. contains_text signs.now.marks q) (λ q. contains_text signs.now.notes q) → is_path_text path.now ≡ true
        → (read : Items ℕ → Option RecordValue) → ReadsRecords read → entry ≡ entry_at (seen read w) path.now)) }
{
    let kept = kept_of(alloc, work, signs, path)?;
    Ok(Entry {
        kept,
        marked: signs.marks.contains(path.as_str()),
        noted: signs.notes.contains(path.as_str()),
    })
}

// The path that the text is. None where it is none.
fn path_in(alloc: Global, text: &str) -> Result<Option<PathText>, OutOfMemory>
    ensures { IfOk result (λ path. path ≡ path_in text.now) }
{
    match PathText::read(alloc, text) {
        Ok(path) => Ok(Some(path)),
        Err(PathFault::BadPath) => Ok(None),
        Err(PathFault::OutOfMemory) => Err(OutOfMemory),
    }
}

// The store of the texts that are paths.
fn store_of<W: Files>(
    alloc: Global,
    work: &mut W,
    signs: &Signs,
    all: &BTreeSet<String>,
) -> Result<Store, WorkFault>
    ensures looked { HasLooked W.act (W.device work.old) (W.device work.new) (device_failed result) }
    ensures told { IfOk result (λ store. WhereTold (W.device work.old) (λ w. IsUnownedUnder w.nodes store_folder
        → HasSigns w (λ q. contains_text signs.now.records q) (λ q. contains_text signs.now.marks q) (λ q. contains_text signs.now.notes q)
        → (read : Items ℕ → Option RecordValue) → ReadsRecords read → store ≡ known_all (seen read w) (filter is_path_text (texts_of all.now.keys)))) }
{
    let mut paths = List::new(alloc);
    let mut entries = List::new(alloc);
    for text in all {
        let Some(path) = path_in(alloc, text.as_str())? else {
            continue;
        };
        let entry = entry_of(alloc, work, signs, &path)?;
        paths.push(path)?;
        entries.push(entry)?;
    }
    Ok(Store::of(paths, entries))
}

// The whole store.
fn loaded<W: Files>(alloc: Global, work: &mut W) -> Result<Store, WorkFault>
    ensures looked { HasLooked W.act (W.device work.old) (W.device work.new) (device_failed result) }
    ensures told { IfOk result (λ store. WhereTold (W.device work.old) (λ w. IsUnownedUnder w.nodes store_folder
        → (read : Items ℕ → Option RecordValue) → ReadsRecords read → IsStoreOf (seen read w) store)) }
{
    let signs = signs_in(alloc, work)?;
    let all = all_texts(alloc, &signs)?;
    store_of(alloc, work, &signs, &all)
}

/// All records, marks and notes that stand. Nothing is changed. The time is near linear in their number.
///
/// `Device`: a call of the device failed. `OutOfMemory`: there is no memory for the store.
pub fn load<W: Files>(alloc: Global, work: &mut W) -> Result<Store, StoreFault>
    ensures looked { HasLooked W.act (W.device work.old) (W.device work.new) (store_failed result) }

    // The store has just the records, marks and notes that stand.
    ensures told { IfOk result (λ store. WhereTold (W.device work.old) (λ w. IsUnownedUnder w.nodes store_folder
        → (read : Items ℕ → Option RecordValue) → ReadsRecords read → IsStoreOf (seen read w) store)) }
    ensures no_stamp { IfErr result (λ fault. (p : Items ℕ) → fault ≢ StoreFault.StampSeen p) }
{
    match loaded(alloc, work) {
        Ok(store) => Ok(store),
        Err(WorkFault::Failed) => Err(StoreFault::Device),
        Err(WorkFault::OutOfMemory) => Err(StoreFault::OutOfMemory),
    }
}
