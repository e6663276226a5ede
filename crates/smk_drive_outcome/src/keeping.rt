//! The record of one path, as it stands.

ghost use Rattle.std.specs.Prelude.{◌≡◌, ◌^◌, ◌<◌, ℕ, List as Items, Option, IfOk, IsSome, length};
ghost use Rattle.smk_base.specs.Place.{record_place};
ghost use Rattle.smk_world.specs.declared.event.Node.{Node};
ghost use Rattle.smk_world.specs.World.{reading};
ghost use Rattle.smk_world.specs.Calls.{device_failed, found_of};
ghost use Rattle.smk_world.specs.Devices.{HasLooked, WhereTold};
ghost use Rattle.smk_record.specs.declared.record.Record.{Record as RecordValue};
ghost use Rattle.smk_record.specs.Spelling.{ReadsRecords};
ghost use Rattle.smk_store.specs.Images.{for_path, kept_by};
ghost use Rattle.smk_store.specs.Loading.{store_folder};
ghost use Rattle.smk_store.specs.Unowned.{IsUnownedUnder};
ghost use Rattle.smk_drive_outcome.specs.Outcomes.{is_missing, kept_without};

use smk_base::{OutOfMemory, PathText, Place};
use smk_record::read;
use smk_store::Kept;
use smk_world::{Files, Found, Stat, WorkFault};
use std::alloc::Global;

// A file of more bytes isn't read as a record.
const RECORD_LIMIT: u64 = 33_554_432;

// The record of the path in these bytes of a file. It counts only where it is of this path.
fn kept_in(alloc: Global, path: &PathText, bytes: &[u8]) -> Result<Kept, OutOfMemory>
    ensures { IfOk result (λ kept. (read : Items ℕ → Option RecordValue) → ReadsRecords read
        → length bytes.now < 2 ^ 64 → kept ≡ for_path path.now (read bytes.now)) }
{
    let Some(record) = read(alloc, bytes)? else {
        return Ok(Kept::Unreadable);
    };
    if record.path().as_str() == path.as_str() {
        Ok(Kept::Held(record))
    } else {
        Ok(Kept::Unreadable)
    }
}

// The record of the path by what a read of its place found, where something stands there.
fn kept_found(alloc: Global, path: &PathText, found: Found) -> Result<Kept, OutOfMemory>
    ensures { IfOk result (λ kept. (read : Items ℕ → Option RecordValue) → ReadsRecords read
        → (node : Option Node) → IsSome node → found ≡ found_of 33554432 node → kept ≡ kept_by read path.now node) }
{
    match found {
        Found::Held(bytes) => kept_in(alloc, path, bytes.as_slice()),
        Found::TooBig(_) => Ok(Kept::Unreadable),
        Found::Nothing => Ok(Kept::Unreadable),
    }
}

// Whether no file was found.
fn is_missing(found: &Found) -> bool
    ensures { result ≡ is_missing found.now }
{
    match found {
        Found::Held(_) => false,
        Found::TooBig(_) => false,
        Found::Nothing => true,
    }
}

// What is kept where no file was found, and this stands there.
fn kept_without(stat: Stat) -> Kept
    ensures { result ≡ kept_without stat }
{
    match stat {
        Stat::Nothing => Kept::Absent,
        Stat::File { .. } => Kept::Unreadable,
        Stat::Folder => Kept::Unreadable,
    }
}

/// What is kept of the path: its record, as it stands. Nothing is changed.
pub(crate) fn kept_at<W: Files>(
    alloc: Global,
    work: &mut W,
    path: &PathText,
) -> Result<Kept, WorkFault>
    ensures looked { HasLooked W.act (W.device work.old) (W.device work.new) (device_failed result) }
    ensures told { IfOk result (λ kept. WhereTold (W.device work.old) (λ w. IsUnownedUnder w.nodes store_folder
        → (read : Items ℕ → Option RecordValue) → ReadsRecords read → kept ≡ kept_by read path.now (reading (w.nodes (record_place path.now))))) }
{
    let place = Place::record_of(alloc, path)?;
    let found = work.read(alloc, &place, RECORD_LIMIT)?;
    if is_missing(&found) {
        let stat = work.stat(&place)?;
        return Ok(kept_without(stat));
    }
    Ok(kept_found(alloc, path, found)?)
}
