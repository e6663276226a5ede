//! The sources that records name, and which of them are seen.

ghost use Rattle.std.specs.Prelude.{◌≡◌, ◌≢◌, ◌∷◌, ◌++◌, ℕ, List as Items, Some, IfOk, OnOk};
ghost use Rattle.std.specs.List.{flat_map, zip};
ghost use Rattle.smk_base.specs.Path.{is_at_or_under};
ghost use Rattle.smk_record.specs.Records.{stamped, source_time};
ghost use Rattle.smk_world.specs.declared.event.NodeState.TheVariants.{Owned};
ghost use Rattle.smk_world.specs.Calls.{device_failed};
ghost use Rattle.smk_world.specs.Devices.{WhereTold, HasLooked};
ghost use Rattle.smk_store.specs.Sources.{source_of, sources_of, entry_sources, all_sources, has_time, is_seen, comes_before, earlier, first_seen, AreUnowned};
ghost use Rattle.smk_store.specs.Unowned.{IsUnownedUnder};

use crate::{Entry, Kept, Store};
use smk_base::{List, OutOfMemory, PathText, Place};
use smk_record::{Record, Stamp};
use smk_world::{Files, Item, Stat, WorkFault};
use std::alloc::Global;
use std::cmp::Ordering;

/// A source with the time that a record holds of it.
#[derive(Drop)]
pub(crate) struct Source {
    pub path: PathText,
    pub time: u64,
}

// Whether the path is the folder, or under it.
fn is_within(path: &PathText, folder: &PathText) -> bool
    ensures { result ≡ is_at_or_under path.now folder.now }
{
    path.as_str() == folder.as_str() || path.is_under(folder)
}

// The time of what was stamped, where that was a source.
fn time_of(stamp: Stamp) -> Option<u64>
    ensures { result ≡ source_time stamp }
{
    match stamp {
        Stamp::Time(time) => Some(time),
        Stamp::Sum(time, _) => Some(time),
        Stamp::Made(_) => None,
    }
}

// Adds the input, where it was a source and is at or under the path p.
fn push_source(
    alloc: Global,
    found: &mut List<Source>,
    p: &PathText,
    path: &PathText,
    stamp: Stamp,
) -> Result<(), OutOfMemory>
    ensures { OnOk result (found.new ≡ found.old ++ source_of p.now (path.now, stamp)) }
{
    match time_of(stamp) {
        Some(time) => {
            if is_within(path, p) {
                let path = path.copy(alloc)?;
                found.push(Source { path, time })?;
            }
            Ok(())
        }
        None => Ok(()),
    }
}

// Adds the input with this path and the first of the stamps. The stamps after that are the answer.
fn push_path<'a>(
    alloc: Global,
    found: &mut List<Source>,
    p: &PathText,
    path: &PathText,
    stamps: &'a [Stamp],
) -> Result<&'a [Stamp], OutOfMemory>
    ensures { IfOk result (λ rest. (later : Items (Items ℕ)) → found.new ++ sources_of p.now (zip later rest.now) ≡ found.old ++ sources_of p.now (zip (path.now ∷ later) stamps.now)) }
{
    match stamps.split_first() {
        None => Ok(stamps),
        Some((stamp, more)) => {
            push_source(alloc, found, p, path, *stamp)?;
            Ok(more)
        }
    }
}

// Adds the inputs with these paths. The stamps after theirs are the answer.
fn push_paths<'a>(
    alloc: Global,
    found: &mut List<Source>,
    p: &PathText,
    paths: &[PathText],
    stamps: &'a [Stamp],
) -> Result<&'a [Stamp], OutOfMemory>
    ensures { IfOk result (λ rest. (later : Items (Items ℕ)) → found.new ++ sources_of p.now (zip later rest.now) ≡ found.old ++ sources_of p.now (zip (paths.now ++ later) stamps.now)) }
{
    let mut rest = stamps;
    for path in paths {
        rest = push_path(alloc, found, p, path, rest)?;
    }
    Ok(rest)
}

// Adds the inputs of these items.
fn push_items(
    alloc: Global,
    found: &mut List<Source>,
    p: &PathText,
    inputs: &[Item],
    stamps: &[Stamp],
) -> Result<(), OutOfMemory>
    ensures { OnOk result (found.new ≡ found.old ++ sources_of p.now (zip (flat_map (λ item. item.paths) inputs.now) stamps.now)) }
{
    let mut rest = stamps;
    for item in inputs {
        rest = push_paths(alloc, found, p, item.paths.as_slice(), rest)?;
    }
    Ok(())
}

// Adds the inputs of the record.
fn push_record(
    alloc: Global,
    found: &mut List<Source>,
    p: &PathText,
    held: &Record,
) -> Result<(), OutOfMemory>
    ensures { OnOk result (found.new ≡ found.old ++ sources_of p.now (stamped held.now)) }
{
    push_items(
        alloc,
        found,
        p,
        held.recipe().inputs.as_slice(),
        held.stamps().as_slice(),
    )
}

// Adds the inputs of the path's record, where it reads.
fn push_entry(
    alloc: Global,
    found: &mut List<Source>,
    p: &PathText,
    entry: &Entry,
) -> Result<(), OutOfMemory>
    ensures { OnOk result (found.new ≡ found.old ++ entry_sources p.now entry.now) }
{
    match &entry.kept {
        Kept::Absent => Ok(()),
        Kept::Unreadable => Ok(()),
        Kept::Held(record) => push_record(alloc, found, p, record),
    }
}

// The sources in all of these that are at or under the path p.
fn sources_in(alloc: Global, entries: &[Entry], p: &PathText) -> Result<List<Source>, OutOfMemory>
    ensures { IfOk result (λ found. found ≡ flat_map (entry_sources p.now) entries.now) }
{
    let mut found = List::new(alloc);
    for entry in entries {
        push_entry(alloc, &mut found, p, entry)?;
    }
    Ok(found)
}

// The sources that the store's records name at or under the path p.
fn sources_under(alloc: Global, store: &Store, p: &PathText) -> Result<List<Source>, OutOfMemory>
    ensures { IfOk result (λ found. found ≡ all_sources p.now store.now) }
{
    sources_in(alloc, store.entries().as_slice(), p)
}

// Whether what was looked at is a file with this time.
fn has_time(time: u64, stat: Stat) -> bool
    ensures { result ≡ has_time time stat }
{
    match stat {
        Stat::Nothing => false,
        Stat::File { time: now, .. } => now == time,
        Stat::Folder => false,
    }
}

// Whether a file is there with the source's time.
fn is_seen<W: Files>(alloc: Global, work: &mut W, source: &Source) -> Result<bool, WorkFault>
    ensures looked { HasLooked W.act (W.device work.old) (W.device work.new) (device_failed result) }
    ensures told { IfOk result (λ seen. WhereTold (W.device work.old) (λ w. w.nodes source.now.path ≢ Owned → seen ≡ is_seen w source.now)) }
{
    let place = Place::user(alloc, &source.path)?;
    let stat = work.stat(&place)?;
    Ok(has_time(source.time, stat))
}

// Whether the path comes before that one, if there is one.
fn comes_before(path: &PathText, first: &Option<PathText>) -> bool
    ensures { result ≡ comes_before path.now first.now }
{
    match first {
        None => true,
        Some(first) => { path.as_str().as_bytes().cmp(first.as_str().as_bytes()) == Ordering::Less }
    }
}

// The earlier of the two paths, where this one counts.
fn earlier(
    alloc: Global,
    first: Option<PathText>,
    path: &PathText,
    counts: bool,
) -> Result<Option<PathText>, OutOfMemory>
    ensures { IfOk result (λ now. now ≡ earlier first path.now counts) }
{
    if counts && comes_before(path, &first) {
        return Ok(Some(path.copy(alloc)?));
    }
    Ok(first)
}

// The first path, in byte order, of the sources that are seen.
fn first_seen<W: Files>(
    alloc: Global,
    work: &mut W,
    sources: &[Source],
) -> Result<Option<PathText>, WorkFault>
    ensures looked { HasLooked W.act (W.device work.old) (W.device work.new) (device_failed result) }
    ensures told { IfOk result (λ first. WhereTold (W.device work.old) (λ w. AreUnowned w sources.now → first ≡ first_seen (is_seen w) sources.now)) }
{
    let mut first = None;
    for source in sources {
        let seen = is_seen(alloc, work, source)?;
        first = earlier(alloc, first, &source.path, seen)?;
    }
    Ok(first)
}

/// The first path, in byte order, at or under the path p of a file that has the time which a record of the store holds of it.
pub(crate) fn seen_under<W: Files>(
    alloc: Global,
    work: &mut W,
    store: &Store,
    p: &PathText,
) -> Result<Option<PathText>, WorkFault>
    ensures looked { HasLooked W.act (W.device work.old) (W.device work.new) (device_failed result) }
    ensures told { IfOk result (λ first. WhereTold (W.device work.old) (λ w. IsUnownedUnder w.nodes p.now → first ≡ first_seen (is_seen w) (all_sources p.now store.now))) }
{
    let sources = sources_under(alloc, store, p)?;
    first_seen(alloc, work, sources.as_slice())
}
