//! The stamps of inputs now.

ghost use Rattle.std.specs.Prelude.{◌≡◌, ◌||◌, [], ◌∷◌, if◌then◌else◌, IfOk, OnOk, option_map, None};
ghost use Rattle.std.specs.List.{list_any};
ghost use Rattle.std.specs.BTreeSet.{contains_text};
ghost use Rattle.smk_world.specs.World.{folders_above};
ghost use Rattle.smk_world.specs.Trees.{Path, among};
ghost use Rattle.smk_store.specs.Stores.{entry_of};
ghost use Rattle.smk_store.specs.Trust.{is_folder_record, made_stamp};
ghost use Rattle.smk_plan_facts.specs.Facts.{told_sources};
ghost use Rattle.smk_plan_facts.specs.Telling.{is_directory_at, makes_directory_at, nearer, nearest, product_in, file_stamp, source_in, stamp_in, stamp_seen, stamp_with};

use crate::known::{is_marked, record_at};
use smk_base::{List, OutOfMemory, PathText, Sum};
use smk_chain::Maker;
use smk_chain::sets::put;
use smk_choose::folders_above;
use smk_plan::{Sight, Told};
use smk_record::{Record, Stamp};
use smk_world::{Item, Kind, Out, OutItem, Stat};
use std::alloc::Global;
use std::collections::BTreeSet;

// Adds the path of the maker, where no job makes it.
fn add_source(alloc: Global, set: &mut BTreeSet<String>, maker: &Maker) -> Result<(), OutOfMemory>
    ensures { OnOk result ((q : Path) → contains_text set.new q ≡ (among (told_sources (maker.now ∷ [])) q || contains_text set.old q)) }
{
    match maker.job {
        None => put(alloc, set, &maker.path),
        Some(_) => Ok(()),
    }
}

/// The paths that no job makes, as the makers tell. `OutOfMemory` where there is no memory for them.
pub fn sources_of(alloc: Global, makers: &[Maker]) -> Result<BTreeSet<String>, OutOfMemory>
    ensures { IfOk result (λ set. (q : Path) → contains_text set q ≡ among (told_sources makers.now) q) }
{
    let mut set = BTreeSet::new(alloc);
    for maker in makers {
        add_source(alloc, &mut set, maker)?;
    }
    Ok(set)
}

// The serial of a record, as a stamp.
fn stamp_of(held: Option<&Record>) -> Option<Stamp>
    ensures { result ≡ made_stamp (option_map (λ r. r.now) held.entry) }
{
    match held {
        None => None,
        Some(held) => Some(Stamp::Made(held.made())),
    }
}

// The stamp of what the record of a path speaks for: none where the path has a mark.
fn own_stamp(marked: bool, held: Option<&Record>) -> Option<Stamp>
    ensures { result ≡ (if marked then None else made_stamp (option_map (λ r. r.now) held.entry)) }
{
    if marked {
        return None;
    }
    stamp_of(held)
}

// Whether the output is a directory at the path.
fn is_directory_at(out: &Out, path: &PathText) -> bool
    ensures { result ≡ is_directory_at path.now out.now }
{
    match out.kind {
        Kind::Plain => false,
        Kind::Folder => path.as_str() == out.path.as_str(),
    }
}

// Whether one of the outputs is a directory at the path.
fn has_directory(outs: &[Out], path: &PathText) -> bool
    ensures { result ≡ list_any (is_directory_at path.now) outs.now }
{
    for out in outs {
        if is_directory_at(out, path) {
            return true;
        }
    }
    false
}

// The same for the outputs of these items.
fn makes_directory(outputs: &[OutItem], path: &PathText) -> bool
    ensures { result ≡ list_any (makes_directory_at path.now) outputs.now }
{
    for item in outputs {
        if has_directory(item.outs.as_slice(), path) {
            return true;
        }
    }
    false
}

// Whether the record is that of a directory output at the path.
fn is_directory(held: Option<&Record>, path: &PathText) -> bool
    ensures { result ≡ is_folder_record path.now (option_map (λ r. r.now) held.entry) }
{
    match held {
        None => false,
        Some(held) => makes_directory(held.recipe().outputs.as_slice(), path),
    }
}

// The stamp of the folder, where it has the record of a directory, and else the one that was found.
fn nearer<T: Told>(told: &T, folder: &PathText, found: Option<Stamp>) -> Option<Stamp>
    ensures { result ≡ nearer (entry_of (T.known told.now) folder.now) folder.now found }
{
    let held = record_at(told, folder);
    if is_directory(held, folder) {
        return own_stamp(is_marked(told, folder), held);
    }
    found
}

// The stamp of the nearest folder above the path that has the record of a directory.
fn stamp_above<T: Told>(
    alloc: Global,
    told: &T,
    path: &PathText,
) -> Result<Option<Stamp>, OutOfMemory>
    ensures { IfOk result (λ stamp. stamp ≡ nearest (T.known told.now) None (folders_above path.now)) }
{
    let folders = folders_above(alloc, path)?;
    let mut found = None;
    for folder in &folders {
        found = nearer(told, folder, found);
    }
    Ok(found)
}

// The stamp of a product: that of its own record, or else of the nearest directory above it.
fn product_stamp<T: Told>(
    alloc: Global,
    told: &T,
    path: &PathText,
) -> Result<Option<Stamp>, OutOfMemory>
    ensures { IfOk result (λ stamp. stamp ≡ product_in (T.known told.now) path.now) }
{
    let held = record_at(told, path);
    if held.is_some() {
        return Ok(own_stamp(is_marked(told, path), held));
    }
    stamp_above(alloc, told, path)
}

// The stamp of a source of this time, with its digest where that was taken.
fn stamp_with(time: u64, sum: Option<Sum>) -> Stamp
    ensures { result ≡ stamp_with time sum }
{
    match sum {
        None => Stamp::Time(time),
        Some(sum) => Stamp::Sum(time, sum),
    }
}

// The stamp of a file.
fn file_stamp(stat: Stat, sum: Option<Sum>) -> Option<Stamp>
    ensures { result ≡ file_stamp stat sum }
{
    match stat {
        Stat::Nothing => None,
        Stat::File { time, .. } => Some(stamp_with(time, sum)),
        Stat::Folder => None,
    }
}

// The stamp of the file that was seen.
fn stamp_seen(sight: Option<&Sight>) -> Option<Stamp>
    ensures { result ≡ stamp_seen (option_map (λ s. s.now) sight.entry) }
{
    match sight {
        None => None,
        Some(sight) => file_stamp(sight.stat, sight.sum),
    }
}

// The stamp of the path, where it is listed as a source and is one.
fn source_stamp<T: Told>(
    alloc: Global,
    told: &T,
    listed: bool,
    path: &PathText,
) -> Result<Option<Stamp>, OutOfMemory>
    ensures { IfOk result (λ stamp. stamp ≡ source_in (T.known told.now) (T.seen told.now) listed path.now) }
{
    if !listed {
        return Ok(None);
    }
    let covered = told.covered(alloc, path)?;
    if covered {
        return Ok(None);
    }
    Ok(stamp_seen(told.sight(path)))
}

/// The stamp of the path now, where these are the paths that no job makes: of a source its time, with its SHA-256 where that was taken as the path was seen; of
/// a product the serial of the record that speaks for it.
/// `OutOfMemory` where there is no memory to tell it. The time is that of a few questions to who tells what is known, and one for each folder above a product
/// that has no record of its own.
pub fn stamp_now<T: Told>(
    alloc: Global,
    told: &T,
    sources: &BTreeSet<String>,
    path: &PathText,
) -> Result<Option<Stamp>, OutOfMemory>
    ensures { IfOk result (λ stamp. stamp ≡ stamp_in (T.known told.now) (T.seen told.now) (contains_text sources.now) path.now) }
{
    let source = source_stamp(alloc, told, sources.contains(path.as_str()), path)?;
    match source {
        Some(stamp) => Ok(Some(stamp)),
        None => product_stamp(alloc, told, path),
    }
}
