//! Which inputs have stamps with which the recorded ones don't agree.

ghost use Rattle.std.specs.Prelude.{◌≡◌, ◌++◌, ℕ, Bool, ◌||◌, not, List as Items, IfOk, OnOk, None, map, filter, bytes_eq, if◌then◌else◌};
ghost use Rattle.std.specs.BTreeMap.{get_by_text};
ghost use Rattle.std.specs.List.{list_any, flat_map, zip};
ghost use Rattle.smk_world.specs.Trees.{Path};
ghost use Rattle.smk_record.specs.Records.{agree, stamped};
ghost use Rattle.smk_record.specs.declared.record.Stamp.{Stamp as StampValue};
ghost use Rattle.smk_trigger.specs.Reasons.{is_updated, once};
ghost use Rattle.smk_trigger.specs.Updates.{joined, differs, disagrees, is_other, update_of, updates_in};

use crate::Reason;
use smk_base::{List, OutOfMemory, PathText, one};
use smk_record::{Record, Stamp, agrees};
use smk_world::Item;
use std::alloc::Global;
use std::collections::BTreeMap;

/// The stamps that are recorded of an input.
#[derive(Drop)]
pub(crate) enum Recorded {
    /// This one alone.
    One(Stamp),
    /// These, since the input is recorded several times.
    Several(List<Stamp>),
}

// One more stamp is recorded.
fn joined(alloc: Global, earlier: Option<Recorded>, stamp: Stamp) -> Result<Recorded, OutOfMemory>
    ensures { IfOk result (λ stamps. stamps ≡ joined earlier stamp) }
{
    match earlier {
        None => Ok(Recorded::One(stamp)),
        Some(Recorded::One(other)) => {
            let mut stamps = one(alloc, other)?;
            stamps.push(stamp)?;
            Ok(Recorded::Several(stamps))
        }
        Some(Recorded::Several(earlier)) => {
            let mut stamps = earlier;
            stamps.push(stamp)?;
            Ok(Recorded::Several(stamps))
        }
    }
}

// Adds the stamp of the input.
fn add(
    alloc: Global,
    recorded: &mut BTreeMap<String, Recorded>,
    path: &PathText,
    stamp: Stamp,
) -> Result<(), OutOfMemory>
    ensures { OnOk result ((q : Path) → (now : StampValue) → differs (get_by_text recorded.new q) now
        ≡ (differs (get_by_text recorded.old q) now || is_other q now (path.now, stamp))) }
{
    let earlier = take(recorded, path);
    let stamps = joined(alloc, earlier, stamp)?;
    let key = String::from_str(alloc, path.as_str())?;
    recorded.insert(key, stamps)?;
    Ok(())
}

// The stamps by their inputs.
fn recorded_of(
    alloc: Global,
    paths: &[PathText],
    stamps: &[Stamp],
) -> Result<BTreeMap<String, Recorded>, OutOfMemory>
    ensures { IfOk result (λ recorded. (q : Path) → (now : StampValue) → differs (get_by_text recorded q) now ≡ list_any (is_other q now) (zip paths.now stamps.now)) }
{
    let mut recorded = BTreeMap::new(alloc);
    for (i, path) in paths.iter().enumerate() {
        let Some(stamp) = stamps.get(i) else {
            return Ok(recorded);
        };
        add(alloc, &mut recorded, path, *stamp)?;
    }
    Ok(recorded)
}

/// The paths of the items, in order.
pub(crate) fn paths_of(alloc: Global, items: &[Item]) -> Result<List<PathText>, OutOfMemory>
    ensures { IfOk result (λ paths. paths ≡ flat_map (λ item. item.paths) items.now) }
{
    let mut paths = List::new(alloc);
    for item in items {
        push_paths(alloc, &mut paths, item.paths.as_slice())?;
    }
    Ok(paths)
}

fn push_paths(
    alloc: Global,
    found: &mut List<PathText>,
    paths: &[PathText],
) -> Result<(), OutOfMemory>
    ensures { OnOk result (found.new ≡ found.old ++ paths.now) }
{
    for path in paths {
        found.push(path.copy(alloc)?)?;
    }
    Ok(())
}

// Adds the input, where a recorded stamp doesn't agree with its stamp now.
fn push_update(
    alloc: Global,
    found: &mut List<Reason>,
    recorded: &Option<Recorded>,
    path: &PathText,
    now: Option<Stamp>,
) -> Result<(), OutOfMemory>
    ensures { OnOk result (found.new ≡ found.old ++ update_of recorded.now path.now now) }
{
    if !disagrees(recorded, now) {
        return Ok(());
    }
    found.push(Reason::Updated(path.copy(alloc)?))?;
    Ok(())
}

// Whether one of the stamps doesn't agree with the stamp now.
fn is_any_other(stamps: &[Stamp], now: &Stamp) -> bool
    ensures { result ≡ list_any (λ s. not (agree s now.now)) stamps.now }
{
    for stamp in stamps {
        if !agrees(stamp, now) {
            return true;
        }
    }
    false
}

// Whether a recorded stamp doesn't agree with the stamp now, where there is one.
fn disagrees(recorded: &Option<Recorded>, now: Option<Stamp>) -> bool
    ensures { result ≡ disagrees recorded.now now }
{
    match (recorded, now) {
        (_, None) => false,
        (None, Some(_)) => false,
        (Some(Recorded::One(stamp)), Some(now)) => !agrees(stamp, &now),
        (Some(Recorded::Several(stamps)), Some(now)) => is_any_other(stamps.as_slice(), &now),
    }
}

// Takes what is recorded of the path.
fn take(recorded: &mut BTreeMap<String, Recorded>, path: &PathText) -> Option<Recorded>
    ensures taken { result ≡ get_by_text recorded.old path.now }
    ensures left { (q : Path) → get_by_text recorded.new q ≡ (if bytes_eq path.now q then None else get_by_text recorded.old q) }
{
    recorded.remove(path.as_str())
}

// What the record has of its inputs.
fn recorded_in(alloc: Global, earlier: &Record) -> Result<BTreeMap<String, Recorded>, OutOfMemory>
    ensures { IfOk result (λ recorded. (q : Path) → (now : StampValue) → differs (get_by_text recorded q) now ≡ list_any (is_other q now) (stamped earlier.now)) }
{
    let paths = paths_of(alloc, earlier.recipe().inputs.as_slice())?;
    let recorded = recorded_of(alloc, paths.as_slice(), earlier.stamps().as_slice())?;
    Ok(recorded)
}

// Adds the inputs with whose stamps now the recorded ones don't agree, each once.
fn push_all(
    alloc: Global,
    found: &mut List<Reason>,
    recorded: &mut BTreeMap<String, Recorded>,
    paths: &[PathText],
    stamps: &[Option<Stamp>],
) -> Result<(), OutOfMemory>
    ensures { OnOk result (found.new ≡ found.old ++ updates_in (λ q. get_by_text recorded.old q) (zip paths.now stamps.now)) }
{
    for (i, path) in paths.iter().enumerate() {
        let Some(now) = stamps.get(i) else {
            return Ok(());
        };
        let earlier = take(recorded, path);
        push_update(alloc, found, &earlier, path, *now)?;
    }
    Ok(())
}

/// Adds the inputs with whose stamps now those of the record don't agree, each once, in order.
pub(crate) fn push_updates(
    alloc: Global,
    found: &mut List<Reason>,
    inputs: &[Item],
    stamps: &[Option<Stamp>],
    earlier: &Record,
) -> Result<(), OutOfMemory>
    ensures { OnOk result (found.new ≡ found.old ++ map (λ e. Reason.Updated e.0) (filter (is_updated (stamped earlier.now)) (once (zip (flat_map (λ item. item.paths) inputs.now) stamps.now)))) }
{
    let mut recorded = recorded_in(alloc, earlier)?;
    let paths = paths_of(alloc, inputs)?;
    push_all(alloc, found, &mut recorded, paths.as_slice(), stamps)?;
    Ok(())
}
