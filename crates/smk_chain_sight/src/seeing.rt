//! Looking at one path: whether it is a source, and whether it holds one.

ghost use Rattle.std.specs.Prelude.{◌≡◌, ◌++◌, ◌∷◌, true, false, Some, IfOk, OnOk, bytes_eq, if◌then◌else◌};
ghost use Rattle.std.specs.BTreeMap.{get_by_text};
ghost use Rattle.std.specs.List.{list_any};
ghost use Rattle.smk_world.specs.World.{folders_above};
ghost use Rattle.smk_world.specs.Calls.{device_failed};
ghost use Rattle.smk_world.specs.Devices.{HasLooked, WhereTold};
ghost use Rattle.smk_world.specs.Trees.{Path, is_path_text};
ghost use Rattle.smk_store.specs.Images.{Image, is_source, holds_source};
ghost use Rattle.smk_store.specs.Walking.{path_in};
ghost use Rattle.smk_chain_sight.specs.Viewing.{Viewed, NoneUnder, TellsUnder, IsSighted, AreSighted, IsStanding, by_stat};

use smk_base::{OutOfMemory, PathFault, PathText, Place};
use smk_choose::{Standing, folders_above};
use smk_store::Store;
use smk_world::{Files, Stat, WorkFault};
use std::alloc::Global;
use std::collections::BTreeMap;

/// What a look at a path tells: whether it is a source, and whether a folder is there in which sources may be.
#[derive(Clone, Copy)]
pub(crate) struct Sighted {
    pub(crate) source: bool,
    pub(crate) folder: bool,
}

// What stands at a path that isn't covered.
fn by_stat(stat: Stat) -> Sighted
    ensures { result ≡ by_stat stat }
{
    match stat {
        Stat::Nothing => Sighted {
            source: false,
            folder: false,
        },
        Stat::File { .. } => Sighted {
            source: true,
            folder: false,
        },
        Stat::Folder => Sighted {
            source: false,
            folder: true,
        },
    }
}

// Looks at the path. What is covered is no source, nor is anything under it, so the device isn't asked then.
fn look<W: Files>(
    alloc: Global,
    store: &Store,
    work: &mut W,
    path: &PathText,
) -> Result<Sighted, WorkFault>
    ensures looked { HasLooked W.act (W.device work.old) (W.device work.new) (device_failed result) }
    ensures told { IfOk result (λ s. WhereTold (W.device work.old) (λ w. (image : Image) → Viewed w.nodes store.now image
        → is_path_text path.now ≡ true → IsSighted image path.now s)) }
{
    if store.covered(path) {
        return Ok(Sighted {
            source: false,
            folder: false,
        });
    }
    let place = Place::user(alloc, path)?;
    let stat = work.stat(&place)?;
    Ok(by_stat(stat))
}

// Keeps what a look at the path told.
fn note(
    alloc: Global,
    seen: &mut BTreeMap<String, Sighted>,
    text: &str,
    found: Sighted,
) -> Result<(), OutOfMemory>
    ensures { OnOk result ((q : Path) → get_by_text seen.new q ≡ (if bytes_eq text.now q then Some found else get_by_text seen.old q)) }
{
    let key = String::from_str(alloc, text)?;
    seen.insert(key, found)?;
    Ok(())
}

// The text of the path, which is one as it stands in a contract.
fn text_of(path: &PathText) -> &str
    ensures same { result.now ≡ path.now }
    ensures text { is_path_text path.now ≡ true }
{
    path.as_str()
}

// What a look at the path tells. It is looked at once.
fn seen_at<W: Files>(
    alloc: Global,
    store: &Store,
    work: &mut W,
    seen: &mut BTreeMap<String, Sighted>,
    path: &PathText,
) -> Result<Sighted, WorkFault>
    ensures text { is_path_text path.now ≡ true }
    ensures looked { HasLooked W.act (W.device work.old) (W.device work.new) (device_failed result) }
    ensures told { IfOk result (λ s. WhereTold (W.device work.old) (λ w. (image : Image) → Viewed w.nodes store.now image
        → AreSighted image seen.old → IsSighted image path.now s × AreSighted image seen.new)) }
{
    let text = text_of(path);
    match seen.get(text) {
        Some(known) => Ok(Sighted {
            source: known.source,
            folder: known.folder,
        }),
        None => {
            let found = look(alloc, store, work, path)?;
            note(alloc, seen, text, found)?;
            Ok(found)
        }
    }
}

// Whether one of these paths is a source.
fn any_source<W: Files>(
    alloc: Global,
    store: &Store,
    work: &mut W,
    seen: &mut BTreeMap<String, Sighted>,
    paths: &[PathText],
) -> Result<bool, WorkFault>
    ensures looked { HasLooked W.act (W.device work.old) (W.device work.new) (device_failed result) }
    ensures told { IfOk result (λ found. WhereTold (W.device work.old) (λ w. (image : Image) → Viewed w.nodes store.now image
        → AreSighted image seen.old → (found ≡ list_any (is_source image) paths.now) × AreSighted image seen.new)) }
{
    for path in paths {
        let here = seen_at(alloc, store, work, seen, path)?;
        if here.source {
            return Ok(true);
        }
    }
    Ok(false)
}

// The path of the name in the folder. None where it is none.
fn within(alloc: Global, folder: &Place, name: &str) -> Result<Option<PathText>, OutOfMemory>
    ensures { IfOk result (λ path. path ≡ path_in (folder.now ++ 47 ∷ name.now)) }
{
    let place = folder.within(alloc, name)?;
    match PathText::read(alloc, place.as_str()) {
        Ok(path) => Ok(Some(path)),
        Err(PathFault::BadPath) => Ok(None),
        Err(PathFault::OutOfMemory) => Err(OutOfMemory),
    }
}

// Whether a source is under the folder: goes over its tree, but for what is covered, up to the first one.
fn has_under<W: Files>(
    alloc: Global,
    store: &Store,
    work: &mut W,
    folder: &PathText,
) -> Result<bool, WorkFault>
    ensures looked { HasLooked W.act (W.device work.old) (W.device work.new) (device_failed result) }
    ensures told { IfOk result (λ found. WhereTold (W.device work.old) (λ w. (image : Image) → Viewed w.nodes store.now image
        → is_path_text folder.now ≡ true → TellsUnder image folder.now found)) }
{
    let place = Place::user(alloc, folder)?;
    let listing = work.list(alloc, &place)?;
    for name in listing.names.as_slice() {
        let Some(path) = within(alloc, &place, name.name.as_str())? else {
            continue;
        };
        if store.covered(&path) {
            continue;
        }
        if !name.folder {
            return Ok(true);
        }
        let inner = has_under(alloc, store, work, &path)?;
        if inner {
            return Ok(true);
        }
    }
    Ok(false)
}

// Whether a source is above the path, or under it where a folder stands there.
fn has_around<W: Files>(
    alloc: Global,
    store: &Store,
    work: &mut W,
    seen: &mut BTreeMap<String, Sighted>,
    path: &PathText,
    folder: bool,
) -> Result<bool, WorkFault>
    ensures looked { HasLooked W.act (W.device work.old) (W.device work.new) (device_failed result) }
    ensures told { IfOk result (λ found. WhereTold (W.device work.old) (λ w. (image : Image) → Viewed w.nodes store.now image
        → is_path_text path.now ≡ true → is_source image path.now ≡ false → (folder ≡ false → NoneUnder image path.now)
        → AreSighted image seen.old → (found ≡ holds_source image path.now) × AreSighted image seen.new)) }
{
    let above = folders_above(alloc, path)?;
    let over = any_source(alloc, store, work, seen, &above)?;
    if over {
        return Ok(true);
    }
    if folder {
        return has_under(alloc, store, work, path);
    }
    Ok(false)
}

/// Whether the path is a source, and whether it holds one. Each path is looked at once; a folder's tree is listed only where a folder
/// stands at the path.
pub(crate) fn standing_at<W: Files>(
    alloc: Global,
    store: &Store,
    work: &mut W,
    seen: &mut BTreeMap<String, Sighted>,
    path: &PathText,
) -> Result<Standing, WorkFault>
    ensures looked { HasLooked W.act (W.device work.old) (W.device work.new) (device_failed result) }
    ensures told { IfOk result (λ s. WhereTold (W.device work.old) (λ w. (image : Image) → Viewed w.nodes store.now image
        → AreSighted image seen.old → IsStanding image path.now s × AreSighted image seen.new)) }
{
    let here = seen_at(alloc, store, work, seen, path)?;
    if here.source {
        return Ok(Standing {
            source: true,
            holds: true,
        });
    }
    let holds = has_around(alloc, store, work, seen, path, here.folder)?;
    Ok(Standing {
        source: false,
        holds,
    })
}
