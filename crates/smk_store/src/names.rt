//! The paths of which the names in the engine's folders tell.
//!
//! A file or folder `=c` in the folder `+a/+b` tells of the path `a/b/c`. Every other name is passed over.

ghost use Rattle.std.specs.Prelude.{◌≡◌, ◌<◌, ◌++◌, ◌∷◌, [], ◌||◌, ℕ, List as Items, Option, Some, IfOk, OnOk, IsTrue, bytes_eq, option_map, string_bytes};
ghost use Rattle.std.specs.BTreeSet.{contains_text};
ghost use Rattle.std.specs.Str.{IsUtf8};
ghost use Rattle.smk_base.specs.Path.{is_under};
ghost use Rattle.smk_world.specs.Calls.{device_failed};
ghost use Rattle.smk_world.specs.Devices.{WhereTold, HasLooked};
ghost use Rattle.smk_store.specs.Loading.{store_folder};
ghost use Rattle.smk_store.specs.Unowned.{IsUnownedUnder};
ghost use Rattle.smk_store.specs.Walking.{after_sign, all_tell_of, front_below, HasAll, Walked};

use smk_base::{OutOfMemory, Place};
use smk_world::{Files, Name, WorkFault};
use std::alloc::Global;
use std::collections::BTreeSet;

// What follows the sign, where the text begins with it.
fn after_sign(text: &str, sign: u8) -> Option<&str>
    requires { sign < 128 }
    ensures { option_map (λ rest. rest.now) result ≡ after_sign sign text.now }
{
    match text.as_bytes() {
        [first, ..] if *first == sign => Some(&text[1..]),
        _ => None,
    }
}

// Adds the path.
fn add(
    alloc: Global,
    found: &mut BTreeSet<String>,
    front: &str,
    part: &str,
) -> Result<(), OutOfMemory>
    ensures { OnOk result ((q : Items ℕ) → contains_text found.new q ≡ (bytes_eq (front.now ++ part.now) q || contains_text found.old q)) }
{
    let mut path = String::from_str(alloc, front)?;
    path.push_str(part)?;
    found.insert(path)?;
    Ok(())
}

// Adds the paths of which the names themselves tell.
fn add_all(
    alloc: Global,
    found: &mut BTreeSet<String>,
    front: &str,
    names: &[Name],
) -> Result<(), OutOfMemory>
    ensures { OnOk result ((q : Items ℕ) → contains_text found.new q ≡ (all_tell_of front.now names.now q || contains_text found.old q)) }
{
    for name in names {
        if let Some(part) = after_sign(name.name.as_str(), b'=') {
            add(alloc, found, front, part)?;
        }
    }
    Ok(())
}

// The front of the paths that are told of in the folder of this name. None where it isn't such a folder, or where these would be
// no paths, since they are too long.
fn front_below(alloc: Global, front: &str, name: &Name) -> Result<Option<String>, OutOfMemory>
    ensures { IfOk result (λ below. option_map string_bytes below ≡ front_below front.now name.now) }
{
    if !name.folder {
        return Ok(None);
    }
    match after_sign(name.name.as_str(), b'+') {
        Some(part) if front.len() + part.len() < 1000 => {
            let mut below = String::from_str(alloc, front)?;
            below.push_str(part)?;
            below.push_str("/")?;
            Ok(Some(below))
        }
        _ => Ok(None),
    }
}

// Adds the paths of which the folder tells, and the folders in it.
fn walk<W: Files>(
    alloc: Global,
    work: &mut W,
    found: &mut BTreeSet<String>,
    folder: &Place,
    front: &str,
) -> Result<(), WorkFault>
    requires own { IsTrue (is_under folder.now store_folder) }
    requires utf8 { IsUtf8 front.now }
    ensures looked { HasLooked W.act (W.device work.old) (W.device work.new) (device_failed result) }
    ensures told { OnOk result (WhereTold (W.device work.old) (λ w. IsUnownedUnder w.nodes store_folder
        → Walked w.nodes folder.now front.now (λ q. contains_text found.old q) (λ q. contains_text found.new q))) }
{
    let listing = work.list(alloc, folder)?;
    let names = listing.names.as_slice();
    add_all(alloc, found, front, names)?;
    for name in names {
        let Some(below) = front_below(alloc, front, name)? else {
            continue;
        };
        let inner = folder.within(alloc, name.name.as_str())?;
        walk(alloc, work, found, &inner, below.as_str())?;
    }
    Ok(())
}

/// The paths of which the folder tells.
pub(crate) fn paths_in<W: Files>(
    alloc: Global,
    work: &mut W,
    folder: &Place,
) -> Result<BTreeSet<String>, WorkFault>
    requires own { IsTrue (is_under folder.now store_folder) }
    ensures looked { HasLooked W.act (W.device work.old) (W.device work.new) (device_failed result) }
    ensures told { IfOk result (λ found. WhereTold (W.device work.old) (λ w. IsUnownedUnder w.nodes store_folder → HasAll w folder.now (λ q. contains_text found q))) }
{
    let mut found = BTreeSet::new(alloc);
    walk(alloc, work, &mut found, folder, "")?;
    Ok(found)
}
