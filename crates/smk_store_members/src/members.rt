//! What is under a directory output.

ghost use Rattle.std.specs.Prelude.{◌≡◌, ◌≤◌, ◌<◌, ◌+◌, ◌++◌, ◌∷◌, [], string_bytes, IfOk, OnOk, IsTrue, length, map, drop};
ghost use Rattle.smk_base.specs.Path.{is_at_or_under};
ghost use Rattle.smk_world.specs.Calls.{device_failed};
ghost use Rattle.smk_world.specs.Devices.{WhereTold};
ghost use Rattle.smk_store_members.specs.Members.{IsOpenFolder, IsListed, HasNoMembers, member_places};
ghost use Rattle.smk_store_members.specs.Walks.{HasListings};
ghost use Rattle.smk_store_members.specs.Steps.{AreKept, AreAdded, IsListedIn, IsWalk, HasGoneOn, Either};

use crate::found::{Walk, add, in_order, nothing};
use crate::listed::Listed;
use smk_base::{List, OutOfMemory, PathText, Place};
use smk_world::{Files, Name, WorkFault};
use std::alloc::Global;

// The two, one after the other.
fn joined(alloc: Global, front: &str, text: &str) -> Result<String, OutOfMemory>
    ensures { IfOk result (λ both. string_bytes both ≡ front.now ++ text.now) }
{
    let mut both = String::from_str(alloc, front)?;
    both.push_str(text)?;
    Ok(both)
}

// Adds what has these names in the folder of this front. False where a record can't tell one of them.
fn add_all(
    alloc: Global,
    walk: &mut Walk,
    path: &PathText,
    front: &str,
    names: &[Name],
) -> Result<bool, OutOfMemory>
    requires kept { AreKept walk.old.found walk.old.names walk.old.folders }
    ensures kept { OnOk result (AreKept walk.new.found walk.new.names walk.new.folders) }
    ensures added { IfOk result (λ good. AreAdded path.now front.now names.now walk.old.found walk.new.found good) }
{
    for name in names {
        let text = joined(alloc, front, name.name.as_str())?;
        if !add(alloc, walk, path, text.as_str(), name.folder)? {
            return Ok(false);
        }
    }
    Ok(true)
}

// Lists the folder, whose names have this front, and adds what is in it. False where a record can't tell it.
fn look_in<W: Files>(
    alloc: Global,
    work: &mut W,
    walk: &mut Walk,
    path: &PathText,
    folder: &Place,
    front: &str,
) -> Result<bool, WorkFault>
    requires kept { AreKept walk.old.found walk.old.names walk.old.folders }
    requires inside { IsTrue (is_at_or_under folder.now path.now) }
    ensures kept { OnOk result (AreKept walk.new.found walk.new.names walk.new.folders) }
    ensures listings { HasListings W.act path.now (W.device work.old) (W.device work.new) (device_failed result) }
    ensures told { IfOk result (λ good. WhereTold (W.device work.old) (λ w. IsOpenFolder w.nodes path.now
        → IsListedIn w.nodes path.now front.now folder.now walk.old.found walk.new.found good)) }
{
    let listing = work.list(alloc, folder)?;
    if listing.strange {
        return Ok(false);
    }
    let good = add_all(alloc, walk, path, front, listing.names.as_slice())?;
    Ok(good)
}

// The same for the member of this number, from 0, where that is a folder.
fn look_at<W: Files>(
    alloc: Global,
    work: &mut W,
    walk: &mut Walk,
    path: &PathText,
    at: usize,
) -> Result<bool, WorkFault>
    requires kept { AreKept walk.old.found walk.old.names walk.old.folders }
    requires within { at < length walk.old.found }
    ensures kept { OnOk result (AreKept walk.new.found walk.new.names walk.new.folders) }
    ensures listings { HasListings W.act path.now (W.device work.old) (W.device work.new) (device_failed result) }
    ensures told { IfOk result (λ good. WhereTold (W.device work.old) (λ w. IsOpenFolder w.nodes path.now
        → IsWalk w.nodes path.now walk.old.found (member_places path.now (drop at walk.old.found))
        → Either good (IsWalk w.nodes path.now walk.new.found (member_places path.now (drop (at + 1) walk.new.found))) (HasNoMembers w.nodes path.now))) }
{
    let member = &walk.found.as_slice()[at];
    if !member.folder {
        return Ok(true);
    }
    let front = joined(alloc, member.name.as_str(), "/")?;
    let folder = Place::user(alloc, path)?.within(alloc, member.name.as_str())?;
    look_in(alloc, work, walk, path, &folder, front.as_str())
}

// All that is under the folder, as it is found. False where a record can't tell it.
fn walk_all<W: Files>(
    alloc: Global,
    work: &mut W,
    walk: &mut Walk,
    folder: &PathText,
) -> Result<bool, WorkFault>
    requires kept { AreKept walk.old.found walk.old.names walk.old.folders }
    requires none { walk.old.found ≡ [] }
    ensures kept { OnOk result (AreKept walk.new.found walk.new.names walk.new.folders) }
    ensures listings { HasListings W.act folder.now (W.device work.old) (W.device work.new) (device_failed result) }
    ensures told { IfOk result (λ good. WhereTold (W.device work.old) (λ w. IsOpenFolder w.nodes folder.now
        → Either good (IsWalk w.nodes folder.now walk.new.found []) (HasNoMembers w.nodes folder.now))) }
{
    let top = Place::user(alloc, folder)?;
    if !look_in(alloc, work, walk, folder, &top, "")? {
        return Ok(false);
    }
    let mut next = 0;
    'members: while next < walk.found.len() {
        if !look_at(alloc, work, walk, folder, next)? {
            return Ok(false);
        }
        next += 1;
    }
    Ok(true)
}

/// All that is under the folder, in byte order; or `BadMember`, where a record can't tell it: a name is no text or makes no path, or there
/// are more than 20,000 of them. Nothing more is listed then. Each folder is listed once; nothing is changed.
///
/// `Failed`: a listing failed, and none came after it. `OutOfMemory`: there is no memory for what is found.
///
/// What is found is told where a folder stands there, and no child owns what is at or under it.
pub fn members_of<W: Files>(
    alloc: Global,
    work: &mut W,
    folder: &PathText,
) -> Result<Listed, WorkFault>
    ensures listings { HasListings W.act folder.now (W.device work.old) (W.device work.new) (device_failed result) }
    ensures told { IfOk result (λ listed. WhereTold (W.device work.old) (λ w. IsOpenFolder w.nodes folder.now → IsListed w.nodes folder.now listed)) }
{
    let mut walk = nothing(alloc);
    if !walk_all(alloc, work, &mut walk, folder)? {
        return Ok(Listed::BadMember);
    }
    Ok(Listed::Members(in_order(alloc, &walk)?))
}
