//! What a walk under a folder has found so far.

ghost use Rattle.std.specs.Prelude.{◌≡◌, ◌≤◌, ◌<◌, ◌++◌, ◌∷◌, ◌&&◌, ◌||◌, [], ℕ, List as Items, IfOk, OnOk, length, map, true, false, bytes_eq, string_bytes, Some, None, if◌then◌else◌};
ghost use Rattle.std.specs.BTreeSet.{contains_text};
ghost use Rattle.smk_base.specs.Path.{is_path};
ghost use Rattle.smk_store_members.specs.Steps.{member, is_found, is_member_name, AreKept, AreInOrder, HasAdded};

use smk_base::{List, OutOfMemory, PathFault, PathText};
use smk_record::Member;
use std::alloc::Global;
use std::collections::BTreeSet;

// A record has no more members.
const MEMBER_LIMIT: usize = 20_000;

/// What is found so far.
#[derive(Drop)]
pub(crate) struct Walk {
    /// The members as they were found.
    pub(crate) found: List<Member>,
    /// Their names.
    pub(crate) names: BTreeSet<String>,
    /// The names of those that are folders.
    pub(crate) folders: BTreeSet<String>,
}

/// Nothing is found yet.
pub(crate) fn nothing(alloc: Global) -> Walk
    ensures kept { AreKept result.found result.names result.folders }
    ensures none { result.found ≡ [] }
{
    Walk {
        found: List::new(alloc),
        names: BTreeSet::new(alloc),
        folders: BTreeSet::new(alloc),
    }
}

// Adds the name, where it is a folder's.
fn note_folder(
    alloc: Global,
    folders: &mut BTreeSet<String>,
    name: &str,
    folder: bool,
) -> Result<(), OutOfMemory>
    ensures { OnOk result ((q : Items ℕ) → contains_text folders.new q ≡ ((folder && bytes_eq name.now q) || contains_text folders.old q)) }
{
    if folder {
        let text = String::from_str(alloc, name)?;
        folders.insert(text)?;
    }
    Ok(())
}

// Adds the name.
fn note(alloc: Global, names: &mut BTreeSet<String>, name: &str) -> Result<(), OutOfMemory>
    ensures { OnOk result ((q : Items ℕ) → contains_text names.new q ≡ (bytes_eq name.now q || contains_text names.old q)) }
{
    let text = String::from_str(alloc, name)?;
    names.insert(text)?;
    Ok(())
}

// Adds the member, whose name wasn't found yet.
fn keep(alloc: Global, walk: &mut Walk, name: PathText, folder: bool) -> Result<(), OutOfMemory>
    requires kept { AreKept walk.old.found walk.old.names walk.old.folders }
    requires few { length walk.old.found < 20000 }
    requires path { is_path name ≡ true }
    ensures kept { OnOk result (AreKept walk.new.found walk.new.names walk.new.folders) }
    ensures found { OnOk result (walk.new.found ≡ walk.old.found ++ member folder name ∷ []) }
{
    note(alloc, &mut walk.names, name.as_str())?;
    note_folder(alloc, &mut walk.folders, name.as_str(), folder)?;
    walk.found.push(Member { folder, name })
}

// The text as the name of a member of the directory at the path. None where it makes no path.
fn member_path(alloc: Global, path: &PathText, text: &str) -> Result<Option<PathText>, OutOfMemory>
    ensures { IfOk result (λ name. name ≡ (if is_member_name path.now text.now then Some text.now else None)) }
{
    let name = match PathText::read(alloc, text) {
        Ok(name) => name,
        Err(PathFault::BadPath) => return Ok(None),
        Err(PathFault::OutOfMemory) => return Err(OutOfMemory),
    };
    match path.join(alloc, &name) {
        Ok(_) => Ok(Some(name)),
        Err(PathFault::BadPath) => Ok(None),
        Err(PathFault::OutOfMemory) => Err(OutOfMemory),
    }
}

/// Adds what has the name in the directory at the path. False where a record can't tell it, or has no room for it.
pub(crate) fn add(
    alloc: Global,
    walk: &mut Walk,
    path: &PathText,
    name: &str,
    folder: bool,
) -> Result<bool, OutOfMemory>
    requires kept { AreKept walk.old.found walk.old.names walk.old.folders }
    ensures kept { OnOk result (AreKept walk.new.found walk.new.names walk.new.folders) }
    ensures added { IfOk result (λ good. HasAdded path.now name.now folder walk.old.found walk.new.found good) }
{
    if walk.names.contains(name) {
        return Ok(true);
    }
    let Some(member) = member_path(alloc, path, name)? else {
        return Ok(false);
    };
    if walk.found.len() >= MEMBER_LIMIT {
        return Ok(false);
    }
    keep(alloc, walk, member, folder)?;
    Ok(true)
}

// The path that the text is.
fn path_of(alloc: Global, text: &str) -> Result<PathText, OutOfMemory>
    requires path { is_path text.now ≡ true }
    ensures { IfOk result (λ path. path ≡ text.now) }
{
    match PathText::read(alloc, text) {
        Ok(path) => Ok(path),
        Err(PathFault::BadPath) => unreachable!(),
        Err(PathFault::OutOfMemory) => Err(OutOfMemory),
    }
}

/// The members in the order of their names.
pub(crate) fn in_order(alloc: Global, walk: &Walk) -> Result<List<Member>, OutOfMemory>
    requires kept { AreKept walk.now.found walk.now.names walk.now.folders }
    ensures { IfOk result (λ members. AreInOrder walk.now.found members) }
{
    let mut members = List::new(alloc);
    for text in &walk.names {
        let name = path_of(alloc, text.as_str())?;
        let folder = walk.folders.contains(text.as_str());
        members.push(Member { folder, name })?;
    }
    Ok(members)
}
