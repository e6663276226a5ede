//! What is kept of the listings of directories.

ghost use Rattle.std.specs.Prelude.{◌≡◌, ◌||◌, map, bytes_eq, IfOk, OnOk, Some, option_map, if◌then◌else◌, string_bytes};
ghost use Rattle.std.specs.BTreeMap.{get_by_text};
ghost use Rattle.std.specs.BTreeSet.{contains_text};
ghost use Rattle.std.specs.List.{find};
ghost use Rattle.smk_world.specs.Calls.{in_folder};
ghost use Rattle.smk_world.specs.Trees.{Path, among};
ghost use Rattle.smk_chain.specs.Derive.{is_missing, Listings as Lists};
ghost use Rattle.smk_flow.specs.Flows.{Flow};
ghost use Rattle.smk_choose_wants.specs.Guides.{IsGuide};
ghost use Rattle.smk_chain_walk.specs.Folders.{AreFolders, is_file};

use smk_base::{List, OutOfMemory, PathText};
use smk_chain::{Known, Listings};
use smk_choose_wants::Guide;
use std::alloc::Global;
use std::collections::{BTreeMap, BTreeSet};

/// What the walk goes by, and for each directory with a listing the paths of its files.
#[derive(Drop)]
pub(crate) struct Folders<'g> {
    pub(crate) guide: &'g Guide<'g>,
    members: BTreeMap<String, BTreeSet<String>>,
}

// The path of a file of the directory.
fn inside(alloc: Global, folder: &PathText, file: &PathText) -> Result<String, OutOfMemory>
    ensures { IfOk result (λ path. string_bytes path ≡ in_folder folder.now file.now) }
{
    let mut path = String::from_str(alloc, folder.as_str())?;
    path.push_str("/")?;
    path.push_str(file.as_str())?;
    Ok(path)
}

// Adds the path to the set.
fn add(
    alloc: Global,
    found: &mut BTreeSet<String>,
    folder: &PathText,
    file: &PathText,
) -> Result<(), OutOfMemory>
    ensures { OnOk result ((q : Path) → contains_text found.new q ≡ (bytes_eq (in_folder folder.now file.now) q || contains_text found.old q)) }
{
    let path = inside(alloc, folder, file)?;
    found.insert(path)?;
    Ok(())
}

// The paths of the directory's files.
fn paths_in(
    alloc: Global,
    folder: &PathText,
    files: &[PathText],
) -> Result<BTreeSet<String>, OutOfMemory>
    ensures { IfOk result (λ set. (q : Path) → contains_text set q ≡ among (map (in_folder folder.now) files.now) q) }
{
    let mut set = BTreeSet::new(alloc);
    let mut number = files.len();
    'files: while number > 0 {
        number -= 1;
        add(alloc, &mut set, folder, &files[number])?;
    }
    Ok(set)
}

// Keeps the paths of a directory's files.
fn put(
    alloc: Global,
    members: &mut BTreeMap<String, BTreeSet<String>>,
    folder: &PathText,
    set: BTreeSet<String>,
) -> Result<(), OutOfMemory>
    ensures { OnOk result ((q : Path) → get_by_text members.new q ≡ (if bytes_eq folder.now q then Some set else get_by_text members.old q)) }
{
    let key = String::from_str(alloc, folder.as_str())?;
    members.insert(key, set)?;
    Ok(())
}

// For each directory the paths of its files, by the first listing of it.
fn members_of(
    alloc: Global,
    lists: &[Known],
) -> Result<BTreeMap<String, BTreeSet<String>>, OutOfMemory>
    ensures { IfOk result (λ members. (folder p : Path) → option_map (λ set. contains_text set p) (get_by_text members folder)
        ≡ is_file folder p (find (λ k. bytes_eq k.folder folder) lists.now)) }
{
    let mut members = BTreeMap::new(alloc);
    let mut number = lists.len();
    'lists: while number > 0 {
        number -= 1;
        let known = &lists[number];
        let set = paths_in(alloc, &known.folder, known.files.as_slice())?;
        put(alloc, &mut members, &known.folder, set)?;
    }
    Ok(members)
}

impl<'g> Folders<'g> {
    /// What is to be kept of these listings; of two for one directory the first one counts.
    pub(crate) fn of(
        alloc: Global,
        lists: &Listings,
        guide: &'g Guide<'g>,
    ) -> Result<Folders<'g>, OutOfMemory>
        ensures { (flow : Flow) → IsGuide flow lists.now guide.now → IfOk result (AreFolders flow lists.now) }
    {
        let members = members_of(alloc, lists.as_slice())?;
        Ok(Folders { guide, members })
    }

    /// Whether the directory is known, and the path isn't there.
    pub(crate) fn lacks(&self, folder: &PathText, path: &PathText) -> bool
        ensures { (flow : Flow) (L : Lists) → AreFolders flow L self.now → result ≡ is_missing L path.now (Some folder.now) }
    {
        match self.members.get(folder.as_str()) {
            Some(files) => !files.contains(path.as_str()),
            None => false,
        }
    }
}
