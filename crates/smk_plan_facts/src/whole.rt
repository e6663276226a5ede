//! What is whole of what jobs make.

ghost use Rattle.std.specs.Prelude.{◌≡◌, bytes_eq, map, option_map, true, IfOk};
ghost use Rattle.std.specs.List.{find};
ghost use Rattle.smk_base.specs.Path.{is_under};
ghost use Rattle.smk_world.specs.Trees.{below, Each};
ghost use Rattle.smk_record.specs.Records.{are_rising};
ghost use Rattle.smk_store.specs.Images.{Image};
ghost use Rattle.smk_store.specs.Loading.{IsStoreOf};
ghost use Rattle.smk_plan.specs.Sights.{IsSeenOf, wholes_of};
ghost use Rattle.smk_plan_facts.specs.Facts.{AreMade, HasOwnRecords, NamesAll};
ghost use Rattle.smk_plan_facts.specs.Telling.{directories_of, is_file_member, is_made_in, is_member_in, is_output_in, is_plain_in, member_names, members_at, outputs_in, wholes_in, IsSorted};

use crate::directories::{Directory, is_file, whole_in};
use crate::flags::makers_told;
use smk_base::{List, OutOfMemory, PathText};
use smk_chain::Jobs;
use smk_flow::Job;
use smk_plan::{Loaded, Seen, Told, Wholes};
use smk_record::Member;
use smk_store::Store;
use std::alloc::Global;

// What follows the folder and the slash.
fn name_in<'a>(path: &'a PathText, folder: &PathText) -> &'a [u8]
    requires { is_under path.now folder.now ≡ true }
    ensures { result.now ≡ below folder.now path.now }
{
    &path.as_str().as_bytes()[folder.as_str().len() + 1..]
}

// The member of this name.
fn member_named<'m>(members: &'m [Member], name: &[u8]) -> Option<&'m Member>
    ensures { are_rising (member_names members.now) ≡ true → option_map (λ m. m.now) result ≡ find (λ m. bytes_eq m.name name.now) members.now }
{
    match members.binary_search_by(|member| member.name.as_str().as_bytes().cmp(name)) {
        Ok(i) => Some(&members[i]),
        Err(_) => None,
    }
}

// Whether a file of this name is among the members, which rise.
fn has_file_in_order(members: &[Member], name: &[u8]) -> bool
    ensures { are_rising (member_names members.now) ≡ true → result ≡ is_file_member members.now name.now }
{
    match member_named(members, name) {
        None => false,
        Some(member) => !member.folder,
    }
}

// Whether a file of this name is among the members, in whatever order they are.
fn has_file_anywhere(members: &[Member], name: &[u8]) -> bool
    ensures { result ≡ is_file_member members.now name.now }
{
    for member in members {
        if member.name.as_str().as_bytes() == name {
            return !member.folder;
        }
    }
    false
}

// Whether a file of this name is among the members, which rise where they are sorted.
fn has_file(members: &[Member], name: &[u8], sorted: bool) -> bool
    ensures { (sorted ≡ true → are_rising (member_names members.now) ≡ true) → result ≡ is_file_member members.now name.now }
{
    if !sorted {
        return has_file_anywhere(members, name);
    }
    has_file_in_order(members, name)
}

// Whether a file of this name is among the members that were seen at the folder.
fn has_file_at<T: Told>(told: &T, folder: &PathText, name: &[u8], sorted: bool) -> bool
    ensures { (sorted ≡ true → are_rising (member_names (members_at (T.seen told.now) folder.now)) ≡ true)
        → result ≡ is_file_member (members_at (T.seen told.now) folder.now) name.now }
{
    match told.sight(folder) {
        None => false,
        Some(sight) => match &sight.members {
            None => false,
            Some(members) => has_file(members.as_slice(), name, sorted),
        },
    }
}

// Whether the directory is whole and has the path as a file.
fn is_member<T: Told>(told: &T, path: &PathText, directory: &Directory, sorted: bool) -> bool
    requires { is_under path.now directory.now.path ≡ true }
    ensures { (sorted ≡ true → IsSorted (T.seen told.now) directory.now) → result ≡ is_member_in (T.seen told.now) path.now directory.now }
{
    directory.whole
        && has_file_at(
            told,
            &directory.path,
            name_in(path, &directory.path),
            sorted,
        )
}

// The directory over the path.
fn directory_over<'d>(directories: &'d [Directory], path: &PathText) -> Option<&'d Directory>
    ensures { option_map (λ d. d.now) result ≡ find (λ d. is_under path.now d.path) directories.now }
{
    for directory in directories {
        if path.is_under(&directory.path) {
            return Some(directory);
        }
    }
    None
}

// The directory at the path.
fn directory_at<'d>(directories: &'d [Directory], path: &PathText) -> Option<&'d Directory>
    ensures { option_map (λ d. d.now) result ≡ find (λ d. bytes_eq d.path path.now) directories.now }
{
    for directory in directories {
        if directory.path.as_str() == path.as_str() {
            return Some(directory);
        }
    }
    None
}

// Whether a file was seen at the path.
fn is_plain<T: Told>(told: &T, path: &PathText) -> bool
    ensures { result ≡ is_plain_in (T.seen told.now) path.now }
{
    match told.sight(path) {
        None => false,
        Some(sight) => is_file(sight.stat),
    }
}

// Whether the output at the path is whole, where it is this directory or else a file.
fn is_output<T: Told>(told: &T, path: &PathText, directory: Option<&Directory>) -> bool
    ensures { result ≡ is_output_in (T.seen told.now) path.now (option_map (λ d. d.now) directory.entry) }
{
    match directory {
        None => is_plain(told, path),
        Some(directory) => directory.whole,
    }
}

/// Whether the path is whole, as what a job with these directories makes there. Where they are sorted, the members of each that is whole rise by name.
pub(crate) fn is_made<T: Told>(
    told: &T,
    directories: &[Directory],
    path: &PathText,
    sorted: bool,
) -> bool
    ensures { (sorted ≡ true → Each (IsSorted (T.seen told.now)) directories.now) → result ≡ is_made_in (T.seen told.now) path.now directories.now }
{
    match directory_over(directories, path) {
        None => is_output(told, path, directory_at(directories, path)),
        Some(directory) => is_member(told, path, directory, sorted),
    }
}

// Which outputs of each job are whole.
fn outputs_whole<T: Told>(
    alloc: Global,
    told: &T,
    jobs: &[Job],
) -> Result<List<List<bool>>, OutOfMemory>
    ensures { IfOk result (λ flags. flags ≡ map (outputs_in (T.known told.now) (T.seen told.now)) jobs.now) }
{
    let mut flags = List::new(alloc);
    for job in jobs {
        flags.push(whole_in(alloc, told, job.recipe.outputs.as_slice())?)?;
    }
    Ok(flags)
}

/// Which outputs of the jobs are whole, and which of the paths that their makers tell of, by what is known and was seen. `OutOfMemory` where there is no memory
/// for the answer.
///
/// The members that were seen of each directory that is whole rise by name. The time is as that of `wholes`.
pub fn wholes_told<T: Told>(alloc: Global, jobs: &Jobs, told: &T) -> Result<Wholes, OutOfMemory>
    ensures { IfOk result (λ found. Each (Each (IsSorted (T.seen told.now))) (map (directories_of (T.known told.now) (T.seen told.now)) jobs.now.jobs)
        → found ≡ wholes_in (T.known told.now) (T.seen told.now) jobs.now) }
{
    let outputs = outputs_whole(alloc, told, jobs.jobs.as_slice())?;
    let makers = makers_told(alloc, told, jobs)?;
    Ok(Wholes { outputs, makers })
}

/// Which outputs of the jobs are whole, and which of the paths that their makers tell of. `OutOfMemory` where there is no memory for the answer.
///
/// The store and what is seen of the outputs are those of one image of the folder, whose records are valid and their paths' own and whose names are the places at
/// which something stands; and what the makers tell is made by the jobs that they name. The time is near linear in the number of outputs and makers and in the
/// length of the records, where a job has few directories: they are gone over for each path that the job makes.
pub fn wholes(alloc: Global, jobs: &Jobs, store: &Store, seen: &Seen) -> Result<Wholes, OutOfMemory>
    ensures { IfOk result (λ found. (image : Image) → IsStoreOf image store.now → IsSeenOf image jobs.now seen.now → NamesAll image → HasOwnRecords image → AreMade jobs.now
        → found ≡ wholes_of image jobs.now) }
{
    wholes_told(alloc, jobs, &Loaded { store, seen })
}
