//! What stands at outputs that may go.

ghost use Rattle.std.specs.Prelude.{◌≡◌, ◌||◌, option_map, IfOk, OnOk};
ghost use Rattle.std.specs.BTreeSet.{contains_text};
ghost use Rattle.std.specs.List.{list_all, list_any};
ghost use Rattle.smk_world.specs.Trees.{Path};
ghost use Rattle.smk_record.specs.Records.{same_flag};
ghost use Rattle.smk_drive_pick.specs.Spending.{are_listed, is_listed_in, is_loose, is_named_member, listed_by, may_go, was_loose, were_listed};

use smk_base::{List, OutOfMemory, PathText};
use smk_chain::sets::put;
use smk_plan::{Sight, Told};
use smk_plan_live::LivePlan;
use smk_record::Member;
use smk_store::Kept;
use smk_world::Stat;
use std::alloc::Global;
use std::collections::BTreeSet;

// Whether the two flags are the same.
fn is_same(flag: bool, other: bool) -> bool
    ensures { result ≡ same_flag flag other }
{
    flag == other
}

// Adds the member's name, where it is a folder or else where it is a file.
fn put_name(
    alloc: Global,
    names: &mut BTreeSet<String>,
    folder: bool,
    member: &Member,
) -> Result<(), OutOfMemory>
    ensures { OnOk result ((q : Path) → contains_text names.new q ≡ (contains_text names.old q || is_named_member folder q member.now)) }
{
    if !is_same(folder, member.folder) {
        return Ok(());
    }
    put(alloc, names, &member.name)
}

// The names of the folders, or of the files, among the members.
fn names_of(
    alloc: Global,
    folder: bool,
    members: &[Member],
) -> Result<BTreeSet<String>, OutOfMemory>
    ensures { IfOk result (λ names. (q : Path) → contains_text names q ≡ list_any (is_named_member folder q) members.now) }
{
    let mut names = BTreeSet::new(alloc);
    for member in members {
        put_name(alloc, &mut names, folder, member)?;
    }
    Ok(names)
}

// Whether the member is among those of these names.
fn is_listed(folders: &BTreeSet<String>, files: &BTreeSet<String>, member: &Member) -> bool
    ensures { result ≡ is_listed_in (λ q. contains_text folders.now q) (λ q. contains_text files.now q) member.now }
{
    if member.folder {
        folders.contains(member.name.as_str())
    } else {
        files.contains(member.name.as_str())
    }
}

// Whether all of the members are.
fn are_in(folders: &BTreeSet<String>, files: &BTreeSet<String>, members: &[Member]) -> bool
    ensures { result ≡ list_all (is_listed_in (λ q. contains_text folders.now q) (λ q. contains_text files.now q)) members.now }
{
    for member in members {
        if !is_listed(folders, files, member) {
            return false;
        }
    }
    true
}

// Whether each of the members is listed.
fn are_listed(alloc: Global, listed: &[Member], members: &[Member]) -> Result<bool, OutOfMemory>
    ensures { IfOk result (λ all. all ≡ are_listed listed.now members.now) }
{
    let folders = names_of(alloc, true, listed)?;
    let files = names_of(alloc, false, listed)?;
    let all = are_in(&folders, &files, members);
    Ok(all)
}

// The same of members that are told of.
fn were_listed(
    alloc: Global,
    listed: &[Member],
    members: &Option<List<Member>>,
) -> Result<bool, OutOfMemory>
    ensures { IfOk result (λ all. all ≡ were_listed listed.now members.now) }
{
    match members {
        None => Ok(false),
        Some(members) => are_listed(alloc, listed, members.as_slice()),
    }
}

// What the record lists.
fn listed_by(kept: Option<&Kept>) -> &[Member]
    ensures { result.now ≡ listed_by (option_map (λ k. k.now) kept.entry) }
{
    match kept {
        None => &[],
        Some(Kept::Absent) => &[],
        Some(Kept::Unreadable) => &[],
        Some(Kept::Held(record)) => record.members().as_slice(),
    }
}

// Whether a file was seen, or a folder in which nothing is but what is listed.
fn is_loose(alloc: Global, listed: &[Member], sight: &Sight) -> Result<bool, OutOfMemory>
    ensures { IfOk result (λ loose. loose ≡ is_loose listed.now sight.now.members sight.now.stat) }
{
    match sight.stat {
        Stat::Nothing => Ok(false),
        Stat::File { .. } => Ok(true),
        Stat::Folder => were_listed(alloc, listed, &sight.members),
    }
}

// Whether so it was seen, beside what is kept of the path.
fn was_loose(alloc: Global, kept: Option<&Kept>, sight: Option<&Sight>) -> Result<bool, OutOfMemory>
    ensures { IfOk result (λ loose. loose ≡ was_loose (option_map (λ k. k.now) kept.entry) (option_map (λ s. s.now) sight.entry)) }
{
    match sight {
        None => Ok(false),
        Some(sight) => is_loose(alloc, listed_by(kept), sight),
    }
}

/// Whether something stands at the path, and nothing under it but what its record lists. `OutOfMemory` where there is no memory to tell it.
pub(crate) fn may_go(alloc: Global, live: &LivePlan, path: &PathText) -> Result<bool, OutOfMemory>
    ensures { IfOk result (λ goes. goes ≡ may_go live.now path.now) }
{
    let told = live.told();
    let goes = was_loose(alloc, told.kept(path), told.sight(path))?;
    Ok(goes)
}
