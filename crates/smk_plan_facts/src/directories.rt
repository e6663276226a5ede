//! Directory outputs, and which outputs are whole.

ghost use Rattle.std.specs.Prelude.{◌≡◌, ◌++◌, map, option_map, IfOk, OnOk};
ghost use Rattle.std.specs.List.{flat_map};
ghost use Rattle.std.specs.Cmp.Lexicographic.{pointwise};
ghost use Rattle.smk_record.specs.Records.{same_member};
ghost use Rattle.smk_plan.specs.States.{test_some};
ghost use Rattle.smk_plan_facts.specs.Telling.{are_recorded, directory_at, is_file_stat, is_folder_stat, is_whole_in, is_whole_sight, whole_at};

use crate::known::record_at;
use smk_base::{List, OutOfMemory, PathText};
use smk_plan::{Sight, Told};
use smk_record::{Member, Record};
use smk_world::{Kind, Out, OutItem, Stat};
use std::alloc::Global;

/// A directory output, and whether it is whole.
#[derive(Drop)]
pub(crate) struct Directory {
    pub path: PathText,
    pub whole: bool,
}

/// Whether a file was seen.
pub(crate) fn is_file(stat: Stat) -> bool
    ensures { result ≡ is_file_stat stat }
{
    match stat {
        Stat::Nothing => false,
        Stat::File { .. } => true,
        Stat::Folder => false,
    }
}

// Whether a folder was seen.
fn is_folder(stat: Stat) -> bool
    ensures { result ≡ is_folder_stat stat }
{
    match stat {
        Stat::Nothing => false,
        Stat::File { .. } => false,
        Stat::Folder => true,
    }
}

// Whether the two say the same.
fn is_same(member: &Member, other: &Member) -> bool
    ensures { result ≡ same_member member.now other.now }
{
    member.folder == other.folder && member.name.as_str() == other.name.as_str()
}

// Whether the members are the same, in the same order.
fn are_same(members: &[Member], others: &[Member]) -> bool
    ensures { result ≡ pointwise same_member members.now others.now }
{
    let mut rest = others;
    for member in members {
        let Some((other, more)) = rest.split_first() else {
            return false;
        };
        if !is_same(member, other) {
            return false;
        }
        rest = more;
    }
    rest.is_empty()
}

// Whether these are the members that were seen.
fn were_seen(members: &Option<List<Member>>, recorded: &List<Member>) -> bool
    ensures { result ≡ test_some (λ ms. pointwise same_member ms recorded.now) members.now }
{
    match members {
        None => false,
        Some(members) => are_same(members.as_slice(), recorded.as_slice()),
    }
}

// Whether the members that were seen are those of the record.
fn are_recorded(members: &Option<List<Member>>, held: Option<&Record>) -> bool
    ensures { result ≡ are_recorded members.now (option_map (λ r. r.now) held.entry) }
{
    match held {
        None => false,
        Some(held) => were_seen(members, held.members()),
    }
}

// Whether an output of this kind is whole by what was seen there.
fn is_whole_sight(sight: &Sight, kind: Kind, held: Option<&Record>) -> bool
    ensures { result ≡ is_whole_sight (option_map (λ r. r.now) held.entry) kind sight.now }
{
    match kind {
        Kind::Plain => is_file(sight.stat),
        Kind::Folder => is_folder(sight.stat) && are_recorded(&sight.members, held),
    }
}

// Whether an output of this kind at the path is whole.
fn is_whole<T: Told>(told: &T, path: &PathText, kind: Kind) -> bool
    ensures { result ≡ is_whole_in (T.known told.now) (T.seen told.now) path.now kind }
{
    match told.sight(path) {
        None => false,
        Some(sight) => is_whole_sight(sight, kind, record_at(told, path)),
    }
}

// Adds which of these outputs are whole.
fn add_whole<T: Told>(flags: &mut List<bool>, told: &T, outs: &[Out]) -> Result<(), OutOfMemory>
    ensures { OnOk result (flags.new ≡ flags.old ++ map (whole_at (T.known told.now) (T.seen told.now)) outs.now) }
{
    for out in outs {
        flags.push(is_whole(told, &out.path, out.kind))?;
    }
    Ok(())
}

/// Which outputs of these items are whole.
pub(crate) fn whole_in<T: Told>(
    alloc: Global,
    told: &T,
    outputs: &[OutItem],
) -> Result<List<bool>, OutOfMemory>
    ensures { IfOk result (λ flags. flags ≡ flat_map (λ item. map (whole_at (T.known told.now) (T.seen told.now)) item.outs) outputs.now) }
{
    let mut flags = List::new(alloc);
    for item in outputs {
        add_whole(&mut flags, told, item.outs.as_slice())?;
    }
    Ok(flags)
}

// Adds the output, where it is a directory.
fn add_directory<T: Told>(
    alloc: Global,
    found: &mut List<Directory>,
    told: &T,
    out: &Out,
) -> Result<(), OutOfMemory>
    ensures { OnOk result (found.new ≡ found.old ++ directory_at (T.known told.now) (T.seen told.now) out.now) }
{
    match out.kind {
        Kind::Plain => Ok(()),
        Kind::Folder => {
            let whole = is_whole(told, &out.path, Kind::Folder);
            let path = out.path.copy(alloc)?;
            found.push(Directory { path, whole })?;
            Ok(())
        }
    }
}

// Adds those of the outputs that are directories.
fn add_directories<T: Told>(
    alloc: Global,
    found: &mut List<Directory>,
    told: &T,
    outs: &[Out],
) -> Result<(), OutOfMemory>
    ensures { OnOk result (found.new ≡ found.old ++ flat_map (directory_at (T.known told.now) (T.seen told.now)) outs.now) }
{
    for out in outs {
        add_directory(alloc, found, told, out)?;
    }
    Ok(())
}

/// The directories among the outputs of these items.
pub(crate) fn directories_in<T: Told>(
    alloc: Global,
    told: &T,
    outputs: &[OutItem],
) -> Result<List<Directory>, OutOfMemory>
    ensures { IfOk result (λ found. found ≡ flat_map (λ item. flat_map (directory_at (T.known told.now) (T.seen told.now)) item.outs) outputs.now) }
{
    let mut found = List::new(alloc);
    for item in outputs {
        add_directories(alloc, &mut found, told, item.outs.as_slice())?;
    }
    Ok(found)
}
