//! Whether the members that were seen of directories rise.

ghost use Rattle.std.specs.Prelude.{◌≡◌};
ghost use Rattle.std.specs.List.{list_all};
ghost use Rattle.smk_record.specs.Records.{are_rising};
ghost use Rattle.smk_plan_facts.specs.Telling.{are_sorted_in, is_sorted_in, member_names, members_at};

use crate::directories::Directory;
use smk_base::{List, PathText};
use smk_plan::Told;
use smk_record::Member;
use std::cmp::Ordering;

// Whether the names rise in byte order.
fn members_rise(members: &[Member]) -> bool
    ensures { result ≡ are_rising (member_names members.now) }
{
    let mut rest = members;
    while let [first, more @ ..] = rest {
        if let [second, ..] = more {
            match first
                .name
                .as_str()
                .as_bytes()
                .cmp(second.name.as_str().as_bytes())
            {
                Ordering::Less => {}
                _ => return false,
            }
        }
        rest = more;
    }
    true
}

// Whether the members that were seen at the folder rise by name.
fn members_rise_at<T: Told>(told: &T, folder: &PathText) -> bool
    ensures { result ≡ are_rising (member_names (members_at (T.seen told.now) folder.now)) }
{
    match told.sight(folder) {
        None => true,
        Some(sight) => match &sight.members {
            None => true,
            Some(members) => members_rise(members.as_slice()),
        },
    }
}

// Whether the members of the directory rise, where it is whole.
fn is_sorted<T: Told>(told: &T, directory: &Directory) -> bool
    ensures { result ≡ is_sorted_in (T.seen told.now) directory.now }
{
    !directory.whole || members_rise_at(told, &directory.path)
}

/// Whether the members of each of these directories rise, where it is whole.
pub(crate) fn are_sorted<T: Told>(told: &T, directories: &[Directory]) -> bool
    ensures { result ≡ are_sorted_in (T.seen told.now) directories.now }
{
    for directory in directories {
        if !is_sorted(told, directory) {
            return false;
        }
    }
    true
}

/// The same of the directories of each job.
pub(crate) fn are_all_sorted<T: Told>(told: &T, directories: &[List<Directory>]) -> bool
    ensures { result ≡ list_all (are_sorted_in (T.seen told.now)) directories.now }
{
    for own in directories {
        if !are_sorted(told, own.as_slice()) {
            return false;
        }
    }
    true
}
