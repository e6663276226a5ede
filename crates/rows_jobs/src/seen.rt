//! What stands in the workspace.

use rows_lines::Trouble;
use smk_base::{PathText, Place};
use smk_record::Member;
use smk_store::{Entry, Kept, load};
use smk_world::{Files, Stat};
use smk_world_mem::MemWork;
use std::alloc::{AllocError, Global};

// What stands at the place.
fn standing(stat: Stat) -> &'static str {
    match stat {
        Stat::Nothing => "nothing",
        Stat::File { .. } => "a file",
        Stat::Folder => "a folder",
    }
}

// What is known of the path with this entry.
fn known_in(entry: &Entry) -> &'static str {
    match (&entry.kept, entry.marked) {
        (Kept::Absent, true) => "marked",
        (Kept::Absent, false) => "noted",
        (Kept::Unreadable, _) => "unreadable",
        (Kept::Held(_), true) => "recorded, marked",
        (Kept::Held(_), false) => "recorded",
    }
}

// Adds the name, or its length where it is long.
fn push_member(text: &mut String, member: &Member) -> Result<(), AllocError> {
    let name = member.name.as_str();
    let end = if member.folder { "/" } else { "" };
    if name.len() > 100 {
        write!(text, " ({} bytes){end}", name.len())
    } else {
        write!(text, " {name}{end}")
    }
}

// Adds the names.
fn push_members(text: &mut String, members: &[Member]) -> Result<(), AllocError> {
    for member in members {
        push_member(text, member)?;
    }
    Ok(())
}

// Adds what is known of the path.
fn push_known(text: &mut String, entry: Option<&Entry>) -> Result<(), AllocError> {
    match entry {
        None => text.push_str("nothing known"),
        Some(entry) => {
            text.push_str(known_in(entry))?;
            match &entry.kept {
                Kept::Held(record) => push_members(text, record.members().as_slice()),
                Kept::Absent | Kept::Unreadable => Ok(()),
            }
        }
    }
}

/// Adds what stands at the path, and what is known of it.
pub fn push_seen(
    alloc: Global,
    work: &mut MemWork,
    text: &mut String,
    path: &PathText,
) -> Result<(), Trouble> {
    let place = Place::user(alloc, path)?;
    let stat = work.stat(&place)?;
    write!(text, "; {}, ", standing(stat))?;
    let store = load(alloc, work)?;
    Ok(push_known(text, store.entry(path))?)
}

/// The words, and what is seen of the path.
pub fn line(
    alloc: Global,
    work: &mut MemWork,
    words: &str,
    path: &PathText,
) -> Result<String, Trouble> {
    let mut text = String::from_str(alloc, words)?;
    push_seen(alloc, work, &mut text, path)?;
    Ok(text)
}
