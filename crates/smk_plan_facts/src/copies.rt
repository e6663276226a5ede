//! Copies of what is kept of a path.

ghost use Rattle.std.specs.Prelude.{◌≡◌, IfOk, map, option_map};
ghost use Rattle.smk_store.specs.Stores.{entry_of};
ghost use Rattle.smk_plan_facts.specs.Telling.{copied, held_by, kept_of, or_absent};

use smk_base::{Copied, List, OutOfMemory, PathText};
use smk_plan::Told;
use smk_record::{Member, Record, Stamp};
use smk_store::Kept;
use std::alloc::Global;

// A copy of the stamps.
fn stamps_again(alloc: Global, stamps: &[Stamp]) -> Result<List<Stamp>, OutOfMemory>
    ensures { IfOk result (λ copy. copy ≡ stamps.now) }
{
    let mut copy = List::new(alloc);
    for stamp in stamps {
        copy.push(*stamp)?;
    }
    Ok(copy)
}

// A copy of the member.
fn member_again(alloc: Global, member: &Member) -> Result<Member, OutOfMemory>
    ensures { IfOk result (λ copy. copy ≡ member.now) }
{
    Ok(Member {
        folder: member.folder,
        name: member.name.copied(alloc)?,
    })
}

/// A copy of the members. `OutOfMemory` where there is no memory for it.
pub fn members_again(alloc: Global, members: &[Member]) -> Result<List<Member>, OutOfMemory>
    ensures { IfOk result (λ copy. copy ≡ members.now) }
{
    let mut copy = List::new(alloc);
    for member in members {
        copy.push(member_again(alloc, member)?)?;
    }
    Ok(copy)
}

// What is kept where the record is this one.
fn kept_by(found: Option<Record>) -> Kept
    ensures { result ≡ held_by found }
{
    match found {
        None => Kept::Unreadable,
        Some(found) => Kept::Held(found),
    }
}

// A copy of the record, where it is valid.
fn record_again(alloc: Global, held: &Record) -> Result<Kept, OutOfMemory>
    ensures { IfOk result (λ kept. kept ≡ copied (Kept.Held held.now)) }
{
    let path = held.path().copied(alloc)?;
    let recipe = held.recipe().copied(alloc)?;
    let stamps = stamps_again(alloc, held.stamps().as_slice())?;
    let members = members_again(alloc, held.members().as_slice())?;
    Ok(kept_by(Record::of(held.format(), path, held.made(), recipe, stamps, members)))
}

/// A copy of what is kept; a record only where it is valid. `OutOfMemory` where there is no memory for it.
pub fn kept_again(alloc: Global, kept: &Kept) -> Result<Kept, OutOfMemory>
    ensures { IfOk result (λ copy. copy ≡ copied kept.now) }
{
    match kept {
        Kept::Absent => Ok(Kept::Absent),
        Kept::Unreadable => Ok(Kept::Unreadable),
        Kept::Held(record) => record_again(alloc, record),
    }
}

// A copy of what is kept of a path, if anything is known of it.
fn copy_of(alloc: Global, kept: Option<&Kept>) -> Result<Kept, OutOfMemory>
    ensures { IfOk result (λ copy. copy ≡ copied (or_absent (option_map (λ k. k.now) kept.entry))) }
{
    match kept {
        None => Ok(Kept::Absent),
        Some(kept) => kept_again(alloc, kept),
    }
}

/// A copy of what is kept of the path, if anything is known of it; a record only where it is valid.
pub(crate) fn copy_at<T: Told>(
    alloc: Global,
    told: &T,
    path: &PathText,
) -> Result<Kept, OutOfMemory>
    ensures { IfOk result (λ copy. copy ≡ copied (kept_of (entry_of (T.known told.now) path.now))) }
{
    copy_of(alloc, told.kept(path))
}
