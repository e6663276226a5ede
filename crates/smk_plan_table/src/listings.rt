//! Listings by the records of directories.

ghost use Rattle.std.specs.Prelude.{◌≡◌, ◌++◌, ◌∷◌, [], not, map, filter, IfOk, OnOk};
ghost use Rattle.smk_plan_table.specs.Parts.{file_in, files_among, files_kept, files_in, listing_in};

use smk_base::{List, OutOfMemory, PathText};
use smk_chain::{Known, Listings};
use smk_plan::Told;
use smk_record::Member;
use smk_store::Kept;
use std::alloc::Global;

// Adds the name of the member, where it is a file.
fn push_file(alloc: Global, found: &mut List<PathText>, member: &Member) -> Result<(), OutOfMemory>
    ensures { OnOk result (found.new ≡ found.old ++ file_in member.now) }
{
    if member.folder {
        return Ok(());
    }
    found.push(member.name.copy(alloc)?)?;
    Ok(())
}

// The files among the members.
fn files_among(alloc: Global, members: &[Member]) -> Result<List<PathText>, OutOfMemory>
    ensures { IfOk result (λ found. found ≡ files_among members.now) }
{
    let mut found = List::new(alloc);
    for member in members {
        push_file(alloc, &mut found, member)?;
    }
    Ok(found)
}

// The files in the record that is kept.
fn files_kept(alloc: Global, kept: &Kept) -> Result<List<PathText>, OutOfMemory>
    ensures { IfOk result (λ found. found ≡ files_kept kept.now) }
{
    match kept {
        Kept::Absent => Ok(List::new(alloc)),
        Kept::Unreadable => Ok(List::new(alloc)),
        Kept::Held(record) => files_among(alloc, record.members().as_slice()),
    }
}

// The files in the record of the directory.
fn files_in<T: Told>(
    alloc: Global,
    told: &T,
    folder: &PathText,
) -> Result<List<PathText>, OutOfMemory>
    ensures { IfOk result (λ found. found ≡ files_in (T.known told.now) folder.now) }
{
    match told.kept(folder) {
        None => Ok(List::new(alloc)),
        Some(kept) => files_kept(alloc, kept),
    }
}

/// The listings of these directories, by their records.
pub(crate) fn listings_of<T: Told>(
    alloc: Global,
    told: &T,
    folders: &[PathText],
) -> Result<Listings, OutOfMemory>
    ensures { IfOk result (λ found. found ≡ map (listing_in (T.known told.now)) folders.now) }
{
    let mut found = List::new(alloc);
    for folder in folders {
        found.push(Known {
            folder: folder.copy(alloc)?,
            files: files_in(alloc, told, folder)?,
        })?;
    }
    Ok(found)
}
