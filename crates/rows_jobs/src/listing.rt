//! Folders that the workspace in memory lists.

use crate::jobs::workspace;
use rows_lines::{Trouble, push_case};
use smk_base::{List, PathText, Place};
use smk_world::{Files, Listing, Name};
use smk_world_mem::MemWork;
use std::alloc::{AllocError, Global};

// Writes the file by hand.
fn place(alloc: Global, work: &mut MemWork, path: &str) -> Result<(), Trouble> {
    let path = PathText::read(alloc, path)?;
    Ok(work.place(&path, b"1", 1)?)
}

// Writes the files by hand.
fn place_all(alloc: Global, work: &mut MemWork) -> Result<(), Trouble> {
    for path in ["a/z.txt", "a/b/c/d.txt", "a.txt"] {
        place(alloc, work, path)?;
    }
    Ok(())
}

// What the folder has.
fn listing_of(alloc: Global, work: &mut MemWork, path: &str) -> Result<Listing, Trouble> {
    let place = Place::user(alloc, &PathText::read(alloc, path)?)?;
    Ok(work.list(alloc, &place)?)
}

// Adds the names, a `/` behind each that is a folder's.
fn push_names(text: &mut String, names: &[Name]) -> Result<(), AllocError> {
    for name in names {
        let end = if name.folder { "/" } else { "" };
        write!(text, " {}{end}", name.name.as_str())?;
    }
    Ok(())
}

// The listing in words.
fn words_of(alloc: Global, listing: &Listing) -> Result<String, AllocError> {
    let mut text = String::new(alloc);
    text.push_str(if listing.there {
        "a folder with"
    } else {
        "no folder"
    })?;
    push_names(&mut text, listing.names.as_slice())?;
    text.push_str(if listing.strange {
        " and strange names"
    } else {
        ""
    })?;
    Ok(text)
}

// What is told of the folder in this workspace.
fn told_in(alloc: Global, work: &mut MemWork, path: &str) -> Result<String, Trouble> {
    place_all(alloc, work)?;
    let listing = listing_of(alloc, work, path)?;
    Ok(words_of(alloc, &listing)?)
}

// What is told of the folder.
fn told(alloc: Global, path: &str) -> Result<String, Trouble> {
    let mut work = workspace(alloc, List::new(alloc));
    told_in(alloc, &mut work, path)
}

/// Adds a line for each case.
pub fn push_rows(alloc: Global, text: &mut String) -> Result<(), AllocError> {
    for (name, path) in [
        ("a folder that is listed", "a"),
        ("a file that is listed", "a.txt"),
    ] {
        push_case(text, name, &told(alloc, path))?;
    }
    Ok(())
}
