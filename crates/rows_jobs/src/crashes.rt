//! What a crash leaves of the workspace in memory after some calls, by each of the choices.

use rows_lines::{Trouble, push_case};
use smk_base::{List, PathText, Place, one};
use smk_world::{Files, Stat};
use smk_world_crash::Choice;
use smk_world_mem::{MemWork, Setup};
use std::alloc::{AllocError, Global};
use std::str;

// What is done to the workspace.
#[derive(Clone, Copy)]
enum Act {
    // A firm file is put there by hand.
    Place(&'static str),
    Create(&'static str),
    Parents(&'static str),
    Remove(&'static str),
    Settle(&'static str),
    Protect(&'static str),
}

fn workspace(alloc: Global) -> MemWork {
    MemWork::new(
        alloc,
        Setup {
            failing: List::new(alloc),
            stop_after: None,
            order: List::new(alloc),
            killed: List::new(alloc),
        },
    )
}

fn place(alloc: Global, path: &str) -> Result<Place, Trouble> {
    let path = PathText::read(alloc, path)?;
    Ok(Place::user(alloc, &path)?)
}

// Removes what is there, where no child runs.
#[tactic(auto, using(crate::proofs::Unused::unused_at_rest))]
fn remove(work: &mut MemWork, place: &Place) -> Result<(), Trouble> {
    if work.is_at_rest() {
        Ok(work.remove(place)?)
    } else {
        Err(Trouble::Running)
    }
}

fn create(work: &mut MemWork, place: &Place) -> Result<(), Trouble> {
    work.create_new(place)?;
    Ok(())
}

fn settle(alloc: Global, work: &mut MemWork, place: Place) -> Result<(), Trouble> {
    let places = one(alloc, place)?;
    Ok(work.settle(&places)?)
}

fn do_one(alloc: Global, work: &mut MemWork, act: Act) -> Result<(), Trouble> {
    match act {
        Act::Place(path) => Ok(work.place(&PathText::read(alloc, path)?, b"old", 5)?),
        Act::Create(path) => create(work, &place(alloc, path)?),
        Act::Parents(path) => Ok(work.make_parents(&place(alloc, path)?)?),
        Act::Remove(path) => remove(work, &place(alloc, path)?),
        Act::Settle(path) => settle(alloc, work, place(alloc, path)?),
        Act::Protect(path) => Ok(work.protect(&place(alloc, path)?)?),
    }
}

fn do_all(alloc: Global, work: &mut MemWork, acts: &[Act]) -> Result<(), Trouble> {
    for each in acts {
        do_one(alloc, work, *each)?;
    }
    Ok(())
}

// Adds the file.
fn push_file(
    text: &mut String,
    work: &MemWork,
    path: &PathText,
    read_only: bool,
) -> Result<(), AllocError> {
    let bytes = str::from_utf8(work.bytes_at(path).unwrap_or(&[])).unwrap_or("?");
    let flag = if read_only { " (read-only)" } else { "" };
    write!(text, " {}={bytes:?}{flag}", path.as_str())
}

// Adds what stands at the path, where something does.
fn push_place(
    alloc: Global,
    text: &mut String,
    work: &mut MemWork,
    path: &str,
) -> Result<(), Trouble> {
    let path = PathText::read(alloc, path)?;
    match work.stat(&Place::user(alloc, &path)?)? {
        Stat::File { read_only, .. } => push_file(text, work, &path, read_only)?,
        Stat::Folder => write!(text, " {}/", path.as_str())?,
        Stat::Nothing => {}
    }
    Ok(())
}

// Adds what stands in the workspace.
fn push_places(alloc: Global, text: &mut String, work: &mut MemWork) -> Result<(), Trouble> {
    if !work.is_at_rest() {
        return Err(Trouble::Running);
    }
    for path in ["a", "d", "d/b", "d/c"] {
        push_place(alloc, text, work, path)?;
    }
    Ok(())
}

// Adds what the crash of this choice leaves.
fn push_crash(
    alloc: Global,
    text: &mut String,
    work: &MemWork,
    choice: Choice,
    name: &str,
) -> Result<(), Trouble> {
    write!(text, "{name}:")?;
    let mut crashed = work.crashed(choice)?;
    push_places(alloc, text, &mut crashed)
}

// What each of the crashes leaves.
fn told_in(alloc: Global, work: &mut MemWork, acts: &[Act]) -> Result<String, Trouble> {
    do_all(alloc, work, acts)?;
    let mut text = String::new(alloc);
    push_crash(alloc, &mut text, work, Choice::Least, "least")?;
    push_crash(alloc, &mut text, work, Choice::Reading, "; reading")?;
    push_crash(alloc, &mut text, work, Choice::Mixed, "; mixed")?;
    Ok(text)
}

fn told(alloc: Global, acts: &[Act]) -> Result<String, Trouble> {
    let mut work = workspace(alloc);
    told_in(alloc, &mut work, acts)
}

// Adds the line of what each of the crashes leaves after these.
fn push_after(
    alloc: Global,
    text: &mut String,
    name: &str,
    acts: &[Act],
) -> Result<(), AllocError> {
    push_case(text, name, &told(alloc, acts))
}

// Adds the lines of what is made and put.
fn push_made(alloc: Global, text: &mut String) -> Result<(), AllocError> {
    push_after(alloc, text, "a crash after nothing", &[])?;
    push_after(
        alloc,
        text,
        "a crash after a file was put",
        &[Act::Place("a")],
    )?;
    push_after(alloc, text, "after a file is made", &[Act::Create("a")])?;
    push_after(
        alloc,
        text,
        "after it is settled",
        &[Act::Create("a"), Act::Settle("a")],
    )?;
    push_after(
        alloc,
        text,
        "after a folder is made",
        &[Act::Parents("d/b")],
    )?;
    push_after(
        alloc,
        text,
        "after that is settled",
        &[Act::Parents("d/b"), Act::Settle("d/b")],
    )
}

// Adds the lines of what goes, is guarded, and is made anew.
fn push_gone(alloc: Global, text: &mut String) -> Result<(), AllocError> {
    let first = Act::Place("d/b");
    let second = Act::Place("d/c");
    push_after(
        alloc,
        text,
        "after a file is removed",
        &[first, second, Act::Remove("d/b")],
    )?;
    push_after(
        alloc,
        text,
        "after its folder is removed too",
        &[first, second, Act::Remove("d/b"), Act::Remove("d")],
    )?;
    push_after(
        alloc,
        text,
        "after a folder is removed, and that is settled",
        &[first, second, Act::Remove("d"), Act::Settle("d")],
    )?;
    push_after(
        alloc,
        text,
        "after a file is protected",
        &[Act::Place("a"), Act::Protect("a")],
    )?;
    push_after(
        alloc,
        text,
        "after a removed file is made anew",
        &[Act::Place("a"), Act::Remove("a"), Act::Create("a")],
    )
}

/// Adds a line for each case.
pub fn push_rows(alloc: Global, text: &mut String) -> Result<(), AllocError> {
    push_made(alloc, text)?;
    push_gone(alloc, text)
}
