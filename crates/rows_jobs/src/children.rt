//! Children of the real device that run side by side: each makes a file, and ends well once it sees the other's.

use rows_lines::{Trouble, push_case};
use smk_base::{List, PathText, Place, Text};
use smk_world::{Crew, Ended, Files, Recipe, Stat};
use smk_world_real::RealWork;
use std::alloc::{AllocError, Global};
use std::process::Processes;
use std::rt::Files as FileSystem;
use std::time::Clock;

// The recipe of a command that makes nothing of the workspace.
fn nothing_to_make(alloc: Global) -> Result<Recipe, Trouble> {
    Ok(Recipe {
        template: Text::of(alloc, "")?,
        wildcards: List::new(alloc),
        params: List::new(alloc),
        inputs: List::new(alloc),
        outputs: List::new(alloc),
    })
}

// The place of the path.
fn place(alloc: Global, path: &str) -> Result<Place, Trouble> {
    let path = PathText::read(alloc, path)?;
    Ok(Place::user(alloc, &path)?)
}

// A shell that makes one file, and ends with status 1 unless it sees the other within 20 looks.
fn meeting(alloc: Global, own: &str, other: &str) -> Result<String, AllocError> {
    format!(in alloc;
        "cd rows_jobs_meeting
        : > {own}
        for look in 1 2 3 4 5 6 7 8 9 10 11 12 13 14 15 16 17 18 19 20; do
            if [ -e {other} ]; then exit 0; fi
            sleep 1
        done
        exit 1"
    )
}

// Whether both have ended well, and their ends tell of both.
fn have_met(first: u64, second: u64, ended: Ended, last: Ended) -> bool {
    let numbers = (ended.number, last.number);
    (ended.status, last.status) == (0, 0)
        && (numbers == (first, second) || numbers == (second, first))
}

// Starts both children in the folder and waits for both; whether they have met.
fn run_both<R: FileSystem + Processes + Clock>(
    rt: &R,
    alloc: Global,
    recipe: &Recipe,
    first: &str,
    second: &str,
) -> Result<bool, Trouble> {
    let mut work = RealWork::new(alloc, rt);
    let logs = List::new(alloc);
    let first = work.start(recipe, &logs, first)?;
    let second = work.start(recipe, &logs, second)?;
    let ended = work.wait()?;
    let last = work.wait()?;
    Ok(have_met(first, second, ended, last))
}

// Whether both children have met, in a folder that is there.
fn met<R: FileSystem + Processes + Clock>(rt: &R, alloc: Global) -> Result<bool, Trouble> {
    let recipe = nothing_to_make(alloc)?;
    let first = meeting(alloc, "first", "second")?;
    let second = meeting(alloc, "second", "first")?;
    run_both(rt, alloc, &recipe, first.as_str(), second.as_str())
}

// Makes the folder anew.
fn make_folder<R: FileSystem + Processes + Clock>(rt: &R, alloc: Global) -> Result<(), Trouble> {
    let mut work = RealWork::new(alloc, rt);
    work.remove(&place(alloc, "rows_jobs_meeting")?)?;
    Ok(work.make_parents(&place(alloc, "rows_jobs_meeting/first")?)?)
}

// Removes the folder; whether nothing stands there then.
fn is_removed<R: FileSystem + Processes + Clock>(rt: &R, alloc: Global) -> Result<bool, Trouble> {
    let mut work = RealWork::new(alloc, rt);
    let folder = place(alloc, "rows_jobs_meeting")?;
    work.remove(&folder)?;
    Ok(matches!(work.stat(&folder)?, Stat::Nothing))
}

// What is told of the children.
fn told<R: FileSystem + Processes + Clock>(rt: &R, alloc: Global) -> Result<String, Trouble> {
    make_folder(rt, alloc)?;
    let met = met(rt, alloc)?;
    let removed = is_removed(rt, alloc)?;
    Ok(format!(in alloc; "met: {met}, their folder is removed: {removed}")?)
}

/// Adds the line.
pub fn push_rows<R: FileSystem + Processes + Clock>(
    rt: &R,
    alloc: Global,
    text: &mut String,
) -> Result<(), AllocError> {
    push_case(text, "two children side by side", &told(rt, alloc))
}
