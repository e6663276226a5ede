//! Jobs that are finished or abandoned.

use crate::jobs::{abandoned, begun, finished, record_of, workspace};
use crate::seen::{line, push_seen};
use rows_lines::{Trouble, push_case};
use smk_base::{List, PathText, Place};
use smk_job::{CloseFault, Going};
use smk_world::{Failed, Files, Kind};
use smk_world_mem::MemWork;
use std::alloc::{AllocError, Global};

/// What is made by hand where the output of a job is to be.
#[derive(Clone, Copy)]
pub enum Made {
    Nothing,
    File,
    /// A folder with nothing in it.
    Empty,
    /// A folder with these in it: a name that ends in `/` is that of a folder.
    Folder(&'static [&'static str]),
    /// A folder with a file of this many bytes of name in it.
    Deep(usize),
}

// What the end of a job came to.
fn answer(closed: &Result<(), CloseFault>) -> &'static str {
    match closed {
        Ok(()) => "done",
        Err(CloseFault::NoOutput(_)) => "no output",
        Err(CloseFault::WrongKind(_)) => "wrong kind",
        Err(CloseFault::BadMember(_)) => "bad member",
        Err(CloseFault::Device) => "device",
        Err(CloseFault::OutOfMemory) => "out of memory",
    }
}

// Makes what has the name in the folder.
fn put(alloc: Global, work: &mut MemWork, folder: &Place, name: &str) -> Result<(), Trouble> {
    let place = folder.within(alloc, name)?;
    work.make_parents(&place)?;
    if !name.ends_with('/') {
        work.create_new(&place)?;
    }
    Ok(())
}

// Makes what has these names in the folder.
fn put_each(
    alloc: Global,
    work: &mut MemWork,
    folder: &Place,
    names: &[&str],
) -> Result<(), Trouble> {
    for name in names {
        put(alloc, work, folder, name)?;
    }
    Ok(())
}

// A name of so many bytes, at least 750, whose parts have at most 249.
fn deep_name(alloc: Global, len: usize) -> Result<String, AllocError> {
    let mut name = String::new(alloc);
    for i in 0..len {
        name.push(if i % 250 == 249 { '/' } else { 'd' })?;
    }
    Ok(name)
}

// Makes it by hand at the place.
fn make_at(
    alloc: Global,
    work: &mut MemWork,
    path: &PathText,
    place: &Place,
    made: Made,
) -> Result<(), Trouble> {
    match made {
        Made::Nothing => Ok(()),
        Made::File => Ok(work.place(path, b"1", 1)?),
        Made::Empty => Ok(work.make_parents(&place.within(alloc, "a")?)?),
        Made::Folder(names) => put_each(alloc, work, place, names),
        Made::Deep(len) => put(alloc, work, place, deep_name(alloc, len)?.as_str()),
    }
}

// Makes it by hand.
fn make(alloc: Global, work: &mut MemWork, path: &PathText, made: Made) -> Result<(), Trouble> {
    let place = Place::user(alloc, path)?;
    make_at(alloc, work, path, &place, made)
}

// Begins a job of an output of this kind without inputs.
fn begin_bare(
    alloc: Global,
    work: &mut MemWork,
    path: &PathText,
    kind: Kind,
) -> Result<Going, Trouble> {
    let kept = record_of(
        alloc,
        path.copy(alloc)?,
        kind,
        List::new(alloc),
        List::new(alloc),
    )?;
    begun(alloc, work, &kept)
}

/// Begins a job of an output of this kind without inputs, and makes by hand what stands at it then.
pub fn going(
    alloc: Global,
    work: &mut MemWork,
    path: &PathText,
    kind: Kind,
    made: Made,
) -> Result<Going, Trouble> {
    let going = begin_bare(alloc, work, path, kind)?;
    make(alloc, work, path, made)?;
    Ok(going)
}

/// Finishes the job, and says what that came to.
pub fn close(alloc: Global, work: &mut MemWork, going: Going) -> Result<&'static str, Trouble> {
    let closed = finished(alloc, work, going)?;
    Ok(answer(&closed))
}

// Begins the job and finishes it, and says what that came to.
fn ended(
    alloc: Global,
    work: &mut MemWork,
    path: &PathText,
    kind: Kind,
    made: Made,
) -> Result<&'static str, Trouble> {
    let going = going(alloc, work, path, kind, made)?;
    close(alloc, work, going)
}

// What is told in this workspace of a job that is finished.
fn finish_in(alloc: Global, work: &mut MemWork, kind: Kind, made: Made) -> Result<String, Trouble> {
    let path = PathText::read(alloc, "out")?;
    let ended = ended(alloc, work, &path, kind, made)?;
    line(alloc, work, ended, &path)
}

/// What is told of a job that is finished, where the calls with these numbers fail.
pub fn told_of_finish(
    alloc: Global,
    failing: List<u64>,
    kind: Kind,
    made: Made,
) -> Result<String, Trouble> {
    let mut work = workspace(alloc, failing);
    finish_in(alloc, &mut work, kind, made)
}

// Abandons the job, and says what that came to.
fn leave(work: &mut MemWork, going: Going) -> Result<&'static str, Trouble> {
    match abandoned(work, going)? {
        Ok(()) => Ok("; abandoned"),
        Err(Failed) => Ok("; device"),
    }
}

// Adds to what was seen before what the end came to, and what is seen now.
fn with_end(
    alloc: Global,
    work: &mut MemWork,
    path: &PathText,
    seen: Result<String, Trouble>,
    closed: Result<&'static str, Trouble>,
) -> Result<String, Trouble> {
    let mut text = seen?;
    text.push_str(closed?)?;
    push_seen(alloc, work, &mut text, path)?;
    Ok(text)
}

// What is told in this workspace of a job that is abandoned.
fn abandon_in(
    alloc: Global,
    work: &mut MemWork,
    path: &PathText,
    kind: Kind,
    made: Made,
) -> Result<String, Trouble> {
    let going = going(alloc, work, path, kind, made)?;
    let seen = line(alloc, work, "begun", path);
    let closed = leave(work, going);
    with_end(alloc, work, path, seen, closed)
}

// What is told of a job that is abandoned.
fn told_of_abandon(alloc: Global, kind: Kind, made: Made) -> Result<String, Trouble> {
    let path = PathText::read(alloc, "out")?;
    let mut work = workspace(alloc, List::new(alloc));
    abandon_in(alloc, &mut work, &path, kind, made)
}

/// Adds a line for each case.
pub fn push_rows(alloc: Global, text: &mut String) -> Result<(), AllocError> {
    for (name, kind, made) in [
        ("a file", Kind::Plain, Made::File),
        (
            "a directory",
            Kind::Folder,
            Made::Folder(&["b", "a/x", "a-b", "a/y/z", "c/"]),
        ),
        ("an empty directory", Kind::Folder, Made::Empty),
        ("a name of 996 bytes", Kind::Folder, Made::Deep(996)),
        ("nothing", Kind::Plain, Made::Nothing),
        ("nothing for a directory", Kind::Folder, Made::Nothing),
        ("a file for a directory", Kind::Folder, Made::File),
        ("a directory for a file", Kind::Plain, Made::Folder(&["a"])),
        (
            "a name of two lines",
            Kind::Folder,
            Made::Folder(&["a", "b/c\nd"]),
        ),
        (
            "a name that makes no path",
            Kind::Folder,
            Made::Folder(&["a", "b/.."]),
        ),
        ("a name of 997 bytes", Kind::Folder, Made::Deep(997)),
    ] {
        push_case(
            text,
            name,
            &told_of_finish(alloc, List::new(alloc), kind, made),
        )?;
    }
    push_case(
        text,
        "a file that is abandoned",
        &told_of_abandon(alloc, Kind::Plain, Made::File),
    )?;
    push_case(
        text,
        "a directory that is abandoned",
        &told_of_abandon(alloc, Kind::Folder, Made::Folder(&["a/b"])),
    )
}
