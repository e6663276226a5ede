//! A workspace in memory, and the calls in it.

ghost use Rattle.std.specs.Prelude.{◌≡◌, []};
ghost use Rattle.smk_world_mem.specs.Work.{running_in};

use crate::trial::{empty, numbers};
use rows_lines::Trouble;
use smk_base::{List, PathText, Place};
use smk_keep_forget::{ForgetFault, forget_paths};
use smk_keep_lock::{Lock, UnlockFault, unlock_folder};
use smk_world::{Failed, Files, Stat};
use smk_world_mem::{MemSink, MemWork};
use std::alloc::{AllocError, Global};

/// A workspace, and the sink of a call in it.
#[derive(Drop)]
pub struct Trial {
    pub work: MemWork,
    pub out: MemSink,
}

/// A workspace without a file, and a sink, where the call of the device and the put with these numbers fail.
pub fn set_up(
    alloc: Global,
    failing_call: Option<u64>,
    failing_put: Option<u64>,
) -> Result<Trial, Trouble> {
    let calls = numbers(alloc, failing_call)?;
    let puts = numbers(alloc, failing_put)?;
    Ok(Trial {
        work: empty(alloc, calls),
        out: MemSink::new(alloc, puts),
    })
}

// Makes an empty file there, and the folders above it.
fn make(work: &mut MemWork, place: &Place) -> Result<(), Trouble> {
    work.make_parents(place)?;
    work.create_new(place)?;
    Ok(())
}

/// Marks the path.
pub fn mark(alloc: Global, trial: &mut Trial, path: &str) -> Result<(), Trouble> {
    let path = PathText::read(alloc, path)?;
    make(&mut trial.work, &Place::mark_of(alloc, &path)?)
}

/// Makes the lock by hand.
pub fn lock(alloc: Global, trial: &mut Trial) -> Result<(), Trouble> {
    make(&mut trial.work, &Place::lock(alloc)?)
}

// The paths of these texts.
fn paths_of(alloc: Global, texts: &[&str]) -> Result<List<PathText>, Trouble> {
    let mut paths = List::new(alloc);
    for text in texts {
        paths.push(PathText::read(alloc, text)?)?;
    }
    Ok(paths)
}

// What forgetting came to.
fn forgetting_words(alloc: Global, answer: &Result<(), ForgetFault>) -> Result<String, AllocError> {
    match answer {
        Ok(()) => String::from_str(alloc, "done"),
        Err(ForgetFault::Locked) => String::from_str(alloc, "locked"),
        Err(ForgetFault::StampSeen(path)) => format!(in alloc; "seen {}", path.as_str()),
        Err(ForgetFault::Device) => String::from_str(alloc, "device failed"),
        Err(ForgetFault::Output) => String::from_str(alloc, "output failed"),
        Err(ForgetFault::OutOfMemory) => String::from_str(alloc, "out of memory"),
    }
}

/// Forgets the paths, and says what that came to.
pub fn forget(
    alloc: Global,
    trial: &mut Trial,
    texts: &[&str],
    nolock: bool,
) -> Result<String, Trouble> {
    let paths = paths_of(alloc, texts)?;
    if trial.work.is_at_rest() {
        let answer = forget_paths(alloc, &paths, nolock, &mut trial.work, &mut trial.out);
        Ok(forgetting_words(alloc, &answer)?)
    } else {
        Err(Trouble::Running)
    }
}

// What unlocking came to.
fn unlocking_words(answer: Result<(), UnlockFault>) -> &'static str {
    match answer {
        Ok(()) => "done",
        Err(UnlockFault::Device) => "device failed",
        Err(UnlockFault::Output) => "output failed",
        Err(UnlockFault::OutOfMemory) => "out of memory",
    }
}

/// Removes the lock, and says what that came to.
pub fn unlock(alloc: Global, trial: &mut Trial) -> Result<String, Trouble> {
    if trial.work.is_at_rest() {
        let answer = unlock_folder(alloc, &mut trial.work, &mut trial.out);
        Ok(String::from_str(alloc, unlocking_words(answer))?)
    } else {
        Err(Trouble::Running)
    }
}

/// Takes the lock twice; what each answers.
pub fn take_twice(alloc: Global, trial: &mut Trial) -> Result<String, Trouble> {
    let lock = Lock::new(alloc)?;
    if !trial.work.is_at_rest() {
        return Err(Trouble::Running);
    }
    let first = lock.take(&mut trial.work)?;
    if !trial.work.is_at_rest() {
        return Err(Trouble::Running);
    }
    let second = lock.take(&mut trial.work)?;
    Ok(format!(in alloc; "taken {first}, taken {second}")?)
}

// Whether something stands at the place.
fn stands(work: &mut MemWork, place: &Place) -> Result<bool, Trouble> {
    Ok(work.stat(place)? != Stat::Nothing)
}

/// Whether the lock stands.
pub fn is_locked(alloc: Global, trial: &mut Trial) -> Result<bool, Trouble> {
    stands(&mut trial.work, &Place::lock(alloc)?)
}
