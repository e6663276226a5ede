//! What is missing where a job has no input.

use crate::calling::listed;
use smk_base::OutOfMemory;
use smk_trial::Fault;
use smk_words_reading::{Asked, RunWords, read_words};
use std::alloc::Global;
use std::process::Processes;
use std::rt::Files;
use std::thread::Threads;
use std::time::Clock;

/// Why something that is wanted can't be made.
#[derive(Drop)]
pub(crate) enum Missing {
    /// This file isn't there, and no rule can make it.
    File(String),
    /// This is no path of a file in the folder.
    NoPath(String),
    /// The rules lead from this file back to it.
    Circle(String),
}

// How many rules deep it is looked.
const MOST_RULES: u64 = 50;

// What a listing of a target tells of it.
#[derive(Drop)]
enum Step {
    Found(Missing),
    // It wants this one.
    Deeper(String),
    Unknown,
}

// A text of one's own.
fn owned(alloc: Global, text: &str) -> Result<String, OutOfMemory> {
    Ok(String::from_str(alloc, text)?)
}

// The words of a listing of the target alone, by the workflow and the configuration of a run.
fn listing_of(alloc: Global, run: &RunWords, target: &str) -> Result<Vec<String>, OutOfMemory> {
    let mut words = Vec::new(alloc);
    words.push(owned(alloc, "-n")?)?;
    if let Some(file) = &run.file {
        let file = file.as_str();
        words.push(format!(in alloc; "--snakefile={file}")?)?;
    }
    for set in run.sets.as_slice() {
        let (name, value) = (set.name.as_str(), set.value.as_str());
        words.push(format!(in alloc; "--config={name}={value}")?)?;
    }
    words.push(owned(alloc, "--")?)?;
    words.push(owned(alloc, target)?)?;
    Ok(words)
}

// What the fault of a listing of the target tells of it, where it speaks of that: a target may also be the name of a rule.
fn step_by(alloc: Global, fault: &Fault, target: &str) -> Result<Step, OutOfMemory> {
    let text = owned(alloc, target)?;
    match fault {
        Fault::NoRule { path } => Ok(found_if(path.as_str() == target, Missing::File(text))),
        Fault::BadTarget { word } => Ok(found_if(word.as_str() == target, Missing::NoPath(text))),
        Fault::NoInput { path, wanted, .. } => {
            if path.as_str() == target {
                Ok(Step::Deeper(owned(alloc, wanted.as_str())?))
            } else {
                Ok(Step::Unknown)
            }
        }
        _ => Ok(Step::Unknown),
    }
}

fn found_if(speaks: bool, missing: Missing) -> Step {
    if speaks {
        Step::Found(missing)
    } else {
        Step::Unknown
    }
}

fn next_step<R: Files + Processes + Clock + Threads + Sync>(
    rt: &R,
    alloc: Global,
    run: &RunWords,
    target: &str,
) -> Result<Step, OutOfMemory> {
    let words = listing_of(alloc, run, target)?;
    let (fault, _) = listed(rt, alloc, words.as_slice());
    match fault {
        Some(fault) => step_by(alloc, &fault, target),
        None => Ok(Step::Unknown),
    }
}

fn is_among(targets: &[String], target: &str) -> bool {
    targets.iter().any(|other| other.as_str() == target)
}

// Goes from what is wanted to what that wants, and so on.
fn descend<R: Files + Processes + Clock + Threads + Sync>(
    rt: &R,
    alloc: Global,
    run: &RunWords,
    path: &str,
    wanted: &str,
) -> Result<Option<Missing>, OutOfMemory> {
    let mut passed = Vec::new(alloc);
    passed.push(owned(alloc, path)?)?;
    let mut target = owned(alloc, wanted)?;
    for _ in 0..MOST_RULES {
        if is_among(passed.as_slice(), target.as_str()) {
            return Ok(Some(Missing::Circle(target)));
        }
        match next_step(rt, alloc, run, target.as_str())? {
            Step::Found(missing) => return Ok(Some(missing)),
            Step::Deeper(wanted) => {
                passed.push(target)?;
                target = wanted;
            }
            Step::Unknown => return Ok(None),
        }
    }
    Ok(None)
}

/// Why there is no input for the path, of which a rule wants this: what is told of the targets that a listing is made of, one after another, from what is
/// wanted down to what is missing itself. `None` where that can't be found so. `OutOfMemory` where a growth finds no memory.
pub(crate) fn find_missing<R: Files + Processes + Clock + Threads + Sync>(
    rt: &R,
    alloc: Global,
    words: &[String],
    path: &str,
    wanted: &str,
) -> Result<Option<Missing>, OutOfMemory> {
    match read_words(alloc, words) {
        Ok(Asked::Run(run)) => descend(rt, alloc, &run, path, wanted),
        Ok(Asked::Preview(run)) => descend(rt, alloc, &run, path, wanted),
        _ => Ok(None),
    }
}
