//! The second line of a fault, for a terminal.

use crate::missing::{Missing, find_missing};
use crate::unread::first_unread;
use smk_base::OutOfMemory;
use smk_trial::Fault;
use smk_world_real::Failure;
use std::alloc::Global;
use std::process::Processes;
use std::rt::Files;
use std::thread::Threads;
use std::time::Clock;

/// The line for words of which it isn't known which one isn't read.
pub(crate) const SEE_HELP: &str = "  see smk --help\n";

// The text, with `?` for each character that a terminal would act on.
fn shown(alloc: Global, text: &str) -> Result<String, OutOfMemory> {
    let mut shown = String::new(alloc);
    for letter in text.chars() {
        shown.push(if letter.is_control() { '?' } else { letter })?;
    }
    Ok(shown)
}

// What isn't read of words that ask nothing.
fn words_line(alloc: Global, words: &[String]) -> Result<String, OutOfMemory> {
    let place = first_unread(alloc, words)?;
    let (what, word) = match (words.get(place), words.last()) {
        (Some(word), _) => ("not read", word),
        (None, Some(last)) => ("no value", last),
        (None, None) => return Ok(String::from_str(alloc, SEE_HELP)?),
    };
    let word = shown(alloc, word.as_str())?;
    let word = word.as_str();
    Ok(format!(in alloc; "  {what}: {word}; see smk --help\n")?)
}

// Which call failed, where, and why.
fn failure_line(alloc: Global, failure: &Failure) -> Result<String, OutOfMemory> {
    let (call, reason) = (failure.call.words(), failure.reason);
    if failure.path.is_empty() {
        return Ok(format!(in alloc; "  could not {call}: {reason}\n")?);
    }
    let path = shown(alloc, failure.path.as_str())?;
    let path = path.as_str();
    Ok(format!(in alloc; "  could not {call} {path}: {reason}\n")?)
}

// What is missing.
fn missing_line(alloc: Global, missing: &Missing) -> Result<String, OutOfMemory> {
    let (words, name) = match missing {
        Missing::File(path) => ("missing", path),
        Missing::NoPath(word) => ("not a path", word),
        Missing::Circle(path) => ("needs itself", path),
    };
    let name = shown(alloc, name.as_str())?;
    let name = name.as_str();
    Ok(format!(in alloc; "  {words}: {name}\n")?)
}

/// What the line of the fault doesn't say and is of use: after a fault of the words, which one isn't read; after one of the device, which call failed, where
/// and why; and where there is no input, what is missing. `None` after any other, or where it can't be told. `OutOfMemory` where a growth finds no memory.
pub(crate) fn second_line<R: Files + Processes + Clock + Threads + Sync>(
    rt: &R,
    alloc: Global,
    words: &[String],
    fault: &Fault,
    failure: Option<&Failure>,
) -> Result<Option<String>, OutOfMemory> {
    match fault {
        Fault::BadWords => Ok(Some(words_line(alloc, words)?)),
        Fault::NoCores => Ok(Some(String::from_str(alloc, SEE_HELP)?)),
        Fault::Device => match failure {
            Some(failure) => Ok(Some(failure_line(alloc, failure)?)),
            None => Ok(None),
        },
        Fault::NoInput { path, wanted, .. } => {
            match find_missing(rt, alloc, words, path.as_str(), wanted.as_str())? {
                Some(missing) => Ok(Some(missing_line(alloc, &missing)?)),
                None => Ok(None),
            }
        }
        _ => Ok(None),
    }
}
