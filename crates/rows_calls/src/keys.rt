//! The lock, and what is known of paths, taken away.

use crate::keyed::{Trial, forget, is_locked, lock, mark, set_up, take_twice, unlock};
use rows_lines::{Trouble, push_case};
use std::alloc::{AllocError, Global};

// What is told: the answer, the lines that were put, and whether the lock stands then.
fn told(alloc: Global, trial: &mut Trial, answer: &str) -> Result<String, Trouble> {
    let locked = is_locked(alloc, trial)?;
    let mut text = String::from_str(alloc, answer)?;
    for line in trial.out.bytes().split(|b| *b == b'\n') {
        push_line(&mut text, line)?;
    }
    text.push_str(if locked { "; locked" } else { "; unlocked" })?;
    Ok(text)
}

// Adds a line that was put.
fn push_line(text: &mut String, line: &[u8]) -> Result<(), AllocError> {
    match std::str::from_utf8(line) {
        Ok("") => Ok(()),
        Ok(line) => write!(text, " | {line}"),
        Err(_) => text.push_str(" | no text"),
    }
}

// A workspace in which `a` and `b` are marked.
fn marked(
    alloc: Global,
    failing_call: Option<u64>,
    failing_put: Option<u64>,
) -> Result<Trial, Trouble> {
    let mut trial = set_up(alloc, failing_call, failing_put)?;
    mark(alloc, &mut trial, "a")?;
    mark(alloc, &mut trial, "b/c")?;
    Ok(trial)
}

// Forgets `b/c`, `d` and `b/c` again.
fn forgetting(
    alloc: Global,
    failing_call: Option<u64>,
    failing_put: Option<u64>,
) -> Result<String, Trouble> {
    let mut trial = marked(alloc, failing_call, failing_put)?;
    let answer = forget(alloc, &mut trial, &["b/c", "d", "b/c"], false)?;
    told(alloc, &mut trial, answer.as_str())
}

// Forgets `a` where a lock stands.
fn under_lock(alloc: Global, nolock: bool) -> Result<String, Trouble> {
    let mut trial = marked(alloc, None, None)?;
    lock(alloc, &mut trial)?;
    let answer = forget(alloc, &mut trial, &["a"], nolock)?;
    told(alloc, &mut trial, answer.as_str())
}

// Removes the lock, which stands.
fn unlocking(alloc: Global, failing_put: Option<u64>) -> Result<String, Trouble> {
    let mut trial = set_up(alloc, None, failing_put)?;
    lock(alloc, &mut trial)?;
    let answer = unlock(alloc, &mut trial)?;
    told(alloc, &mut trial, answer.as_str())
}

// Takes the lock twice.
fn taking(alloc: Global) -> Result<String, Trouble> {
    let mut trial = set_up(alloc, None, None)?;
    let answer = take_twice(alloc, &mut trial)?;
    told(alloc, &mut trial, answer.as_str())
}

/// Adds the rows of all cases.
pub fn push_rows(alloc: Global, text: &mut String) -> Result<(), AllocError> {
    push_case(text, "take twice", &taking(alloc))?;
    push_case(text, "unlock", &unlocking(alloc, None))?;
    push_case(text, "unlock, a put fails", &unlocking(alloc, Some(1)))?;
    push_case(text, "forget", &forgetting(alloc, None, None))?;
    push_case(
        text,
        "forget, a call fails",
        &forgetting(alloc, Some(20), None),
    )?;
    push_case(
        text,
        "forget, a put fails",
        &forgetting(alloc, None, Some(3)),
    )?;
    push_case(text, "forget under a lock", &under_lock(alloc, false))?;
    push_case(text, "forget, no lock heeded", &under_lock(alloc, true))
}
