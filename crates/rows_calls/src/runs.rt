//! Runs and refusals, with their reports.

use crate::left::{what_is_left, words_of};
use crate::trial::{Trial, call_by, set_up};
use rows_lines::{Trouble, push_case};
use std::alloc::{AllocError, Global};
use std::str;
use std::thread::Threads;

/// Its command copies the input.
pub const COPY: &str =
    "rule copy:\n    input: \"in.txt\"\n    output: \"out.txt\"\n    shell: \"cat {input} > {output}\"\n";

// Its command fails.
const FAILING: &str =
    "rule copy:\n    input: \"in.txt\"\n    output: \"out.txt\"\n    shell: \"fail {input}\"\n";

/// Its command writes half of the output, and fails.
pub const HALF: &str =
    "rule copy:\n    input: \"in.txt\"\n    output: \"out.txt\"\n    shell: \"half {input} > {output}\"\n";

// It wants an input that no rule makes.
const TWO_INPUTS: &str =
    "rule copy:\n    input: \"in.txt\", \"b\"\n    output: \"out.txt\"\n    shell: \"cat {input} > {output}\"\n";

// Adds what was written to a sink, after a line feed.
fn push_written(text: &mut String, bytes: &[u8]) -> Result<(), AllocError> {
    let written = str::from_utf8(bytes).unwrap_or("?");
    write!(text, "\n{}", written.trim_end())
}

/// The status and what is left, and what was written to this sink.
pub fn answer(
    alloc: Global,
    status: u8,
    left: &'static str,
    bytes: &[u8],
) -> Result<String, AllocError> {
    let mut text = format!(in alloc; "status {status}, {left}")?;
    if !bytes.is_empty() {
        push_written(&mut text, bytes)?;
    }
    Ok(text)
}

// The answer, and the line of the fault where there is one.
fn answer_of(
    alloc: Global,
    status: u8,
    left: &'static str,
    trial: &Trial,
) -> Result<String, AllocError> {
    let mut text = answer(alloc, status, left, trial.out.bytes())?;
    if !trial.err.bytes().is_empty() {
        push_written(&mut text, trial.err.bytes())?;
    }
    Ok(text)
}

// How the call ends in this workspace.
fn told_in<Rt: Threads + Sync>(
    rt: &Rt,
    alloc: Global,
    workflow: &str,
    target: &str,
    trial: &mut Trial,
) -> Result<String, Trouble> {
    let status = call_by(rt, alloc, workflow, target, trial)?;
    let left = what_is_left(alloc, &mut trial.work)?;
    Ok(answer_of(alloc, status, words_of(left), trial)?)
}

// How the call ends.
fn told<Rt: Threads + Sync>(
    rt: &Rt,
    alloc: Global,
    workflow: &str,
    target: &str,
) -> Result<String, Trouble> {
    let mut trial = set_up(alloc, None, None)?;
    told_in(rt, alloc, workflow, target, &mut trial)
}

/// Adds the lines of each case.
pub fn push_rows<Rt: Threads + Sync>(
    rt: &Rt,
    alloc: Global,
    text: &mut String,
) -> Result<(), AllocError> {
    for (name, workflow, target) in [
        ("a copy", COPY, "out.txt"),
        ("a command that fails", FAILING, "out.txt"),
        ("a command that writes half and fails", HALF, "out.txt"),
        ("a target that no rule makes", COPY, "z"),
        ("an input that no rule makes", TWO_INPUTS, "out.txt"),
        ("a source as the target", COPY, "in.txt"),
        ("words that aren't read", COPY, "-x"),
        ("a listing", COPY, "-n"),
    ] {
        push_case(text, name, &told(rt, alloc, workflow, target))?;
    }
    Ok(())
}
