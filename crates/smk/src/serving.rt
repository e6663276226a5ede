//! A call on the working folder, and what a terminal is told besides.

use crate::calling::{call, jobs_of};
use crate::second::second_line;
use smk_world_real::{Progress, RealSink, RealWork};
use std::alloc::Global;
use std::env;
use std::io::{IsTerminal, Stderr, Stdout};
use std::process::Processes;
use std::rt::{Env, Files};
use std::thread::Threads;
use std::time::Clock;

// Whether the terminal can clear a line.
fn can_clear<R: Env + AllocGlobal>(rt: &R) -> bool {
    match env::var(rt, "TERM") {
        Ok(name) => !name.is_empty() && name.as_str() != "dumb",
        Err(_) => false,
    }
}

// The line of progress, where standard error is a terminal that can clear it.
fn progress_of<R: Files + Processes + Clock + Threads + Sync + Env + AllocGlobal>(
    rt: &R,
    alloc: Global,
    words: &[String],
    errors: Stderr,
) -> Option<Progress> {
    if errors.is_terminal() && can_clear(rt) {
        let jobs = jobs_of(rt, alloc, words);
        Some(Progress::new(alloc, errors, jobs))
    } else {
        None
    }
}

/// Does what the words ask; the status of the call. Where standard error is a terminal, a run has a line that tells how many of its jobs are done, and a fault
/// a second line where one is of use.
pub(crate) fn serve<R: Files + Processes + Clock + Threads + Sync + Env + AllocGlobal>(
    rt: &R,
    alloc: Global,
    words: &[String],
    output: Stdout,
    errors: Stderr,
) -> u8 {
    let progress = progress_of(rt, alloc, words, errors);
    let mut work = RealWork::new(alloc, rt);
    let mut out = RealSink::output(output, progress.as_ref());
    let mut err = RealSink::errors(errors, progress.as_ref());
    let (status, fault) = call(rt, alloc, words, &mut work, &mut out, &mut err);
    if let Some(progress) = &progress {
        progress.clear();
    }
    if errors.is_terminal() {
        if let Some(fault) = &fault {
            let line = second_line(rt, alloc, words, fault, work.first_failure());
            if let Ok(Some(line)) = line {
                let _ = errors.write_all(line.as_bytes());
            }
        }
    }
    status
}
