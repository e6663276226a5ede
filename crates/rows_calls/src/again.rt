//! What comes after a stop: a crash, `--unlock`, and the same words with `--rerun-incomplete`.

use crate::row::Row;
use crate::workspace::{Trial, call, is_made, with_sinks};
use rows_lines::Trouble;
use smk_world_crash::Choice;
use smk_world_mem::MemWork;
use std::alloc::Global;
use std::thread::Threads;

// Unlocks the workspace and calls again; whether both end with status 0, and the targets are made.
fn goes_on_in<Rt: Threads + Sync>(
    rt: &Rt,
    alloc: Global,
    row: &Row,
    trial: &mut Trial,
) -> Result<bool, Trouble> {
    if call(rt, alloc, &["--unlock"], &[], trial)? != 0 {
        return Ok(false);
    }
    if call(rt, alloc, row.words, &["--rerun-incomplete"], trial)? != 0 {
        return Ok(false);
    }
    is_made(alloc, &trial.work, row)
}

/// Lets a crash come by the choice, and goes on; whether that ends well.
pub fn goes_on<Rt: Threads + Sync>(
    rt: &Rt,
    alloc: Global,
    row: &Row,
    work: &MemWork,
    choice: Choice,
) -> Result<bool, Trouble> {
    let mut trial = with_sinks(alloc, work.crashed(choice)?);
    goes_on_in(rt, alloc, row, &mut trial)
}
