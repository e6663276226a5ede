//! The three runs.

ghost use Rattle.std.specs.Prelude.{◌≡◌, ◌≤◌, [], Some, IfOk};
ghost use Rattle.smk_world.specs.World.{World};
ghost use Rattle.smk_world_mem.specs.Work.{world_in};
ghost use Rattle.smk_trial.specs.Trying.{HasTotal, IsTried, HasTried};

use crate::editing::edit;
use crate::running::{run_once, run_words};
use crate::tried::Trial;
use smk_base::{OutOfMemory, PathText};
use smk_gen::{Made, generate};
use smk_world_mem::MemWork;
use std::alloc::Global;
use std::thread::Threads;

/// What is counted.
#[derive(Clone, Copy)]
struct Counts {
    first: u64,
    second: u64,
    third: u64,
    total: u64,
}

// How many bytes `total.txt` has. `OutOfMemory` where it isn't there.
fn total_len(alloc: Global, work: &MemWork) -> Result<u64, OutOfMemory>
    ensures { IfOk result (λ total. (w : World) → world_in work.now ≡ Some w → w.children ≡ [] → HasTotal w total) }
{
    let Ok(path) = PathText::read(alloc, "total.txt") else {
        return Err(OutOfMemory);
    };
    match work.bytes_at(&path) {
        Some(bytes) => Ok(bytes.len() as u64),
        None => Err(OutOfMemory),
    }
}

// The runs and the edit.
fn run_all<Rt: Threads + Sync>(
    rt: &Rt,
    alloc: Global,
    seed: u64,
    size: u64,
    work: &mut MemWork,
) -> Result<Counts, OutOfMemory>
    requires least { 1 ≤ size }
    requires most { size ≤ 2000 }
    ensures { IfOk result (λ n. IsTried seed size n.first n.second n.third n.total (world_in work.old) (world_in work.new)) }
{
    let words = run_words(alloc)?;
    let first = run_once(rt, alloc, words.as_slice(), work)?;
    let second = run_once(rt, alloc, words.as_slice(), work)?;
    edit(alloc, seed, size, work)?;
    let third = run_once(rt, alloc, words.as_slice(), work)?;
    let total = total_len(alloc, work)?;
    Ok(Counts {
        first,
        second,
        third,
        total,
    })
}

/// Generates a workflow of so many samples, runs it, runs it again, edits one source and runs it again. `OutOfMemory` where a run doesn't end with status 0.
pub fn trial<Rt: Threads + Sync>(
    rt: &Rt,
    alloc: Global,
    seed: u64,
    size: u64,
) -> Result<Trial, OutOfMemory>
    requires seeds { seed ≤ 4294967295 }
    requires least { 1 ≤ size }
    requires most { size ≤ 2000 }
    ensures { IfOk result (λ t. HasTried seed size t.first t.second t.third t.total (world_in t.work)) }
{
    let Made {
        snakefile: _,
        mut work,
    } = generate(alloc, seed, size)?;
    match run_all(rt, alloc, seed, size, &mut work) {
        Ok(counts) => Ok(Trial {
            work,
            first: counts.first,
            second: counts.second,
            third: counts.third,
            total: counts.total,
        }),
        Err(fault) => Err(fault),
    }
}
