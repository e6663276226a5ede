//! One run.

ghost use Rattle.std.specs.Prelude.{◌≡◌, [], map, string_bytes, IfOk, true, Some};
ghost use Rattle.smk_world.specs.World.{World};
ghost use Rattle.smk_world_mem.specs.Work.{world_in, running_in};
ghost use Rattle.smk_trial.specs.Running.{run_words as words_of_run, Ran, IsRunOnce};

use smk_base::{List, OutOfMemory};
use smk_cli::smk;
use smk_world_mem::{MemSink, MemWork};
use std::alloc::Global;
use std::thread::Threads;

/// The words of each run: the default target, on eight cores.
pub fn run_words(alloc: Global) -> Result<Vec<String>, OutOfMemory>
    ensures { IfOk result (λ words. map string_bytes words.items ≡ words_of_run) }
{
    let cores = String::from_str(alloc, "--cores")?;
    let eight = String::from_str(alloc, "8")?;
    Ok(vec![in alloc; cores, eight]?)
}

// Makes the run, and answers whether it ended without a fault.
fn ends_well<Rt: Threads + Sync>(
    rt: &Rt,
    alloc: Global,
    words: &[String],
    work: &mut MemWork,
) -> bool
    requires words { map string_bytes words.now ≡ words_of_run }
    requires rests { running_in work.old ≡ [] }
    ensures { result ≡ true → (w v : World) → world_in work.old ≡ Some w → world_in work.new ≡ Some v → Ran w v }
{
    let mut out = MemSink::new(alloc, List::new(alloc));
    let mut err = MemSink::new(alloc, List::new(alloc));
    let outcome = smk(rt, alloc, words, work, &mut out, &mut err);
    outcome.fault.is_none()
}

/// Makes a run in a workspace that is at rest: how many jobs it started. `OutOfMemory` where the run doesn't end with status 0.
pub fn run_once<Rt: Threads + Sync>(
    rt: &Rt,
    alloc: Global,
    words: &[String],
    work: &mut MemWork,
) -> Result<u64, OutOfMemory>
    requires words { map string_bytes words.now ≡ words_of_run }
    ensures { IfOk result (λ started. IsRunOnce (world_in work.old) (world_in work.new) started) }
{
    if !work.is_at_rest() {
        return Err(OutOfMemory);
    }
    let before = work.starts();
    if !ends_well(rt, alloc, words, work) || !work.is_at_rest() {
        return Err(OutOfMemory);
    }
    match work.starts().checked_sub(before) {
        Some(started) => Ok(started),
        None => Err(OutOfMemory),
    }
}
