//! The workflow and its workspace.

ghost use Rattle.std.specs.Prelude.{◌≡◌, ◌≤◌, IfOk, Some};
ghost use Rattle.smk_world_nodes.specs.Steps.{empty_world};
ghost use Rattle.smk_world_mem.specs.Work.{world_in, faults_in, setup_in};
ghost use Rattle.smk_gen.specs.Files as spec;
ghost use Rattle.smk_gen.specs.Made.{IsGenerated, nothing_fails};

use crate::filling::fill;
use crate::texts;
use smk_base::{Bytes, List, OutOfMemory};
use smk_world_mem::{MemWork, Setup};
use std::alloc::Global;

/// A workflow with its sources.
#[derive(Drop)]
pub struct Made {
    /// The text of the workflow's file.
    pub snakefile: Bytes,
    /// A workspace in which that file and the sources stand, and nothing else. None of its calls fails.
    pub work: MemWork,
}

// A workspace with nothing in it, of which no call fails.
fn empty(alloc: Global) -> MemWork
    ensures world { world_in result ≡ Some empty_world }
    ensures faults { faults_in result ≡ 0 }
    ensures setup { setup_in result ≡ nothing_fails }
{
    MemWork::new(
        alloc,
        Setup {
            failing: List::new(alloc),
            stop_after: None,
            order: List::new(alloc),
            killed: List::new(alloc),
        },
    )
}

/// The workflow of so many samples with its sources, whose texts the seed gives, in a workspace of its own. `OutOfMemory` where there is no memory for them.
pub fn generate(alloc: Global, seed: u64, size: u64) -> Result<Made, OutOfMemory>
    requires seeds { seed ≤ 4294967295 }
    requires least { 1 ≤ size }
    requires most { size ≤ 2000 }
    ensures snakefile { IfOk result (λ made. made.snakefile ≡ spec.snakefile_text size) }
    ensures files { IfOk result (λ made. IsGenerated seed size (world_in made.work)) }
    ensures setup { IfOk result (λ made. setup_in made.work ≡ nothing_fails) }
    ensures faults { IfOk result (λ made. faults_in made.work ≡ 0) }
{
    let snakefile = texts::snakefile(alloc, size)?;
    let mut work = empty(alloc);
    match fill(alloc, seed, size, &snakefile, &mut work) {
        Ok(()) => Ok(Made { snakefile, work }),
        Err(fault) => Err(fault),
    }
}
