//! A workspace that is filled with the files.

ghost use Rattle.std.specs.Prelude.{◌≡◌, ◌≤◌, Some, OnOk};
ghost use Rattle.smk_world.specs.World.{World};
ghost use Rattle.smk_world_nodes.specs.Steps.{empty_world};
ghost use Rattle.smk_world_nodes.specs.declared.step.Step.TheVariants.{Put};
ghost use Rattle.smk_world_mem.specs.Work.{world_in, faults_in, setup_in, IsStepFrom};
ghost use Rattle.smk_gen.specs.Files as spec;
ghost use Rattle.smk_gen.specs.Made.{IsAfterPuts, IsGenerated, files_put};

use crate::texts::{path_of, source_path, source_text};
use smk_base::{Bytes, OutOfMemory};
use smk_world_mem::MemWork;
use std::alloc::Global;

// Puts the source of this number there.
fn place_source(
    alloc: Global,
    seed: u64,
    number: u64,
    work: &mut MemWork,
) -> Result<(), OutOfMemory>
    requires seeds { seed ≤ 4294967295 }
    requires numbers { number ≤ 2000 }
    ensures put { OnOk result ((w : World) → world_in work.new ≡ Some w → IsStepFrom (world_in work.old) (Put (spec.source_path number) (spec.source_node seed number)) w) }
    ensures faults { faults_in work.new ≡ faults_in work.old }
    ensures setup { setup_in work.new ≡ setup_in work.old }
{
    let path = source_path(alloc, number)?;
    let text = source_text(alloc, seed, number)?;
    work.place(&path, text.as_bytes(), number)
}

// Puts all sources there.
fn place_sources(alloc: Global, seed: u64, size: u64, work: &mut MemWork) -> Result<(), OutOfMemory>
    requires seeds { seed ≤ 4294967295 }
    requires sizes { size ≤ 2000 }
    requires empty { world_in work.old ≡ Some empty_world }
    ensures put { OnOk result ((w : World) → world_in work.new ≡ Some w → IsAfterPuts (spec.source_files seed size) w) }
    ensures faults { faults_in work.new ≡ faults_in work.old }
    ensures setup { setup_in work.new ≡ setup_in work.old }
{
    for before in 0..size {
        place_source(alloc, seed, before + 1, work)?;
    }
    Ok(())
}

// Puts the workflow's file there.
fn place_snakefile(
    alloc: Global,
    size: u64,
    snakefile: &Bytes,
    work: &mut MemWork,
) -> Result<(), OutOfMemory>
    requires sizes { size ≤ 2000 }
    requires text { snakefile.now ≡ spec.snakefile_text size }
    ensures put { OnOk result ((w : World) → world_in work.new ≡ Some w → IsStepFrom (world_in work.old) (Put spec.snakefile_path (spec.snakefile_node size)) w) }
    ensures faults { faults_in work.new ≡ faults_in work.old }
    ensures setup { setup_in work.new ≡ setup_in work.old }
{
    let path = path_of(alloc, "Snakefile")?;
    work.place(&path, snakefile.as_slice(), size + 1)
}

// Puts all files there.
fn place_all(
    alloc: Global,
    seed: u64,
    size: u64,
    snakefile: &Bytes,
    work: &mut MemWork,
) -> Result<(), OutOfMemory>
    requires seeds { seed ≤ 4294967295 }
    requires sizes { size ≤ 2000 }
    requires text { snakefile.now ≡ spec.snakefile_text size }
    requires empty { world_in work.old ≡ Some empty_world }
    ensures put { OnOk result ((w : World) → world_in work.new ≡ Some w → IsAfterPuts (files_put seed size) w) }
    ensures faults { faults_in work.new ≡ faults_in work.old }
    ensures setup { setup_in work.new ≡ setup_in work.old }
{
    place_sources(alloc, seed, size, work)?;
    place_snakefile(alloc, size, snakefile, work)
}

/// Fills an empty workspace with the workflow's file and the sources. `OutOfMemory` where there is no memory for them.
pub fn fill(
    alloc: Global,
    seed: u64,
    size: u64,
    snakefile: &Bytes,
    work: &mut MemWork,
) -> Result<(), OutOfMemory>
    requires seeds { seed ≤ 4294967295 }
    requires least { 1 ≤ size }
    requires most { size ≤ 2000 }
    requires text { snakefile.now ≡ spec.snakefile_text size }
    requires empty { world_in work.old ≡ Some empty_world }
    ensures files { OnOk result (IsGenerated seed size (world_in work.new)) }
    ensures faults { faults_in work.new ≡ faults_in work.old }
    ensures setup { setup_in work.new ≡ setup_in work.old }
{
    place_all(alloc, seed, size, snakefile, work)?;
    if work.is_at_rest() {
        Ok(())
    } else {
        Err(OutOfMemory)
    }
}
