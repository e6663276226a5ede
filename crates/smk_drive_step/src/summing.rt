//! The digests of the sources among a job's inputs.

ghost use Rattle.std.specs.Prelude.{◌≡◌, ◌≤◌, ◌++◌, IfOk, OnOk, length, map, true};
ghost use Rattle.std.specs.List.{list_all};
ghost use Rattle.smk_base.specs.declared.tree.Pair.{Pair};
ghost use Rattle.smk_world.specs.Calls.{device_failed};
ghost use Rattle.smk_world.specs.Devices.{HasLooked, WhereTold};
ghost use Rattle.smk_world.specs.World.{in_paths};
ghost use Rattle.smk_record.specs.Records.{are_rising, is_earlier};
ghost use Rattle.smk_run.specs.Runs.{AreWritable};
ghost use Rattle.smk_run.specs.Stamps.{is_small};
ghost use Rattle.smk_digest.specs.Digests.{AreSums};
ghost use Rattle.smk_drive_step.specs.Stamping.{AreDigested, due_among, due_at, is_bare, sum_for, summed, sums_after, unsummed};

use smk_base::{Copied, List, OutOfMemory, PathText, Sum};
use smk_digest::{SumFault, sums};
use smk_flow::Job;
use smk_record::Stamp;
use smk_run::{input_paths, see_digest, see_recipe, see_sums, with_sum};
use smk_world::{Files, WorkFault};
use std::alloc::Global;
use std::thread::Threads;

// Whether it is the stamp of a source of which no digest is known.
fn is_bare(stamp: Stamp) -> bool
    ensures { result ≡ is_bare stamp }
{
    match stamp {
        Stamp::Time(_) => true,
        Stamp::Sum(_, _) => false,
        Stamp::Made(_) => false,
    }
}

// Adds the path, where a digest is to be taken.
fn push_due(
    alloc: Global,
    found: &mut List<PathText>,
    path: &PathText,
    known: Stamp,
) -> Result<(), OutOfMemory>
    ensures { OnOk result (found.new ≡ found.old ++ due_at path.now known) }
{
    if !is_bare(known) {
        return Ok(());
    }
    found.push(path.copy(alloc)?)?;
    Ok(())
}

// The paths of which digests are to be taken, in order.
fn due_among(
    alloc: Global,
    paths: &[PathText],
    known: &[Stamp],
) -> Result<List<PathText>, OutOfMemory>
    requires each { length known.now ≡ length paths.now }
    ensures { IfOk result (λ found. found ≡ due_among paths.now known.now) }
{
    let mut found = List::new(alloc);
    for (number, path) in paths.iter().enumerate() {
        push_due(alloc, &mut found, path, known[number])?;
    }
    Ok(found)
}

// The same fault.
fn fault_of(fault: SumFault) -> WorkFault
    ensures { result ≡ unsummed fault }
{
    match fault {
        SumFault::Device => WorkFault::Failed,
        SumFault::OutOfMemory => WorkFault::OutOfMemory,
    }
}

// The digests of the files at the paths.
fn sums_at<W: Files, Rt: Threads + Sync>(
    rt: &Rt,
    alloc: Global,
    work: &mut W,
    paths: &List<PathText>,
) -> Result<List<Option<Sum>>, WorkFault>
    ensures looked { HasLooked W.act (W.device work.old) (W.device work.new) (device_failed result) }
    ensures told { IfOk result (λ found. WhereTold (W.device work.old) (λ w. AreSums w paths.now found)) }
{
    match sums(rt, alloc, work, paths) {
        Ok(found) => Ok(found),
        Err(fault) => Err(fault_of(fault)),
    }
}

// The first digest, where one was to be taken.
fn sum_for(is_due: bool, sums: &[Option<Sum>]) -> Option<Sum>
    ensures { result ≡ sum_for is_due sums.now }
{
    if !is_due {
        return None;
    }
    match sums.split_first() {
        Some((sum, _)) => *sum,
        None => None,
    }
}

// The digests after it.
fn sums_after(is_due: bool, sums: &[Option<Sum>]) -> &[Option<Sum>]
    ensures { result.now ≡ sums_after is_due sums.now }
{
    if !is_due {
        return sums;
    }
    match sums.split_first() {
        Some((_, later)) => later,
        None => sums,
    }
}

// The stamps with the digests, of which there is one for each that was to be taken, in order.
fn summed(alloc: Global, known: &[Stamp], sums: &[Option<Sum>]) -> Result<List<Stamp>, OutOfMemory>
    ensures { IfOk result (λ stamps. stamps ≡ summed known.now sums.now) }
{
    let mut stamps = List::new(alloc);
    let mut left = sums;
    for stamp in known {
        let is_due = is_bare(*stamp);
        stamps.push(with_sum(sum_for(is_due, left), *stamp))?;
        left = sums_after(is_due, left);
    }
    Ok(stamps)
}

// Goes over the stamp, which tells that its number has at most 64 bits, and its digest 32 bytes.
fn see_stamp(stamp: Stamp)
    ensures { is_small stamp ≡ true }
{
    match stamp {
        Stamp::Time(_) => {}
        Stamp::Sum(_, sum) => see_digest(&sum),
        Stamp::Made(_) => {}
    }
}

// Goes over the stamps.
fn see_stamps(stamps: &[Stamp])
    ensures { list_all is_small stamps.now ≡ true }
{
    for stamp in stamps {
        see_stamp(*stamp);
    }
}

/// The stamps of the job's inputs, in order, where these are known of them, which records with the serial `made` may have: each source of which no
/// digest is known is read for its digest. The records of the job's outputs with these stamps, that serial and no members are valid, and can be
/// written. Nothing is changed.
///
/// `WorkFault::Failed`: a call of the device failed, and none came after it. `WorkFault::OutOfMemory`: there is no memory for what is read.
pub fn digested<W: Files, Rt: Threads + Sync>(
    rt: &Rt,
    alloc: Global,
    job: &Job,
    known: &[Stamp],
    made: u64,
    work: &mut W,
) -> Result<List<Stamp>, WorkFault>
    requires each { length known.now ≡ length (in_paths job.now.recipe) }
    requires earlier { list_all (is_earlier made) known.now ≡ true }
    requires positive { 1 ≤ made }
    requires wildcards { are_rising (map (λ (w : Pair). w.name) job.now.recipe.wildcards) ≡ true }
    ensures looked { HasLooked W.act (W.device work.old) (W.device work.new) (device_failed result) }
    ensures told { IfOk result (λ stamps. WhereTold (W.device work.old) (λ w. AreDigested w (in_paths job.now.recipe) known.now stamps)) }
    ensures each { IfOk result (λ stamps. length stamps ≡ length (in_paths job.now.recipe)) }
    ensures writable { IfOk result (AreWritable made job.now.recipe) }
{
    see_recipe(&job.recipe);
    see_stamps(known);
    let paths = input_paths(alloc, job.recipe.inputs.as_slice())?;
    let due = due_among(alloc, paths.as_slice(), known)?;
    let found = sums_at(rt, alloc, work, &due)?;
    see_sums(found.as_slice());
    Ok(summed(alloc, known, found.as_slice())?)
}
