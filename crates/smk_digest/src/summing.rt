//! Digests of files.

ghost use Rattle.std.specs.Prelude.{◌≡◌, ◌++◌, ◌<◌, List as Items, Option, length, IfOk, OnOk};
ghost use Rattle.smk_base.specs.declared.sum.Sum.{Sum as Digest};
ghost use Rattle.smk_world.specs.Calls.{device_failed};
ghost use Rattle.smk_world.specs.Devices.{HasLooked, WhereTold};
ghost use Rattle.smk_digest.specs.Digests.{AreSums, sum_fault, sum_failed};

use crate::SumFault;
use crate::digesting::digest_each;
use crate::reading::contents_at;
use smk_base::{List, OutOfMemory, PathText, Sum};
use smk_world::{Files, WorkFault};
use std::alloc::Global;
use std::thread::Threads;

// So many files are read before they are digested together.
const TOGETHER: usize = 64;

// Adds them at the end.
fn append(found: &mut List<Option<Sum>>, more: &[Option<Sum>]) -> Result<(), OutOfMemory>
    ensures { OnOk result (found.new ≡ found.old ++ more.now) }
{
    for sum in more {
        found.push(*sum)?;
    }
    Ok(())
}

// Adds the digests of the files at these paths.
fn push_sums<W: Files, Rt: Threads + Sync>(
    rt: &Rt,
    alloc: Global,
    work: &mut W,
    found: &mut List<Option<Sum>>,
    paths: &[PathText],
) -> Result<(), WorkFault>
    ensures looked { HasLooked W.act (W.device work.old) (W.device work.new) (device_failed result) }
    ensures told { IfOk result (λ _. WhereTold (W.device work.old) (λ w. (sums : Items (Option Digest)) × (found.new ≡ found.old ++ sums) × AreSums w paths.now sums)) }
{
    let contents = contents_at(alloc, work, paths)?;
    let sums = digest_each(rt, alloc, &contents)?;
    append(found, sums.as_slice())?;
    Ok(())
}

// The digests of the files at the paths, so many at a time.
fn sums_at<W: Files, Rt: Threads + Sync>(
    rt: &Rt,
    alloc: Global,
    work: &mut W,
    paths: &[PathText],
) -> Result<List<Option<Sum>>, WorkFault>
    ensures looked { HasLooked W.act (W.device work.old) (W.device work.new) (device_failed result) }
    ensures told { IfOk result (λ sums. WhereTold (W.device work.old) (λ w. AreSums w paths.now sums)) }
{
    let mut found = List::new(alloc);
    let mut rest = paths;
    'all: while !rest.is_empty() {
        let (now, later) = rest.split_at(rest.len().min(TOGETHER));
        push_sums(rt, alloc, work, &mut found, now)?;
        rest = later;
    }
    Ok(found)
}

// The same fault.
fn fault_of(fault: WorkFault) -> SumFault
    ensures { result ≡ sum_fault fault }
{
    match fault {
        WorkFault::Failed => SumFault::Device,
        WorkFault::OutOfMemory => SumFault::OutOfMemory,
    }
}

/// The SHA-256 of the file at each path, in order. None exactly where no file is there or it has more than 1,048,576 bytes. At most 64 files
/// are held at a time, and a larger one isn't read.
///
/// `Device`: a call of the device failed. `OutOfMemory`: there is no memory for what is read.
pub fn sums<W: Files, Rt: Threads + Sync>(
    rt: &Rt,
    alloc: Global,
    work: &mut W,
    paths: &List<PathText>,
) -> Result<List<Option<Sum>>, SumFault>
    ensures looked { HasLooked W.act (W.device work.old) (W.device work.new) (sum_failed result) }

    // One for each path, which is so where no running child owns it.
    ensures told { IfOk result (λ sums. WhereTold (W.device work.old) (λ w. AreSums w paths.now sums)) }
{
    match sums_at(rt, alloc, work, paths.as_slice()) {
        Ok(sums) => Ok(sums),
        Err(fault) => Err(fault_of(fault)),
    }
}
