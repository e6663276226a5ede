//! Removing the lock of the working folder, for `--unlock`.

ghost use Rattle.std.specs.Prelude.{◌≡◌, ◌⊎◌, [], Ok, Err};
ghost use Rattle.smk_world.specs.Devices.{HasActed};
ghost use Rattle.smk_report.specs.Lines.{unlocked_line};
ghost use Rattle.smk_keep_lock.specs.Putting.{Put, IsWholeFor, HasPutSome};
ghost use Rattle.smk_keep_lock.specs.Unlocking.{HasRemoved, is_device, is_output, unlock_status};

use crate::{Lock, UnlockFault, write_out};
use smk_report::unlocked_line;
use smk_world::{Failed, Files, Sink};
use std::alloc::Global;

// Puts the line.
fn put_line<O: Sink>(out: &mut O, line: &str) -> Result<(), UnlockFault>
    ensures told { Put (O.sunk out.old) (O.sunk out.new) (IsWholeFor (unlock_status result) line.now) }
    ensures put { HasPutSome (is_output result) (O.sunk out.old) (O.sunk out.new) }
    ensures only { (result ≡ Ok tt) ⊎ (result ≡ Err UnlockFault.Output) }
{
    match write_out(out, line) {
        Ok(()) => Ok(()),
        Err(Failed) => Err(UnlockFault::Output),
    }
}

/// Removes the lock for good, whoever took it, and puts the line `unlocked`. Nothing else is changed. No child may run.
///
/// `Device`: a call failed, and none came after it; nothing was put, and the lock may stand. `Output`: the lock is removed, and a
/// front of the line was put. `OutOfMemory`: nothing was changed or put.
pub fn unlock_folder<W: Files, O: Sink>(
    alloc: Global,
    work: &mut W,
    out: &mut O,
) -> Result<(), UnlockFault>
    requires none_runs { (W.device work.old).running ≡ [] }

    // what was done: the lock alone is gone
    ensures acted { HasActed W.act (HasRemoved result) (W.device work.old) (W.device work.new) (is_device result) }

    // what was put: the line, or a front of it
    ensures told { Put (O.sunk out.old) (O.sunk out.new) (IsWholeFor (unlock_status result) unlocked_line) }
    ensures put { HasPutSome (is_output result) (O.sunk out.old) (O.sunk out.new) }
{
    let Ok(lock) = Lock::new(alloc) else {
        return Err(UnlockFault::OutOfMemory);
    };
    let Ok(line) = unlocked_line(alloc) else {
        return Err(UnlockFault::OutOfMemory);
    };
    match lock.release(work) {
        Ok(()) => put_line(out, line.as_str()),
        Err(Failed) => Err(UnlockFault::Device),
    }
}
