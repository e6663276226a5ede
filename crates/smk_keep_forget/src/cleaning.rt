//! Forgetting paths under the lock.

ghost use Rattle.std.specs.Prelude.{◌≡◌, [], true, false};
ghost use Rattle.smk_world.specs.Devices.{WhereTold, HasActed};
ghost use Rattle.smk_keep_lock.specs.Putting.{Put, IsWholeFor, HasPutSome};
ghost use Rattle.smk_keep_forget.specs.Answers.{forget_status, is_device, is_output};
ghost use Rattle.smk_keep_forget.specs.Cleaning.{HasCleaned, HasPutLines};
ghost use Rattle.smk_keep_forget.specs.Seen.{seen, forgotten_lines};
ghost use Rattle.smk_keep_forget.specs.Steps.{HasEnded};
ghost use Rattle.smk_keep_forget.specs.Turns.{IsStoreBut, HasGone};

use crate::ForgetFault;
use crate::turning::forget_turn;
use smk_base::{List, PathText};
use smk_keep_lock::Lock;
use smk_store::{Store, load};
use smk_world::{Failed, Files, Sink};
use std::alloc::Global;

// Forgets the paths by a store that was loaded before, and puts their lines.
fn forget_each<W: Files, O: Sink>(
    alloc: Global,
    store: &mut Store,
    paths: &[PathText],
    work: &mut W,
    out: &mut O,
) -> Result<(), ForgetFault>
    requires none_runs { (W.device work.old).running ≡ [] }
    ensures acted { HasActed W.act (λ w es. IsStoreBut [] w store.old → HasGone paths.now result w es) (W.device work.old) (W.device work.new) (is_device result) }
    ensures told { WhereTold (W.device work.old) (λ w. IsStoreBut [] w store.old
        → Put (O.sunk out.old) (O.sunk out.new) (IsWholeFor (forget_status result) (forgotten_lines (seen w) [] paths.now))) }
    ensures put { HasPutSome (is_output result) (O.sunk out.old) (O.sunk out.new) }
{
    for (i, p) in paths.iter().enumerate() {
        forget_turn(alloc, store, &paths[..i], p, work, out)?;
    }
    Ok(())
}

// Loads the store, forgets the paths, and puts their lines.
fn forget_all<W: Files, O: Sink>(
    alloc: Global,
    paths: &[PathText],
    work: &mut W,
    out: &mut O,
) -> Result<(), ForgetFault>
    requires none_runs { (W.device work.old).running ≡ [] }
    ensures acted { HasActed W.act (HasGone paths.now result) (W.device work.old) (W.device work.new) (is_device result) }
    ensures told { WhereTold (W.device work.old) (λ w.
        Put (O.sunk out.old) (O.sunk out.new) (IsWholeFor (forget_status result) (forgotten_lines (seen w) [] paths.now))) }
    ensures put { HasPutSome (is_output result) (O.sunk out.old) (O.sunk out.new) }
{
    match load(alloc, work) {
        Ok(store) => {
            let mut store = store;
            forget_each(alloc, &mut store, paths, work, out)
        }
        Err(fault) => Err(ForgetFault::from(fault)),
    }
}

// Whether a call of the device failed.
fn is_device(answer: &Result<(), ForgetFault>) -> bool
    ensures { result ≡ is_device answer.now }
{
    match answer {
        Ok(_) => false,
        Err(fault) => matches!(fault, ForgetFault::Device),
    }
}

// Forgets the paths under the lock, which is taken, and releases it, unless a call failed.
fn forget_locked<W: Files, O: Sink>(
    alloc: Global,
    lock: &Lock,
    paths: &[PathText],
    work: &mut W,
    out: &mut O,
) -> Result<(), ForgetFault>
    requires none_runs { (W.device work.old).running ≡ [] }
    ensures acted { HasActed W.act (HasEnded paths.now result) (W.device work.old) (W.device work.new) (is_device result) }
    ensures told { WhereTold (W.device work.old) (λ w.
        Put (O.sunk out.old) (O.sunk out.new) (IsWholeFor (forget_status result) (forgotten_lines (seen w) [] paths.now))) }
    ensures put { HasPutLines (is_output result) (is_device result) (O.sunk out.old) (O.sunk out.new) }
{
    let answer = forget_all(alloc, paths, work, out);
    if is_device(&answer) {
        return answer;
    }
    match lock.release(work) {
        Ok(()) => answer,
        Err(Failed) => Err(ForgetFault::Device),
    }
}

/// Forgets the paths, one after another: the record, the note and the mark of each are removed for good, and its line is put, which
/// tells whether something was known of it. Before its turn a path is looked at, and all under it. The lock is taken first and released
/// at the end, unless `nolock` says that none is heeded. No child may run.
///
/// `Locked`: the lock stood; nothing was changed or put. `StampSeen`: a file at or under one of the paths has a time that a readable
/// record holds as the stamp of that source, where the records of the paths before don't count; with the first such file of the first such
/// path. The paths before it are forgotten. `Device`: a call failed, and none came after it; the lock may stand. `Output`: a
/// line couldn't be put whole; its path is forgotten, and so are those before it. `OutOfMemory`: a front of the paths is forgotten, and
/// a front of these was told.
///
/// The store is loaded once, and anew where it may tell of paths that are forgotten by now: where a path comes again, and before one is
/// refused.
pub fn forget_paths<W: Files, O: Sink>(
    alloc: Global,
    paths: &List<PathText>,
    nolock: bool,
    work: &mut W,
    out: &mut O,
) -> Result<(), ForgetFault>
    requires none_runs { (W.device work.old).running ≡ [] }

    // what was done of the lock, and of each path in its turn
    ensures acted { HasActed W.act (HasCleaned paths.now nolock result) (W.device work.old) (W.device work.new) (is_device result) }

    // what was put: the line of each path, or a front of them
    ensures told { WhereTold (W.device work.old) (λ entry.
        Put (O.sunk out.old) (O.sunk out.new) (IsWholeFor (forget_status result) (forgotten_lines (seen entry) [] paths.now))) }
    ensures put { HasPutLines (is_output result) (is_device result) (O.sunk out.old) (O.sunk out.new) }

    // where a lock stands that is heeded, nothing is put
    ensures nothing { nolock ≡ false → WhereTold (W.device work.old) (λ entry. (seen entry).locked ≡ true → Put (O.sunk out.old) (O.sunk out.new) (λ text. text ≡ [])) }
{
    let all = paths.as_slice();
    if nolock {
        return forget_all(alloc, all, work, out);
    }
    let Ok(lock) = Lock::new(alloc) else {
        return Err(ForgetFault::OutOfMemory);
    };
    match lock.take(work) {
        Ok(taken) => {
            if !taken {
                return Err(ForgetFault::Locked);
            }
            forget_locked(alloc, &lock, all, work, out)
        }
        Err(Failed) => Err(ForgetFault::Device),
    }
}
