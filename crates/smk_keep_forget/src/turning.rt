//! The turn of a path that is forgotten.

ghost use Rattle.std.specs.Prelude.{◌≡◌, [], ◌∷◌, ◌++◌};
ghost use Rattle.smk_world.specs.Devices.{WhereTold, HasActed};
ghost use Rattle.smk_world.specs.Trees.{among};
ghost use Rattle.smk_store.specs.Faults.{store_failed};
ghost use Rattle.smk_store.specs.Images.{is_known};
ghost use Rattle.smk_report.specs.Lines as line;
ghost use Rattle.smk_keep_lock.specs.Putting.{Put, HasPutSome};
ghost use Rattle.smk_keep_forget.specs.Answers.{is_device, is_output, is_stamp};
ghost use Rattle.smk_keep_forget.specs.Seen.{seen};
ghost use Rattle.smk_keep_forget.specs.Turns.{IsStoreBut};
ghost use Rattle.smk_keep_forget.specs.Steps.{HasTurned, TurnsBy, HasStepped, IsLineFor, IsOfPut};

use crate::ForgetFault;
use smk_base::PathText;
use smk_keep_lock::write_out;
use smk_report::forgotten_line;
use smk_store::{Store, StoreFault, forget, load};
use smk_world::{Failed, Files, Sink};
use std::alloc::Global;

// Whether the path is one of these.
fn has(paths: &[PathText], p: &PathText) -> bool
    ensures { result ≡ among paths.now p.now }
{
    let mut found = false;
    for path in paths {
        found |= p.as_str() == path.as_str();
    }
    found
}

// Whether a time that was seen before is told.
fn is_stamp(answer: &Result<bool, StoreFault>) -> bool
    ensures { result ≡ is_stamp answer.now }
{
    match answer {
        Ok(_) => false,
        Err(fault) => matches!(fault, StoreFault::StampSeen(_)),
    }
}

// Loads the store anew, and forgets the path.
fn forget_anew<W: Files>(
    alloc: Global,
    store: &mut Store,
    p: &PathText,
    work: &mut W,
) -> Result<bool, StoreFault>
    requires none_runs { (W.device work.old).running ≡ [] }
    ensures { HasActed W.act (TurnsBy store.old p.now store.new result) (W.device work.old) (W.device work.new) (store_failed result) }
{
    match load(alloc, work) {
        Ok(loaded) => {
            // Contracts see by this that its paths rise.
            let _ = loaded.paths();
            *store = loaded;
            forget(alloc, work, store, p)
        }
        Err(fault) => Err(fault),
    }
}

// Forgets the path, where those of `done` are forgotten. Some of these may have been known when the store was loaded: where what it
// tells may be of them, it is loaded anew.
fn forget_next<W: Files>(
    alloc: Global,
    store: &mut Store,
    done: &[PathText],
    p: &PathText,
    work: &mut W,
) -> Result<bool, StoreFault>
    requires none_runs { (W.device work.old).running ≡ [] }
    ensures { HasActed W.act (λ w es. IsStoreBut done.now w store.old → HasTurned done.now p.now store.new result w es)
        (W.device work.old) (W.device work.new) (store_failed result) }
{
    if has(done, p) {
        return forget_anew(alloc, store, p, work);
    }
    let answer = forget(alloc, work, store, p);
    if is_stamp(&answer) {
        return forget_anew(alloc, store, p, work);
    }
    answer
}

// Puts the line of the path.
fn put_forgotten<O: Sink>(
    alloc: Global,
    was_known: bool,
    p: &PathText,
    out: &mut O,
) -> Result<(), ForgetFault>
    ensures told { Put (O.sunk out.old) (O.sunk out.new) (IsLineFor result (line.forgotten_line was_known p.now)) }
    ensures put { HasPutSome (is_output result) (O.sunk out.old) (O.sunk out.new) }
    ensures only { IsOfPut result }
{
    let Ok(line) = forgotten_line(alloc, was_known, p) else {
        return Err(ForgetFault::OutOfMemory);
    };
    match write_out(out, line.as_str()) {
        Ok(()) => Ok(()),
        Err(Failed) => Err(ForgetFault::Output),
    }
}

// Forgets the path, and puts its line.
pub(crate) fn forget_turn<W: Files, O: Sink>(
    alloc: Global,
    store: &mut Store,
    done: &[PathText],
    p: &PathText,
    work: &mut W,
    out: &mut O,
) -> Result<(), ForgetFault>
    requires none_runs { (W.device work.old).running ≡ [] }
    ensures acted { HasActed W.act (λ w es. IsStoreBut done.now w store.old → HasStepped done.now p.now store.new result w es)
        (W.device work.old) (W.device work.new) (is_device result) }
    ensures told { WhereTold (W.device work.old) (λ w. IsStoreBut done.now w store.old
        → Put (O.sunk out.old) (O.sunk out.new) (IsLineFor result (line.forgotten_line (is_known (seen w) p.now) p.now))) }
    ensures put { HasPutSome (is_output result) (O.sunk out.old) (O.sunk out.new) }
{
    match forget_next(alloc, store, done, p, work) {
        Ok(was_known) => put_forgotten(alloc, was_known, p, out),
        Err(fault) => Err(ForgetFault::from(fault)),
    }
}
