//! The commands on the lock, and on what is kept of paths.

ghost use Rattle.std.specs.Prelude.{◌≡◌, []};
ghost use Rattle.smk_world.specs.Devices.{WhereTold};
ghost use Rattle.smk_keep_lock.specs.Unlocking.{of_unlock};
ghost use Rattle.smk_keep_forget.specs.Answers.{of_forget};
ghost use Rattle.smk_plan_preview.specs.Faults.{as_call};
ghost use Rattle.smk_cli_calls.specs.Ends.{EndsWith, fault_of};
ghost use Rattle.smk_cli_calls.specs.Keys.{DidUnlock, DidForget};

use smk_base::{List, PathText};
use smk_keep_forget::{ForgetFault, forget_paths};
use smk_keep_lock::{UnlockFault, unlock_folder};
use smk_report::Fault;
use smk_world::{Files, Sink};
use std::alloc::Global;

// The same, as an answer of the call.
fn of_unlocked(answer: Result<(), UnlockFault>) -> Result<(), Fault>
    ensures { result ≡ as_call of_unlock answer }
{
    match answer {
        Ok(()) => Ok(()),
        Err(fault) => Err(Fault::from(fault)),
    }
}

// The same, as an answer of the call.
fn of_forgotten(answer: Result<(), ForgetFault>) -> Result<(), Fault>
    ensures { result ≡ as_call of_forget answer }
{
    match answer {
        Ok(()) => Ok(()),
        Err(fault) => Err(Fault::from(fault)),
    }
}

/// Removes the lock, whoever took it, and tells that.
pub(crate) fn serve_unlock<W: Files, O: Sink>(
    alloc: Global,
    work: &mut W,
    out: &mut O,
) -> Result<(), Fault>
    requires none_runs { (W.device work.old).running ≡ [] }
    ensures ended { EndsWith (fault_of result) (W.device work.old) (W.device work.new) (O.sunk out.old) (O.sunk out.new) }
    ensures unlocked { DidUnlock W.act result (W.device work.old) (W.device work.new) (O.sunk out.old) (O.sunk out.new) }
{
    let answer = unlock_folder(alloc, work, out);
    of_unlocked(answer)
}

/// Removes what is kept of the paths, and tells that of each.
pub(crate) fn serve_forget<W: Files, O: Sink>(
    alloc: Global,
    paths: &List<PathText>,
    nolock: bool,
    work: &mut W,
    out: &mut O,
) -> Result<(), Fault>
    requires none_runs { (W.device work.old).running ≡ [] }
    ensures ended { EndsWith (fault_of result) (W.device work.old) (W.device work.new) (O.sunk out.old) (O.sunk out.new) }
    ensures forgotten { WhereTold (W.device work.old) (λ w.
        DidForget W.act result (W.device work.old) (W.device work.new) (O.sunk out.old) (O.sunk out.new) w paths.now nolock) }
{
    let answer = forget_paths(alloc, paths, nolock, work, out);
    of_forgotten(answer)
}
