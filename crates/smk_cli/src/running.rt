//! A run, under the lock of the working folder.

ghost use Rattle.std.specs.Prelude.{◌≡◌, ℕ, List as Items, Option, Result as Answer, [], is_err, true, false};
ghost use Rattle.smk_world.specs.declared.event.Failed.{Failed as Failure};
ghost use Rattle.smk_world.specs.Calls.{Rose};
ghost use Rattle.smk_world.specs.Devices.{WhereTold, HasActed};
ghost use Rattle.smk_keep_lock.specs.Locking.{HasReleased};
ghost use Rattle.smk_record.specs.Spelling.{ReadsRecords};
ghost use Rattle.smk_record.specs.declared.record.Record.{Record as RecordValue};
ghost use Rattle.smk_cli_calls.specs.Ends.{EndsAs};
ghost use Rattle.smk_cli_calls.specs.Serving.{IsRefusedPlan, IsServed, IsThat, Went};
ghost use Rattle.smk_cli_calls.specs.Locking as spec;
ghost use Rattle.smk_cli_calls.specs.Locking.{HasHeeded, HasRunLocked};

use crate::serving::make_targets;
use smk_cli_entry::Asked;
use smk_keep_lock::Lock;
use smk_report::Fault;
use smk_words_reading::RunWords;
use smk_world::{Crew, Failed, Files, Sink};
use std::alloc::Global;
use std::thread::Threads;

// Whether a count of faults rose, or stands where it can't rise.
fn has_risen(before: u64, now: u64) -> bool
    ensures rose { result ≡ true → Rose before now }
    ensures stayed { result ≡ false → ¬ (Rose before now) }
{
    before < now || now == u64::MAX
}

// The answer of a run once its lock was to be released: where that failed, and there was no fault before, it is the device's.
fn with_release(released: Result<(), Failed>, answer: Result<(), Fault>) -> Result<(), Fault>
    ensures { result ≡ spec.with_release released answer }
{
    match released {
        Ok(()) => answer,
        Err(Failed) => match answer {
            Ok(()) => Err(Fault::Device),
            Err(fault) => Err(fault),
        },
    }
}

// Releases the lock after a run with this answer.
fn release<W: Files>(lock: &Lock, answer: Result<(), Fault>, work: &mut W) -> Result<(), Fault>
    requires none_runs { (W.device work.old).running ≡ [] }
    ensures { (released : Answer (Unit {0}) Failure) × HasActed W.act (HasReleased released) (W.device work.old) (W.device work.new) (is_err released)
        × (result ≡ spec.with_release released answer) }
{
    let released = lock.release(work);
    with_release(released, answer)
}

// Makes the targets under the lock, which is taken, and releases it, unless the device failed.
fn make_locked<W: Crew, O: Sink, Rt: Threads + Sync>(
    rt: &Rt,
    alloc: Global,
    lock: &Lock,
    asked: &Asked,
    words: &RunWords,
    work: &mut W,
    out: &mut O,
) -> Result<(), Fault>
    requires none_runs { (W.device work.old).running ≡ [] }
    ensures ended { EndsAs result (W.device work.old) (W.device work.new) (O.sunk out.old) (O.sunk out.new) }
    ensures went { WhereTold (W.device work.old) (λ w. (read : Items ℕ → Option RecordValue) → ReadsRecords read
        → HasRunLocked W.act words.now result (IsRefusedPlan read asked.now words.now w) (IsThat asked.now) (IsServed read asked.now words.now w)
        (W.device work.old) (W.device work.new) (O.sunk out.old) (O.sunk out.new)) }
{
    let before = work.faults();
    let answer = make_targets(rt, alloc, asked, words, work, out);
    if has_risen(before, work.faults()) {
        return answer;
    }
    release(lock, answer, work)
}

// Takes the lock, and makes the targets under it.
fn make_heeding<W: Crew, O: Sink, Rt: Threads + Sync>(
    rt: &Rt,
    alloc: Global,
    asked: &Asked,
    words: &RunWords,
    work: &mut W,
    out: &mut O,
) -> Result<(), Fault>
    requires none_runs { (W.device work.old).running ≡ [] }
    ensures ended { EndsAs result (W.device work.old) (W.device work.new) (O.sunk out.old) (O.sunk out.new) }
    ensures heeded { WhereTold (W.device work.old) (λ w. (read : Items ℕ → Option RecordValue) → ReadsRecords read
        → HasHeeded W.act words.now result (IsRefusedPlan read asked.now words.now) (IsThat asked.now) (IsServed read asked.now words.now) w
        (W.device work.old) (W.device work.new) (O.sunk out.old) (O.sunk out.new)) }
{
    let Ok(lock) = Lock::new(alloc) else {
        return Err(Fault::OutOfMemory);
    };
    match lock.take(work) {
        Ok(taken) => {
            if !taken {
                return Err(Fault::Locked);
            }
            make_locked(rt, alloc, &lock, asked, words, work, out)
        }
        Err(Failed) => Err(Fault::Device),
    }
}

/// Makes the targets of what is asked under the lock of the working folder, unless the words heed none: takes it, makes the targets by the folder as it stands
/// then, and releases it, unless a call of the device failed meanwhile.
///
/// The fault is that of `make_targets`; or `Locked`, where the lock stood, and nothing is changed; `Device`, where a call on the lock failed and there was no
/// fault before; or `OutOfMemory`. No child runs before.
pub(crate) fn make_asked<W: Crew, O: Sink, Rt: Threads + Sync>(
    rt: &Rt,
    alloc: Global,
    asked: &Asked,
    words: &RunWords,
    work: &mut W,
    out: &mut O,
) -> Result<(), Fault>
    requires none_runs { (W.device work.old).running ≡ [] }
    ensures ended { EndsAs result (W.device work.old) (W.device work.new) (O.sunk out.old) (O.sunk out.new) }
    ensures unheeded { words.now.nolock ≡ true → WhereTold (W.device work.old) (λ w. (read : Items ℕ → Option RecordValue) → ReadsRecords read
        → Went W.act words.now result (IsRefusedPlan read asked.now words.now w) (IsThat asked.now) (IsServed read asked.now words.now w)
        (W.device work.old) (W.device work.new) (O.sunk out.old) (O.sunk out.new)) }
    ensures heeded { words.now.nolock ≡ false → WhereTold (W.device work.old) (λ w. (read : Items ℕ → Option RecordValue) → ReadsRecords read
        → HasHeeded W.act words.now result (IsRefusedPlan read asked.now words.now) (IsThat asked.now) (IsServed read asked.now words.now) w
        (W.device work.old) (W.device work.new) (O.sunk out.old) (O.sunk out.new)) }
{
    if words.nolock {
        make_targets(rt, alloc, asked, words, work, out)
    } else {
        make_heeding(rt, alloc, asked, words, work, out)
    }
}
