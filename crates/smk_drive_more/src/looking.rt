//! What stands at the outputs and sources of the jobs that were derived.

ghost use Rattle.std.specs.Prelude.{◌≡◌, ℕ, List as Items, Option, IfOk, IfErr, false, true};
ghost use Rattle.smk_world.specs.Devices.{HasLooked, WhereTold};
ghost use Rattle.smk_world.specs.Trees.{Path, among};
ghost use Rattle.smk_record.specs.declared.record.Record.{Record as RecordValue};
ghost use Rattle.smk_store.specs.Images.{is_source, seen};
ghost use Rattle.smk_store.specs.Loading.{IsStoreOf};
ghost use Rattle.smk_chain_sight.specs.Disk.{IsOwnedCovered};
ghost use Rattle.smk_plan_facts.specs.Facts.{told_sources};
ghost use Rattle.smk_plan_preview.specs.Faults.{device_failed, is_sink};
ghost use Rattle.smk_plan_preview.specs.Rounds.{AreReady};
ghost use Rattle.smk_drive_more.specs.Found.{HasFound};

use crate::parts::looked;
use crate::sources::check_sources;
use smk_chain::Jobs;
use smk_flow::Workflow;
use smk_pick::Settings;
use smk_plan::Seen;
use smk_report::Fault;
use smk_store::Store;
use smk_world::Files;
use std::alloc::Global;
use std::thread::Threads;

/// What a plan grows by: the jobs that were derived anew, the store that was loaded anew, and what stands at their outputs and at sources.
#[derive(Drop)]
pub struct More {
    pub jobs: Jobs,
    pub store: Store,
    pub seen: Seen,
}

// The jobs with the store and what stands, where they are those that are derived, and what none of them makes are sources.
fn look_at<W: Files, Rt: Threads + Sync>(
    rt: &Rt,
    alloc: Global,
    flow: &Workflow,
    settings: &Settings,
    jobs: Jobs,
    store: Store,
    work: &mut W,
) -> Result<More, Fault>
    ensures looked { HasLooked W.act (W.device work.old) (W.device work.new) (device_failed result) }
    ensures no_sink { IfErr result (λ f. is_sink f ≡ false) }
    ensures lists { IfOk result (λ m. m.jobs.lists ≡ jobs.lists) }
    ensures told { WhereTold (W.device work.old) (λ w. (read : Items ℕ → Option RecordValue) → IsStoreOf (seen read w) store
        → AreReady flow.now settings.now.targets jobs.lists (seen read w) jobs
        → ((p : Path) → among (told_sources jobs.makers) p ≡ true → is_source (seen read w) p ≡ true)
        → HasFound read flow.now settings.now w jobs.lists result) }
{
    match looked(rt, alloc, work, &jobs, &store) {
        Ok(seen) => Ok(More { jobs, store, seen }),
        Err(fault) => Err(fault),
    }
}

/// The jobs with the store and what stands, where they are those that are derived.
pub(crate) fn look_around<W: Files, Rt: Threads + Sync>(
    rt: &Rt,
    alloc: Global,
    flow: &Workflow,
    settings: &Settings,
    jobs: Jobs,
    store: Store,
    work: &mut W,
) -> Result<More, Fault>
    ensures looked { HasLooked W.act (W.device work.old) (W.device work.new) (device_failed result) }
    ensures no_sink { IfErr result (λ f. is_sink f ≡ false) }
    ensures lists { IfOk result (λ m. m.jobs.lists ≡ jobs.lists) }
    ensures told { WhereTold (W.device work.old) (λ w. IsOwnedCovered w store → (read : Items ℕ → Option RecordValue) → IsStoreOf (seen read w) store
        → AreReady flow.now settings.now.targets jobs.lists (seen read w) jobs → HasFound read flow.now settings.now w jobs.lists result) }
{
    match check_sources(alloc, &jobs, &store, work) {
        Ok(()) => look_at(rt, alloc, flow, settings, jobs, store, work),
        Err(fault) => Err(fault),
    }
}
