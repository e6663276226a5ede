//! Previews.

ghost use Rattle.std.specs.Prelude.{◌≡◌, ℕ, List as Items, Option, IfOk, IfErr, false};
ghost use Rattle.smk_world.specs.Devices.{HasLooked, WhereTold};
ghost use Rattle.smk_record.specs.declared.record.Record.{Record as RecordValue};
ghost use Rattle.smk_record.specs.Spelling.{ReadsRecords};
ghost use Rattle.smk_store.specs.Images.{seen};
ghost use Rattle.smk_store.specs.Loading.{IsStoreOf};
ghost use Rattle.smk_store.specs.Unowned.{NoneOwned};
ghost use Rattle.smk_plan_preview.specs.Faults.{device_failed, is_sink};
ghost use Rattle.smk_plan_preview.specs.Previewing.{HasPreviewed};
ghost use Rattle.smk_plan_preview.specs.Steps.{IsGood};

use crate::chaining::chain;
use crate::finding::stored;
use smk_chain::Jobs;
use smk_flow::Workflow;
use smk_pick::Settings;
use smk_plan::Plan;
use smk_report::Fault;
use smk_store::Store;
use smk_world::Files;
use std::alloc::Global;
use std::thread::Threads;

/// The last plan of a chain, with its jobs, and the store as it was found.
#[derive(Drop)]
pub struct Previewed {
    pub store: Store,
    pub jobs: Jobs,
    pub plan: Plan,
}

// The same, by the store as it stands.
fn preview_stored<W: Files, Rt: Threads + Sync>(
    rt: &Rt,
    alloc: Global,
    flow: &Workflow,
    settings: &Settings,
    store: Store,
    work: &mut W,
) -> Result<Previewed, Fault>
    ensures looked { HasLooked W.act (W.device work.old) (W.device work.new) (device_failed result) }
    ensures no_sink { IfErr result (λ f. is_sink f ≡ false) }
    ensures told { WhereTold (W.device work.old) (λ w. NoneOwned w → (read : Items ℕ → Option RecordValue) → IsStoreOf (seen read w) store
        → HasPreviewed read flow.now settings.now (seen read w) result) }
    ensures good { IfOk result (λ p. IsGood flow.now settings.now p.jobs p.plan) }
{
    match chain(rt, alloc, flow, settings, &store, work) {
        Ok(last) => Ok(Previewed {
            store,
            jobs: last.jobs,
            plan: last.plan,
        }),
        Err(fault) => Err(fault),
    }
}

/// Derives and plans the jobs that the targets call for, again and again with the listings that have become known, until no further one does. Nothing is changed.
///
/// The fault is the first that is refused of one of these plans: `TooManyPaths`, `Deep`, `NoRule`, `NoInput`, `Ambiguous`, `MissingMember`, `NoCommand` and `Clash` of its derivation;
/// then `Incomplete`, `Protected`, `AboveLimit`, and `UnknownField` and `TooLong` of a command. `Device`: a call of the device failed. `OutOfMemory`: there is no memory for a plan.
pub fn preview<W: Files, Rt: Threads + Sync>(
    rt: &Rt,
    alloc: Global,
    flow: &Workflow,
    settings: &Settings,
    work: &mut W,
) -> Result<Previewed, Fault>
    ensures looked { HasLooked W.act (W.device work.old) (W.device work.new) (device_failed result) }
    ensures no_sink { IfErr result (λ f. is_sink f ≡ false) }

    // Where no running child owns a place, it is the preview of the folder as it stands.
    ensures told { WhereTold (W.device work.old) (λ w. NoneOwned w → (read : Items ℕ → Option RecordValue) → ReadsRecords read
        → HasPreviewed read flow.now settings.now (seen read w) result) }

    // The jobs can be run with this plan, whatever the folder is.
    ensures good { IfOk result (λ p. IsGood flow.now settings.now p.jobs p.plan) }
{
    match stored(alloc, work) {
        Ok(store) => preview_stored(rt, alloc, flow, settings, store, work),
        Err(fault) => Err(fault),
    }
}
