//! How a run opens.

ghost use Rattle.std.specs.Prelude.{◌≡◌, ℕ, List as Items, Option, IfOk, IfErr, false};
ghost use Rattle.smk_world.specs.Devices.{HasActed, HasLooked, WhereTold};
ghost use Rattle.smk_record.specs.declared.record.Record.{Record as RecordValue};
ghost use Rattle.smk_record.specs.Spelling.{ReadsRecords};
ghost use Rattle.smk_store.specs.Images.{seen};
ghost use Rattle.smk_store.specs.Unowned.{NoneOwned};
ghost use Rattle.smk_plan_preview.specs.Faults.{device_failed, is_sink};
ghost use Rattle.smk_drive_first.specs.Keeping.{HasKeptLast, IsFresh};
ghost use Rattle.smk_drive_first.specs.Opening.{HasOpened, GoesOn, IsNextBy, live_of};

use crate::chaining::chain;
use smk_flow::Workflow;
use smk_pick::Settings;
use smk_plan_live::LivePlan;
use smk_plan_preview::stored;
use smk_report::Fault;
use smk_store::{Store, steady};
use smk_world::Files;
use std::alloc::Global;
use std::thread::Threads;

/// A run that has opened: the plan with which it begins, and the serial that is drawn first. None where there is no serial left.
#[derive(Drop)]
pub struct Opened {
    pub live: LivePlan,
    pub next: Option<u64>,
}

// Opens once the marks and notes of the store are firm.
fn open_firm<W: Files, Rt: Threads + Sync>(
    rt: &Rt,
    alloc: Global,
    flow: &Workflow,
    settings: &Settings,
    store: &Store,
    work: &mut W,
) -> Result<Opened, Fault>
    ensures looked { HasLooked W.act (W.device work.old) (W.device work.new) (device_failed result) }
    ensures no_sink { IfErr result (λ f. is_sink f ≡ false) }
    ensures fresh { IfOk result (λ o. IsFresh settings.now o.live) }
    ensures next { IfOk result (λ o. IsNextBy store.now o.next) }
    ensures told { WhereTold (W.device work.old) (λ w. NoneOwned w → (read : Items ℕ → Option RecordValue) → ReadsRecords read
        → HasKeptLast read flow.now settings.now (seen read w) (live_of result)) }
{
    // The call tells that each path is there once.
    let _paths = store.paths();
    match chain(rt, alloc, flow, settings, work) {
        Ok(live) => Ok(Opened {
            live,
            next: store.next_serial(),
        }),
        Err(fault) => Err(fault),
    }
}

// Opens by what was found in the store.
#[tactic(auto, using(crate::proofs::Sinks::store_no_sink))]
fn open_stored<W: Files, Rt: Threads + Sync>(
    rt: &Rt,
    alloc: Global,
    flow: &Workflow,
    settings: &Settings,
    store: &Store,
    work: &mut W,
) -> Result<Opened, Fault>
    ensures acted { HasActed W.act (λ w es. NoneOwned w → (read : Items ℕ → Option RecordValue) → ReadsRecords read
        → GoesOn read flow.now settings.now (seen read w) store.now result es) (W.device work.old) (W.device work.new) (device_failed result) }
    ensures no_sink { IfErr result (λ f. is_sink f ≡ false) }
    ensures fresh { IfOk result (λ o. IsFresh settings.now o.live) }
    ensures next { IfOk result (λ o. IsNextBy store.now o.next) }
{
    match steady(alloc, work, store) {
        Ok(()) => open_firm(rt, alloc, flow, settings, store, work),
        Err(fault) => Err(Fault::from(fault)),
    }
}

/// Opens a run: loads the store, makes firm the marks and notes that were found of earlier runs, and makes the plan with which the run begins, to be kept. It
/// is the last one of the chain of plans that begins with no listings. Nothing else is changed.
///
/// The fault is the first that is refused of one of these plans: `TooManyPaths`, `Deep`, `NoRule`, `NoInput`, `Ambiguous`, `MissingMember`, `NoCommand` and
/// `Clash` of its derivation; then `Incomplete`, `Protected`, `AboveLimit`, and `UnknownField` and `TooLong` of a command. `Device`: a call of the device
/// failed. `OutOfMemory`: there is no memory for the store or a plan.
///
/// No child runs.
pub fn open<W: Files, Rt: Threads + Sync>(
    rt: &Rt,
    alloc: Global,
    flow: &Workflow,
    settings: &Settings,
    work: &mut W,
) -> Result<Opened, Fault>
    ensures opened { HasOpened W.act flow.now settings.now result (W.device work.old) (W.device work.new) }
    ensures no_sink { IfErr result (λ f. is_sink f ≡ false) }
    ensures fresh { IfOk result (λ o. IsFresh settings.now o.live) }
{
    match stored(alloc, work) {
        Ok(store) => open_stored(rt, alloc, flow, settings, &store, work),
        Err(fault) => Err(fault),
    }
}
