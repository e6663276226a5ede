//! The parts of what a plan grows by, with the faults of a run.

ghost use Rattle.std.specs.Prelude.{◌≡◌, ℕ, List as Items, Option, IfOk, IfErr, false};
ghost use Rattle.smk_world.specs.Devices.{HasLooked, WhereTold};
ghost use Rattle.smk_record.specs.declared.record.Record.{Record as RecordValue};
ghost use Rattle.smk_record.specs.Spelling.{ReadsRecords};
ghost use Rattle.smk_store.specs.Images.{seen};
ghost use Rattle.smk_store.specs.Loading.{IsStoreOf, store_folder};
ghost use Rattle.smk_store.specs.Unowned.{IsUnownedUnder};
ghost use Rattle.smk_choose.specs.Index.{AreReadings};
ghost use Rattle.smk_chain_sight.specs.Disk.{IsOwnedCovered};
ghost use Rattle.smk_plan_look.specs.Seeing.{AreSeenUnowned, AreSummedUnowned};
ghost use Rattle.smk_report.specs.Faults.{of_store};
ghost use Rattle.smk_plan_preview.specs.Faults as faults;
ghost use Rattle.smk_plan_preview.specs.Faults.{as_call, device_failed, is_told, is_sink};
ghost use Rattle.smk_plan_preview.specs.Rounds as spec;

use smk_base::{List, PathText};
use smk_chain::{Jobs, Listings, SightFault};
use smk_chain_sight::sight;
use smk_choose::{Readings, Sources};
use smk_flow::Workflow;
use smk_plan::{LookFault, Seen};
use smk_plan_look::look;
use smk_plan_preview::{of_look, of_sight};
use smk_report::Fault;
use smk_store::{Store, StoreFault, load};
use smk_world::Files;
use std::alloc::Global;
use std::thread::Threads;

#[tactic(auto, using(crate::proofs::Sinks::store_no_sink))]
fn of_load(loaded: Result<Store, StoreFault>) -> Result<Store, Fault>
    ensures is { result ≡ as_call of_store loaded }
    ensures no_sink { IfErr result (λ f. is_sink f ≡ false) }
{
    Ok(loaded?)
}

/// The store as it stands, where no child owns a place of its folder.
pub(crate) fn stored<W: Files>(alloc: Global, work: &mut W) -> Result<Store, Fault>
    ensures looked { HasLooked W.act (W.device work.old) (W.device work.new) (device_failed result) }
    ensures no_sink { IfErr result (λ f. is_sink f ≡ false) }
    ensures told { IfOk result (λ store. WhereTold (W.device work.old) (λ w. IsUnownedUnder w.nodes store_folder
        → (read : Items ℕ → Option RecordValue) → ReadsRecords read → IsStoreOf (seen read w) store)) }
    ensures untold { IfErr result (λ f. is_told f ≡ false) }
{
    let loaded = load(alloc, work);
    of_load(loaded)
}

#[tactic(auto, using(crate::proofs::Sinks::sight_no_sink))]
fn of_sources(sighted: Result<Sources, SightFault>) -> Result<Sources, Fault>
    ensures is { result ≡ as_call faults.of_sight sighted }
    ensures no_sink { IfErr result (λ f. is_sink f ≡ false) }
{
    match sighted {
        Ok(sources) => Ok(sources),
        Err(fault) => Err(of_sight(fault)),
    }
}

/// The sources among all that could be wanted for the targets, where what children own is covered in the store.
pub(crate) fn sighted<W: Files>(
    alloc: Global,
    flow: &Workflow,
    readings: &Readings,
    targets: &List<PathText>,
    lists: &Listings,
    store: &Store,
    work: &mut W,
) -> Result<Sources, Fault>
    requires { AreReadings flow.now readings.now }
    ensures looked { HasLooked W.act (W.device work.old) (W.device work.new) (device_failed result) }
    ensures no_sink { IfErr result (λ f. is_sink f ≡ false) }
    ensures told { WhereTold (W.device work.old) (λ w. IsOwnedCovered w store.now → (read : Items ℕ → Option RecordValue) → IsStoreOf (seen read w) store.now
        → spec.Sights flow.now targets.now lists.now (seen read w) result) }
{
    let found = sight(alloc, flow, readings, store, lists, targets, work);
    of_sources(found)
}

#[tactic(auto, using(crate::proofs::Sinks::look_no_sink))]
fn of_seen(seen: Result<Seen, LookFault>) -> Result<Seen, Fault>
    ensures is { result ≡ as_call faults.of_look seen }
    ensures no_sink { IfErr result (λ f. is_sink f ≡ false) }
{
    match seen {
        Ok(seen) => Ok(seen),
        Err(fault) => Err(of_look(fault)),
    }
}

/// What stands at the outputs and the sources of the jobs, as far as no child owns it, with the digests of the sources without which the records of the store can't
/// be judged.
pub(crate) fn looked<W: Files, Rt: Threads + Sync>(
    rt: &Rt,
    alloc: Global,
    work: &mut W,
    jobs: &Jobs,
    store: &Store,
) -> Result<Seen, Fault>
    ensures looked { HasLooked W.act (W.device work.old) (W.device work.new) (device_failed result) }
    ensures no_sink { IfErr result (λ f. is_sink f ≡ false) }
    ensures told { IfOk result (λ sights. WhereTold (W.device work.old) (λ w. (read : Items ℕ → Option RecordValue)
        → AreSeenUnowned w (seen read w) jobs.now sights)) }
    ensures summed { IfOk result (λ sights. WhereTold (W.device work.old) (λ w. (read : Items ℕ → Option RecordValue)
        → IsStoreOf (seen read w) store.now → AreSummedUnowned w (seen read w) jobs.now sights)) }
    ensures untold { IfErr result (λ f. is_told f ≡ false) }
{
    let found = look(rt, alloc, work, jobs, store);
    of_seen(found)
}
