//! What a plan is made from: the store, the sources, the jobs, and what stands at their outputs.

ghost use Rattle.std.specs.Prelude.{◌≡◌, ℕ, List as Items, Option, IfOk, IfErr, false};
ghost use Rattle.smk_world.specs.Devices.{HasLooked, WhereTold};
ghost use Rattle.smk_record.specs.declared.record.Record.{Record as RecordValue};
ghost use Rattle.smk_record.specs.Spelling.{ReadsRecords};
ghost use Rattle.smk_store.specs.Images.{seen, Image};
ghost use Rattle.smk_store.specs.Loading.{IsStoreOf};
ghost use Rattle.smk_store.specs.Unowned.{NoneOwned};
ghost use Rattle.smk_choose.specs.Index.{AreReadings};
ghost use Rattle.smk_chain_derive.specs.Clashes.{ListsKnown};
ghost use Rattle.smk_plan.specs.Sights.{IsSeenOf};
ghost use Rattle.smk_plan.specs.Summed.{AreSummed};
ghost use Rattle.smk_plan_facts.specs.Facts.{NamesAll, TellSources};
ghost use Rattle.smk_report.specs.Faults.{of_store};
ghost use Rattle.smk_plan_preview.specs.Faults as faults;
ghost use Rattle.smk_plan_preview.specs.Faults.{as_call, device_failed, is_told, is_sink};
ghost use Rattle.smk_plan_preview.specs.Rounds as spec;
ghost use Rattle.smk_plan_preview.specs.Fitness.{AreFit};

use crate::faults::{of_chain, of_look, of_sight};
use crate::listing::listings_again;
use smk_base::{List, PathText};
use smk_chain::{ChainFault, Jobs, Listings, SightFault};
use smk_chain_derive::ready_jobs;
use smk_chain_sight::sight;
use smk_choose::{Readings, Sources};
use smk_flow::Workflow;
use smk_plan::{LookFault, Seen};
use smk_plan_look::look;
use smk_report::Fault;
use smk_store::{Store, StoreFault, load};
use smk_world::Files;
use std::alloc::Global;
use std::thread::Threads;

#[tactic(auto, using(crate::proofs::Sinks::store_no_sink))]
fn of_load(loaded: Result<Store, StoreFault>) -> Result<Store, Fault>
    ensures is { result ≡ as_call of_store loaded }
    ensures no_sink { IfErr result (λ f. is_sink f ≡ false) }
{
    Ok(loaded?)
}

/// The store as it stands.
pub fn stored<W: Files>(alloc: Global, work: &mut W) -> Result<Store, Fault>
    ensures looked { HasLooked W.act (W.device work.old) (W.device work.new) (device_failed result) }
    ensures no_sink { IfErr result (λ f. is_sink f ≡ false) }
    ensures told { IfOk result (λ store. WhereTold (W.device work.old) (λ w. NoneOwned w
        → (read : Items ℕ → Option RecordValue) → ReadsRecords read → IsStoreOf (seen read w) store)) }
    ensures untold { IfErr result (λ f. is_told f ≡ false) }
{
    let loaded = load(alloc, work);
    of_load(loaded)
}

#[tactic(auto, using(crate::proofs::Sinks::sight_no_sink))]
fn of_sources(sighted: Result<Sources, SightFault>) -> Result<Sources, Fault>
    ensures is { result ≡ as_call faults.of_sight sighted }
    ensures no_sink { IfErr result (λ f. is_sink f ≡ false) }
{
    match sighted {
        Ok(sources) => Ok(sources),
        Err(fault) => Err(of_sight(fault)),
    }
}

/// The sources among all that could be wanted for the targets.
pub fn sighted<W: Files>(
    alloc: Global,
    flow: &Workflow,
    readings: &Readings,
    targets: &List<PathText>,
    lists: &Listings,
    store: &Store,
    work: &mut W,
) -> Result<Sources, Fault>
    requires { AreReadings flow.now readings.now }
    ensures looked { HasLooked W.act (W.device work.old) (W.device work.new) (device_failed result) }
    ensures no_sink { IfErr result (λ f. is_sink f ≡ false) }
    ensures told { WhereTold (W.device work.old) (λ w. NoneOwned w → (read : Items ℕ → Option RecordValue) → IsStoreOf (seen read w) store.now
        → spec.Sights flow.now targets.now lists.now (seen read w) result) }
{
    let found = sight(alloc, flow, readings, store, lists, targets, work);
    of_sources(found)
}

#[tactic(auto, using(crate::proofs::Sinks::chain_no_sink))]
fn of_derived(derived: Result<Jobs, ChainFault>) -> Result<Jobs, Fault>
    ensures is { result ≡ as_call faults.of_chain derived }
    ensures no_sink { IfErr result (λ f. is_sink f ≡ false) }
{
    match derived {
        Ok(jobs) => Ok(jobs),
        Err(fault) => Err(of_chain(fault)),
    }
}

// The jobs that the targets call for with these listings, by what is told of sources.
fn derived_with(
    alloc: Global,
    flow: &Workflow,
    readings: &Readings,
    targets: &List<PathText>,
    lists: Listings,
    store: &Store,
    sources: &Sources,
) -> Result<Jobs, Fault>
    requires { AreReadings flow.now readings.now }
    ensures no_device { device_failed result ≡ false }
    ensures no_sink { IfErr result (λ f. is_sink f ≡ false) }
    ensures lists { IfOk result (λ jobs. jobs.lists ≡ lists) }
    ensures fit { IfOk result AreFit }
    ensures told { (image : Image) → NamesAll image → IsStoreOf image store.now → ListsKnown image → spec.IsSighted flow.now targets.now lists image sources.now
        → spec.Derives flow.now targets.now lists image result }
{
    let made = ready_jobs(alloc, flow, readings, sources, lists, store, targets);
    of_derived(made)
}

/// The jobs that the targets call for with these listings, by what is told of sources.
pub fn derived(
    alloc: Global,
    flow: &Workflow,
    readings: &Readings,
    targets: &List<PathText>,
    lists: &Listings,
    store: &Store,
    sources: &Sources,
) -> Result<Jobs, Fault>
    requires { AreReadings flow.now readings.now }
    ensures no_device { device_failed result ≡ false }
    ensures no_sink { IfErr result (λ f. is_sink f ≡ false) }
    ensures lists { IfOk result (λ jobs. jobs.lists ≡ lists.now) }
    ensures fit { IfOk result AreFit }
    ensures told { (image : Image) → NamesAll image → IsStoreOf image store.now → ListsKnown image → spec.IsSighted flow.now targets.now lists.now image sources.now
        → spec.Derives flow.now targets.now lists.now image result }
{
    match listings_again(alloc, lists) {
        Ok(copy) => derived_with(alloc, flow, readings, targets, copy, store, sources),
        Err(fault) => Err(fault),
    }
}

#[tactic(auto, using(crate::proofs::Sinks::look_no_sink))]
fn of_seen(seen: Result<Seen, LookFault>) -> Result<Seen, Fault>
    ensures is { result ≡ as_call faults.of_look seen }
    ensures no_sink { IfErr result (λ f. is_sink f ≡ false) }
{
    match seen {
        Ok(seen) => Ok(seen),
        Err(fault) => Err(of_look(fault)),
    }
}

/// What stands at the outputs and the sources of the jobs, with the digests of the sources without which the records of the store can't be judged.
pub fn looked<W: Files, Rt: Threads + Sync>(
    rt: &Rt,
    alloc: Global,
    work: &mut W,
    jobs: &Jobs,
    store: &Store,
) -> Result<Seen, Fault>
    ensures looked { HasLooked W.act (W.device work.old) (W.device work.new) (device_failed result) }
    ensures no_sink { IfErr result (λ f. is_sink f ≡ false) }
    ensures told { IfOk result (λ sights. WhereTold (W.device work.old) (λ w. NoneOwned w
        → (read : Items ℕ → Option RecordValue) → IsSeenOf (seen read w) jobs.now sights)) }
    ensures summed { IfOk result (λ sights. WhereTold (W.device work.old) (λ w. NoneOwned w → (read : Items ℕ → Option RecordValue) → IsStoreOf (seen read w) store.now
        → TellSources (seen read w) jobs.now → AreSummed (seen read w) jobs.now sights)) }
    ensures untold { IfErr result (λ f. is_told f ≡ false) }
{
    let found = look(rt, alloc, work, jobs, store);
    of_seen(found)
}
