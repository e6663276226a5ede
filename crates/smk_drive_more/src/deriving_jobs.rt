//! What a kept plan grows by.

ghost use Rattle.std.specs.Prelude.{◌≡◌, ℕ, List as Items, Option, IfOk, IfErr, false};
ghost use Rattle.smk_world.specs.Devices.{HasLooked, WhereTold};
ghost use Rattle.smk_record.specs.declared.record.Record.{Record as RecordValue};
ghost use Rattle.smk_record.specs.Spelling.{ReadsRecords};
ghost use Rattle.smk_store.specs.Images.{seen};
ghost use Rattle.smk_store.specs.Loading.{IsStoreOf};
ghost use Rattle.smk_choose.specs.Index.{AreReadings};
ghost use Rattle.smk_chain_derive.specs.Clashes.{ListsKnown};
ghost use Rattle.smk_chain_sight.specs.Disk.{IsOwnedCovered};
ghost use Rattle.smk_plan_preview.specs.Faults.{device_failed, is_sink};
ghost use Rattle.smk_plan_preview.specs.Rounds.{IsSighted};
ghost use Rattle.smk_laws_turns.specs.Growing.{IsBeside};
ghost use Rattle.smk_drive_more.specs.Found.{HasFound, HasMore};

use crate::holding::are_held;
use crate::listings::listings_now;
use crate::looking::{More, look_around};
use crate::parts::{sighted, stored};
use smk_chain::Listings;
use smk_choose::{Readings, Sources};
use smk_flow::Workflow;
use smk_pick::Settings;
use smk_plan_live::LivePlan;
use smk_plan_preview::derived;
use smk_report::Fault;
use smk_store::Store;
use smk_world::Files;
use std::alloc::Global;
use std::thread::Threads;

// What the jobs are derived by.
#[derive(Drop)]
struct Basis<'a> {
    flow: &'a Workflow,
    settings: &'a Settings,
    // What was read of the workflow's rules.
    readings: &'a Readings,
}

// What is found with these sources.
fn find_jobs<W: Files, Rt: Threads + Sync>(
    rt: &Rt,
    alloc: Global,
    basis: &Basis<'_>,
    lists: &Listings,
    store: Store,
    sources: &Sources,
    work: &mut W,
) -> Result<More, Fault>
    requires { AreReadings basis.now.flow.now basis.now.readings.now }
    ensures looked { HasLooked W.act (W.device work.old) (W.device work.new) (device_failed result) }
    ensures no_sink { IfErr result (λ f. is_sink f ≡ false) }
    ensures lists { IfOk result (λ m. m.jobs.lists ≡ lists.now) }
    ensures told { WhereTold (W.device work.old) (λ w. IsOwnedCovered w store → (read : Items ℕ → Option RecordValue) → IsStoreOf (seen read w) store
        → ListsKnown (seen read w)
        → IsSighted basis.now.flow.now basis.now.settings.now.targets lists.now (seen read w) sources.now
        → HasFound read basis.now.flow.now basis.now.settings.now w lists.now result) }
{
    match derived(
        alloc,
        basis.flow,
        basis.readings,
        &basis.settings.targets,
        lists,
        &store,
        sources,
    ) {
        Ok(jobs) => look_around(rt, alloc, basis.flow, basis.settings, jobs, store, work),
        Err(fault) => Err(fault),
    }
}

// What is found by this store.
fn find_sources<W: Files, Rt: Threads + Sync>(
    rt: &Rt,
    alloc: Global,
    basis: &Basis<'_>,
    lists: &Listings,
    store: Store,
    work: &mut W,
) -> Result<More, Fault>
    requires { AreReadings basis.now.flow.now basis.now.readings.now }
    ensures looked { HasLooked W.act (W.device work.old) (W.device work.new) (device_failed result) }
    ensures no_sink { IfErr result (λ f. is_sink f ≡ false) }
    ensures lists { IfOk result (λ m. m.jobs.lists ≡ lists.now) }
    ensures told { WhereTold (W.device work.old) (λ w. IsOwnedCovered w store → (read : Items ℕ → Option RecordValue) → IsStoreOf (seen read w) store
        → HasFound read basis.now.flow.now basis.now.settings.now w lists.now result) }
{
    match sighted(
        alloc,
        basis.flow,
        basis.readings,
        &basis.settings.targets,
        lists,
        &store,
        work,
    ) {
        Ok(sources) => find_jobs(rt, alloc, basis, lists, store, &sources, work),
        Err(fault) => Err(fault),
    }
}

// What is found with these listings.
fn find_with<W: Files, Rt: Threads + Sync>(
    rt: &Rt,
    alloc: Global,
    basis: &Basis<'_>,
    lists: &Listings,
    work: &mut W,
) -> Result<More, Fault>
    requires { AreReadings basis.now.flow.now basis.now.readings.now }
    ensures looked { HasLooked W.act (W.device work.old) (W.device work.new) (device_failed result) }
    ensures no_sink { IfErr result (λ f. is_sink f ≡ false) }
    ensures lists { IfOk result (λ m. m.jobs.lists ≡ lists.now) }
    ensures told { WhereTold (W.device work.old) (λ w. (read : Items ℕ → Option RecordValue) → ReadsRecords read → IsBeside read w
        → HasFound read basis.now.flow.now basis.now.settings.now w lists.now result) }
{
    match stored(alloc, work) {
        Ok(store) => find_sources(rt, alloc, basis, lists, store, work),
        Err(fault) => Err(fault),
    }
}

// The same for the kept plan, where something is known of all that its running jobs restore. That it isn't so can't be.
fn find_by<W: Files, Rt: Threads + Sync>(
    rt: &Rt,
    alloc: Global,
    basis: &Basis<'_>,
    live: &LivePlan,
    work: &mut W,
) -> Result<More, Fault>
    requires { AreReadings basis.now.flow.now basis.now.readings.now }
    ensures looked { HasLooked W.act (W.device work.old) (W.device work.new) (device_failed result) }
    ensures no_sink { IfErr result (λ f. is_sink f ≡ false) }
    ensures told { WhereTold (W.device work.old) (λ w. (read : Items ℕ → Option RecordValue) → ReadsRecords read → IsBeside read w
        → HasMore read basis.now.flow.now basis.now.settings.now w live.now result) }
{
    if !are_held(live) {
        return Err(Fault::OutOfMemory);
    }
    match listings_now(alloc, live) {
        Ok(lists) => find_with(rt, alloc, basis, &lists, work),
        Err(fault) => Err(fault),
    }
}

/// What the kept plan grows by once directories have become known: the store is loaded anew, sources are looked for, the jobs are derived with the listings of the
/// plan and those of these directories, and their outputs and sources are looked at. Children may run meanwhile: what they own is left alone, and counts as not
/// seen. Nothing is changed.
///
/// The fault is the first that is refused of the derivation: `TooManyPaths`, `Deep`, `NoRule`, `NoInput`, `Ambiguous`, `MissingMember`, `NoCommand` or `Clash`. Or
/// `Device`: a call of the device failed. Or `OutOfMemory`.
pub fn find_more<W: Files, Rt: Threads + Sync>(
    rt: &Rt,
    alloc: Global,
    flow: &Workflow,
    settings: &Settings,
    live: &LivePlan,
    work: &mut W,
) -> Result<More, Fault>
    ensures looked { HasLooked W.act (W.device work.old) (W.device work.new) (device_failed result) }
    ensures no_sink { IfErr result (λ f. is_sink f ≡ false) }
    ensures told { WhereTold (W.device work.old) (λ w. (read : Items ℕ → Option RecordValue) → ReadsRecords read → IsBeside read w
        → HasMore read flow.now settings.now w live.now result) }
{
    match Readings::of(alloc, flow) {
        Ok(readings) => {
            let basis = Basis {
                flow,
                settings,
                readings: &readings,
            };
            find_by(rt, alloc, &basis, live, work)
        }
        Err(_) => Err(Fault::OutOfMemory),
    }
}
