//! One plan of the chain.

ghost use Rattle.std.specs.Prelude.{◌≡◌, ◌⊎◌, ℕ, List as Items, Option, Some, None, IfOk, IfErr, length, false};
ghost use Rattle.std.specs.List.{zip};
ghost use Rattle.smk_world.specs.Devices.{HasLooked, WhereTold};
ghost use Rattle.smk_record.specs.declared.record.Record.{Record as RecordValue};
ghost use Rattle.smk_record.specs.Spelling.{ReadsRecords};
ghost use Rattle.smk_store.specs.Images.{seen, Image};
ghost use Rattle.smk_store.specs.Loading.{IsStoreOf};
ghost use Rattle.smk_store.specs.Unowned.{NoneOwned};
ghost use Rattle.smk_choose.specs.Index.{AreReadings};
ghost use Rattle.smk_chain_derive.specs.Clashes.{ListsKnown};
ghost use Rattle.smk_format.specs.Refused.{command_fault};
ghost use Rattle.smk_report.specs.declared.fault.Fault.TheVariants as fault;
ghost use Rattle.smk_plan_table.specs.Plans.{Agree};
ghost use Rattle.smk_plan_preview.specs.Faults.{device_failed, is_sink};
ghost use Rattle.smk_plan_preview.specs.Rounds.{AreReady, IsSighted};
ghost use Rattle.smk_drive_first.specs.Keeping.{HasBegun, HasKept, IsFresh};

use smk_base::{Copied, OutOfMemory};
use smk_chain::{Jobs, Listings};
use smk_choose::{Readings, Sources};
use smk_flow::Workflow;
use smk_format::check_commands;
use smk_pick::Settings;
use smk_plan::Seen;
use smk_plan_live::LivePlan;
use smk_plan_preview::{derived, looked, of_plan, sighted, stored};
use smk_report::Fault;
use smk_store::Store;
use smk_world::Files;
use std::alloc::Global;
use std::thread::Threads;

/// What each plan of a chain is made by.
#[derive(Drop)]
pub(crate) struct Ground<'a> {
    pub(crate) flow: &'a Workflow,
    pub(crate) settings: &'a Settings,
    /// What was read of the workflow's rules.
    pub(crate) readings: &'a Readings,
}

// A copy of the settings.
fn settings_again(alloc: Global, settings: &Settings) -> Result<Settings, OutOfMemory>
    ensures { IfOk result (λ copy. copy ≡ settings.now) }
{
    Ok(Settings {
        targets: settings.targets.copied(alloc)?,
        cores: settings.cores,
        bounds: settings.bounds.copied(alloc)?,
        keep_going: settings.keep_going,
        rerun_incomplete: settings.rerun_incomplete,
        force: settings.force,
    })
}

// The plan of the jobs by these settings, but for their commands.
fn begun<Rt: Threads + Sync>(
    rt: &Rt,
    alloc: Global,
    flow: &Workflow,
    settings: Settings,
    jobs: Jobs,
    store: Store,
    seen: Seen,
) -> Result<LivePlan, Fault>
    ensures no_device { device_failed result ≡ false }
    ensures no_sink { IfErr result (λ f. is_sink f ≡ false) }
    ensures fresh { IfOk result (IsFresh settings) }
    ensures jobs { IfOk result (λ p. p.base.jobs ≡ jobs) }
    ensures told { (image : Image) → Agree image jobs store seen settings.targets → HasBegun flow.now image settings jobs result }
{
    match LivePlan::new(rt, alloc, jobs, store, seen, settings) {
        Ok(live) => Ok(live),
        Err(fault) => Err(of_plan(alloc, flow, fault)),
    }
}

// The same by a copy of these settings.
fn planned<Rt: Threads + Sync>(
    rt: &Rt,
    alloc: Global,
    flow: &Workflow,
    settings: &Settings,
    jobs: Jobs,
    store: Store,
    seen: Seen,
) -> Result<LivePlan, Fault>
    ensures no_device { device_failed result ≡ false }
    ensures no_sink { IfErr result (λ f. is_sink f ≡ false) }
    ensures fresh { IfOk result (IsFresh settings.now) }
    ensures jobs { IfOk result (λ p. p.base.jobs ≡ jobs) }
    ensures told { (image : Image) → Agree image jobs store seen settings.now.targets → HasBegun flow.now image settings.now jobs result }
{
    match settings_again(alloc, settings) {
        Ok(copy) => begun(rt, alloc, flow, copy, jobs, store, seen),
        Err(_) => Err(Fault::OutOfMemory),
    }
}

// The plan, where nothing is refused of the commands of its jobs.
fn checked(
    alloc: Global,
    flow: &Workflow,
    settings: &Settings,
    live: LivePlan,
) -> Result<LivePlan, Fault>
    requires each { length live.base.jobs.jobs ≡ length live.plan.states }
    ensures same { IfOk result (λ p. p ≡ live) }
    ensures good { IfOk result (λ p. command_fault flow.now settings.now.cores (zip live.base.jobs.jobs live.plan.states) ≡ None) }
    ensures not { IfErr result (λ f. (f ≡ fault.OutOfMemory)
        ⊎ (command_fault flow.now settings.now.cores (zip live.base.jobs.jobs live.plan.states) ≡ Some f)) }
{
    match live.states(alloc) {
        Err(_) => Err(Fault::OutOfMemory),
        Ok(states) => match check_commands(
            alloc,
            flow,
            settings.cores,
            &live.jobs().jobs,
            &states,
        ) {
            Ok(()) => Ok(live),
            Err(fault) => Err(fault),
        },
    }
}

// The plan of the jobs, by what was seen.
fn plan_seen<Rt: Threads + Sync>(
    rt: &Rt,
    alloc: Global,
    flow: &Workflow,
    settings: &Settings,
    jobs: Jobs,
    store: Store,
    seen: Seen,
) -> Result<LivePlan, Fault>
    ensures no_device { device_failed result ≡ false }
    ensures no_sink { IfErr result (λ f. is_sink f ≡ false) }
    ensures fresh { IfOk result (IsFresh settings.now) }
    ensures jobs { IfOk result (λ p. p.base.jobs ≡ jobs) }
    ensures told { (image : Image) → Agree image jobs store seen settings.now.targets → AreReady flow.now settings.now.targets jobs.lists image jobs
        → (read : Items ℕ → Option RecordValue) → HasKept read flow.now settings.now image jobs.lists result }
{
    match planned(rt, alloc, flow, settings, jobs, store, seen) {
        Ok(live) => checked(alloc, flow, settings, live),
        Err(fault) => Err(fault),
    }
}

// The plan of the jobs, as the folder stands.
fn plan_jobs<W: Files, Rt: Threads + Sync>(
    rt: &Rt,
    alloc: Global,
    flow: &Workflow,
    settings: &Settings,
    jobs: Jobs,
    store: Store,
    work: &mut W,
) -> Result<LivePlan, Fault>
    ensures looked { HasLooked W.act (W.device work.old) (W.device work.new) (device_failed result) }
    ensures no_sink { IfErr result (λ f. is_sink f ≡ false) }
    ensures fresh { IfOk result (IsFresh settings.now) }
    ensures jobs { IfOk result (λ p. p.base.jobs ≡ jobs) }
    ensures told { WhereTold (W.device work.old) (λ w. NoneOwned w → (read : Items ℕ → Option RecordValue) → IsStoreOf (seen read w) store
        → AreReady flow.now settings.now.targets jobs.lists (seen read w) jobs → HasKept read flow.now settings.now (seen read w) jobs.lists result) }
{
    match looked(rt, alloc, work, &jobs, &store) {
        Ok(seen) => plan_seen(rt, alloc, flow, settings, jobs, store, seen),
        Err(fault) => Err(fault),
    }
}

// The plan with these sources, as the folder stands.
fn plan_sources<W: Files, Rt: Threads + Sync>(
    rt: &Rt,
    alloc: Global,
    ground: &Ground<'_>,
    lists: &Listings,
    store: Store,
    sources: &Sources,
    work: &mut W,
) -> Result<LivePlan, Fault>
    requires { AreReadings ground.now.flow.now ground.now.readings.now }
    ensures looked { HasLooked W.act (W.device work.old) (W.device work.new) (device_failed result) }
    ensures no_sink { IfErr result (λ f. is_sink f ≡ false) }
    ensures fresh { IfOk result (IsFresh ground.now.settings.now) }
    ensures lists { IfOk result (λ p. p.base.jobs.lists ≡ lists.now) }
    ensures told { WhereTold (W.device work.old) (λ w. NoneOwned w → (read : Items ℕ → Option RecordValue) → IsStoreOf (seen read w) store
        → ListsKnown (seen read w) → IsSighted ground.now.flow.now ground.now.settings.now.targets lists.now (seen read w) sources.now
        → HasKept read ground.now.flow.now ground.now.settings.now (seen read w) lists.now result) }
{
    match derived(
        alloc,
        ground.flow,
        ground.readings,
        &ground.settings.targets,
        lists,
        &store,
        sources,
    ) {
        Ok(jobs) => plan_jobs(rt, alloc, ground.flow, ground.settings, jobs, store, work),
        Err(fault) => Err(fault),
    }
}

// The plan with these listings, by this store.
fn plan_stored<W: Files, Rt: Threads + Sync>(
    rt: &Rt,
    alloc: Global,
    ground: &Ground<'_>,
    lists: &Listings,
    store: Store,
    work: &mut W,
) -> Result<LivePlan, Fault>
    requires { AreReadings ground.now.flow.now ground.now.readings.now }
    ensures looked { HasLooked W.act (W.device work.old) (W.device work.new) (device_failed result) }
    ensures no_sink { IfErr result (λ f. is_sink f ≡ false) }
    ensures fresh { IfOk result (IsFresh ground.now.settings.now) }
    ensures lists { IfOk result (λ p. p.base.jobs.lists ≡ lists.now) }
    ensures told { WhereTold (W.device work.old) (λ w. NoneOwned w → (read : Items ℕ → Option RecordValue) → IsStoreOf (seen read w) store
        → HasKept read ground.now.flow.now ground.now.settings.now (seen read w) lists.now result) }
{
    match sighted(
        alloc,
        ground.flow,
        ground.readings,
        &ground.settings.targets,
        lists,
        &store,
        work,
    ) {
        Ok(sources) => plan_sources(rt, alloc, ground, lists, store, &sources, work),
        Err(fault) => Err(fault),
    }
}

/// The plan with these listings, by the store and the folder as they stand, to be kept. Nothing is changed.
pub(crate) fn make_round<W: Files, Rt: Threads + Sync>(
    rt: &Rt,
    alloc: Global,
    ground: &Ground<'_>,
    lists: &Listings,
    work: &mut W,
) -> Result<LivePlan, Fault>
    requires { AreReadings ground.now.flow.now ground.now.readings.now }
    ensures looked { HasLooked W.act (W.device work.old) (W.device work.new) (device_failed result) }
    ensures no_sink { IfErr result (λ f. is_sink f ≡ false) }
    ensures fresh { IfOk result (IsFresh ground.now.settings.now) }
    ensures lists { IfOk result (λ p. p.base.jobs.lists ≡ lists.now) }
    ensures told { WhereTold (W.device work.old) (λ w. NoneOwned w → (read : Items ℕ → Option RecordValue) → ReadsRecords read
        → HasKept read ground.now.flow.now ground.now.settings.now (seen read w) lists.now result) }
{
    match stored(alloc, work) {
        Ok(store) => plan_stored(rt, alloc, ground, lists, store, work),
        Err(fault) => Err(fault),
    }
}
