//! One plan of a chain.

ghost use Rattle.std.specs.Prelude.{◌≡◌, ◌⊎◌, ℕ, List as Items, Option, Some, None, IfOk, IfErr, length, false};
ghost use Rattle.std.specs.List.{zip};
ghost use Rattle.smk_world.specs.Devices.{HasLooked, WhereTold};
ghost use Rattle.smk_record.specs.declared.record.Record.{Record as RecordValue};
ghost use Rattle.smk_store.specs.Images.{seen, Image};
ghost use Rattle.smk_store.specs.Loading.{IsStoreOf};
ghost use Rattle.smk_store.specs.Unowned.{NoneOwned};
ghost use Rattle.smk_chain_derive.specs.Clashes.{ListsKnown};
ghost use Rattle.smk_format.specs.Refused.{command_fault};
ghost use Rattle.smk_report.specs.declared.fault.Fault.TheVariants as fault;
ghost use Rattle.smk_plan_table.specs.Plans.{Agree};
ghost use Rattle.smk_plan_preview.specs.Faults.{device_failed, is_sink};
ghost use Rattle.smk_plan_preview.specs.Rounds as spec;
ghost use Rattle.smk_plan_preview.specs.Steps.{AreSound, HasLengths, IsGood, IsGround, Plans};

use crate::faults::of_plan;
use crate::finding::{derived, looked, sighted};
use smk_base::List;
use smk_chain::{Jobs, Listings};
use smk_choose::{Readings, Sources};
use smk_flow::Workflow;
use smk_format::check_commands;
use smk_pick::Settings;
use smk_plan::{Plan, Seen};
use smk_plan_table::plan;
use smk_report::Fault;
use smk_store::Store;
use smk_world::Files;
use std::alloc::Global;
use std::thread::Threads;

/// What each plan of a chain is made by.
#[derive(Drop)]
pub(crate) struct Ground<'a> {
    pub(crate) flow: &'a Workflow,
    pub(crate) settings: &'a Settings,
    /// The store as it was found.
    pub(crate) store: &'a Store,
    /// What was read of the workflow's rules.
    pub(crate) readings: &'a Readings,
}

/// Derived jobs with their plan.
#[derive(Drop)]
pub(crate) struct Round {
    pub(crate) jobs: Jobs,
    pub(crate) plan: Plan,
}

// The plan of the jobs, but for their commands.
fn planned<Rt: Threads + Sync>(
    rt: &Rt,
    alloc: Global,
    flow: &Workflow,
    settings: &Settings,
    store: &Store,
    jobs: &Jobs,
    seen: &Seen,
) -> Result<Plan, Fault>
    ensures no_device { device_failed result ≡ false }
    ensures no_sink { IfErr result (λ f. is_sink f ≡ false) }
    ensures lengths { IfOk result (λ made. HasLengths jobs.now settings.now made) }
    ensures told { (image : Image) → Agree image jobs.now store.now seen.now settings.now.targets → Plans flow.now image settings.now jobs.now result }
{
    let none = List::new(alloc);
    match plan(rt, alloc, jobs, store, seen, settings, &none) {
        Ok(made) => Ok(made),
        Err(fault) => Err(of_plan(alloc, flow, fault)),
    }
}

// The jobs and their plan, where nothing is refused of their commands.
fn checked(
    alloc: Global,
    flow: &Workflow,
    settings: &Settings,
    jobs: Jobs,
    plan: Plan,
) -> Result<Round, Fault>
    requires each { length jobs.jobs ≡ length plan.states }
    ensures same { IfOk result (λ r. (r.jobs ≡ jobs) × (r.plan ≡ plan)) }
    ensures good { IfOk result (λ r. command_fault flow.now settings.now.cores (zip jobs.jobs plan.states) ≡ None) }
    ensures not { IfErr result (λ f. (f ≡ fault.OutOfMemory) ⊎ (command_fault flow.now settings.now.cores (zip jobs.jobs plan.states) ≡ Some f)) }
{
    match check_commands(alloc, flow, settings.cores, &jobs.jobs, &plan.states) {
        Ok(()) => Ok(Round { jobs, plan }),
        Err(fault) => Err(fault),
    }
}

// The plan of the jobs, by what was seen.
fn plan_seen<Rt: Threads + Sync>(
    rt: &Rt,
    alloc: Global,
    flow: &Workflow,
    settings: &Settings,
    store: &Store,
    jobs: Jobs,
    seen: &Seen,
) -> Result<Round, Fault>
    ensures no_device { device_failed result ≡ false }
    ensures no_sink { IfErr result (λ f. is_sink f ≡ false) }
    ensures jobs { IfOk result (λ r. r.jobs ≡ jobs) }
    ensures sound { IfOk result (AreSound flow.now settings.now) }
    ensures told { (image : Image) → Agree image jobs store.now seen.now settings.now.targets → spec.AreReady flow.now settings.now.targets jobs.lists image jobs
        → (read : Items ℕ → Option RecordValue) → spec.HasRound read flow.now settings.now image jobs.lists result }
{
    match planned(rt, alloc, flow, settings, store, &jobs, seen) {
        Ok(made) => checked(alloc, flow, settings, jobs, made),
        Err(fault) => Err(fault),
    }
}

// The plan of the jobs, as the folder stands.
fn plan_jobs<W: Files, Rt: Threads + Sync>(
    rt: &Rt,
    alloc: Global,
    flow: &Workflow,
    settings: &Settings,
    store: &Store,
    jobs: Jobs,
    work: &mut W,
) -> Result<Round, Fault>
    ensures looked { HasLooked W.act (W.device work.old) (W.device work.new) (device_failed result) }
    ensures no_sink { IfErr result (λ f. is_sink f ≡ false) }
    ensures jobs { IfOk result (λ r. r.jobs ≡ jobs) }
    ensures sound { IfOk result (AreSound flow.now settings.now) }
    ensures told { WhereTold (W.device work.old) (λ w. NoneOwned w → (read : Items ℕ → Option RecordValue) → IsStoreOf (seen read w) store.now
        → spec.AreReady flow.now settings.now.targets jobs.lists (seen read w) jobs → spec.HasRound read flow.now settings.now (seen read w) jobs.lists result) }
{
    match looked(rt, alloc, work, &jobs, store) {
        Ok(seen) => plan_seen(rt, alloc, flow, settings, store, jobs, &seen),
        Err(fault) => Err(fault),
    }
}

// The plan with these sources, as the folder stands.
fn plan_sources<W: Files, Rt: Threads + Sync>(
    rt: &Rt,
    alloc: Global,
    ground: &Ground<'_>,
    lists: &Listings,
    sources: &Sources,
    work: &mut W,
) -> Result<Round, Fault>
    requires { IsGround ground.now }
    ensures looked { HasLooked W.act (W.device work.old) (W.device work.new) (device_failed result) }
    ensures no_sink { IfErr result (λ f. is_sink f ≡ false) }
    ensures lists { IfOk result (λ r. r.jobs.lists ≡ lists.now) }
    ensures good { IfOk result (λ r. IsGood ground.now.flow.now ground.now.settings.now r.jobs r.plan) }
    ensures told { WhereTold (W.device work.old) (λ w. NoneOwned w → (read : Items ℕ → Option RecordValue) → IsStoreOf (seen read w) ground.now.store.now
        → ListsKnown (seen read w) → spec.IsSighted ground.now.flow.now ground.now.settings.now.targets lists.now (seen read w) sources.now
        → spec.HasRound read ground.now.flow.now ground.now.settings.now (seen read w) lists.now result) }
{
    match derived(
        alloc,
        ground.flow,
        ground.readings,
        &ground.settings.targets,
        lists,
        ground.store,
        sources,
    ) {
        Ok(jobs) => plan_jobs(
            rt,
            alloc,
            ground.flow,
            ground.settings,
            ground.store,
            jobs,
            work,
        ),
        Err(fault) => Err(fault),
    }
}

/// The plan with these listings, as the folder stands.
pub(crate) fn make_round<W: Files, Rt: Threads + Sync>(
    rt: &Rt,
    alloc: Global,
    ground: &Ground<'_>,
    lists: &Listings,
    work: &mut W,
) -> Result<Round, Fault>
    requires { IsGround ground.now }
    ensures looked { HasLooked W.act (W.device work.old) (W.device work.new) (device_failed result) }
    ensures no_sink { IfErr result (λ f. is_sink f ≡ false) }
    ensures lists { IfOk result (λ r. r.jobs.lists ≡ lists.now) }
    ensures good { IfOk result (λ r. IsGood ground.now.flow.now ground.now.settings.now r.jobs r.plan) }
    ensures told { WhereTold (W.device work.old) (λ w. NoneOwned w → (read : Items ℕ → Option RecordValue) → IsStoreOf (seen read w) ground.now.store.now
        → spec.HasRound read ground.now.flow.now ground.now.settings.now (seen read w) lists.now result) }
{
    match sighted(
        alloc,
        ground.flow,
        ground.readings,
        &ground.settings.targets,
        lists,
        ground.store,
        work,
    ) {
        Ok(sources) => plan_sources(rt, alloc, ground, lists, &sources, work),
        Err(fault) => Err(fault),
    }
}
