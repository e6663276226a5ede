//! A derivation: chains that are too long, then the walk from the targets, then outputs and logs that overlap.

ghost use Rattle.std.specs.Prelude.{◌≡◌, ◌==◌, [], false, IfOk, IfErr};
ghost use Rattle.std.specs.List.{AllByRecursion, flat_map};
ghost use Rattle.smk_choose.specs.Index.{AreReadings};
ghost use Rattle.smk_choose.specs.Told.{told_by, CoversAll};
ghost use Rattle.smk_store.specs.Images.{Image};
ghost use Rattle.smk_store.specs.Loading.{IsStoreOf};
ghost use Rattle.smk_chain.specs.Derive.{height, clashes, spots};
ghost use Rattle.smk_chain.specs.Told.{TellsFirst};
ghost use Rattle.smk_chain_derive.specs.Clashes.{ListsKnown, clashes_in};
ghost use Rattle.smk_chain_derive.specs.Derived.{IsDerived, IsFirstRefusal};
ghost use Rattle.smk_choose_wants.specs.Guides.{IsGuide};

use crate::first_clash;
use smk_base::{List, OutOfMemory, PathText};
use smk_chain::{ChainFault, Jobs, Listings};
use smk_chain_walk::{first_deep, walk};
use smk_choose::{Choices, Readings, Sources};
use smk_choose_wants::Guide;
use smk_flow::Workflow;
use smk_store::Store;
use std::alloc::Global;

// What a derivation goes by, made once for the chains and for the walk: what is known of rules and listings, and the choices for the targets.
#[derive(Drop)]
struct Ground<'r> {
    guide: Guide<'r>,
    table: Choices,
}

// What the derivation for these targets goes by.
fn ground_of<'r>(
    alloc: Global,
    flow: &Workflow,
    readings: &'r Readings,
    sources: &Sources,
    lists: &Listings,
    targets: &List<PathText>,
) -> Result<Ground<'r>, OutOfMemory>
    requires { AreReadings flow.now readings.now }
    ensures guide { IfOk result (λ ground. IsGuide flow.now lists.now ground.guide) }
    ensures covered { IfOk result (λ ground. CoversAll flow.now (told_by sources.now) ground.table 201 targets.now) }
{
    let guide = Guide::of(alloc, readings, lists)?;
    let table = Choices::of(alloc, flow, readings, sources, targets)?;
    Ok(Ground { guide, table })
}

// The jobs, unless their outputs and logs overlap.
fn unless_clashing(
    alloc: Global,
    flow: &Workflow,
    store: &Store,
    made: Jobs,
) -> Result<Jobs, ChainFault>
    ensures same { IfOk result (λ kept. kept ≡ made) }
    ensures none { IfOk result (λ kept. (image : Image) → IsStoreOf image store.now → ListsKnown image
        → clashes image [] (flat_map spots made.jobs) ≡ []) }
    ensures apart { IfOk result (λ kept. clashes_in store.now [] (flat_map spots made.jobs) ≡ []) }
    ensures fault { IfErr result (λ fault. (image : Image) → IsStoreOf image store.now → ListsKnown image
        → TellsFirst flow.now (clashes image [] (flat_map spots made.jobs)) fault) }
{
    match first_clash(alloc, store, &made.jobs)? {
        None => Ok(made),
        Some((path, other)) => Err(ChainFault::Clash { path, other }),
    }
}

// The jobs that targets call for from which no chain is too long.
fn derive_shallow(
    alloc: Global,
    flow: &Workflow,
    sources: &Sources,
    lists: Listings,
    ground: &Ground<'_>,
    store: &Store,
    targets: &List<PathText>,
) -> Result<Jobs, ChainFault>
    requires guide { IsGuide flow.now lists ground.now.guide }
    requires covered { CoversAll flow.now (told_by sources.now) ground.now.table 201 targets.now }
    requires shallow { AllByRecursion (λ t. (height flow.now (told_by sources.now) lists 201 t == 201) ≡ false) targets.now }
    ensures derived { IfOk result (IsDerived flow.now (told_by sources.now) lists store.now targets.now) }
    ensures fault { IfErr result (IsFirstRefusal flow.now (told_by sources.now) lists store.now targets.now) }
{
    match walk(
        alloc,
        flow,
        sources,
        lists,
        &ground.guide,
        &ground.table,
        targets,
    ) {
        Ok(made) => unless_clashing(alloc, flow, store, made),
        Err(fault) => Err(fault),
    }
}

// The jobs that the targets call for, or the first thing that is wrong, by what the derivation goes by.
fn derive_by(
    alloc: Global,
    flow: &Workflow,
    sources: &Sources,
    lists: Listings,
    ground: &Ground<'_>,
    store: &Store,
    targets: &List<PathText>,
) -> Result<Jobs, ChainFault>
    requires guide { IsGuide flow.now lists ground.now.guide }
    requires covered { CoversAll flow.now (told_by sources.now) ground.now.table 201 targets.now }
    ensures derived { IfOk result (IsDerived flow.now (told_by sources.now) lists store.now targets.now) }
    ensures fault { IfErr result (IsFirstRefusal flow.now (told_by sources.now) lists store.now targets.now) }
{
    match first_deep(
        alloc,
        flow,
        sources,
        &lists,
        &ground.guide,
        &ground.table,
        targets,
    ) {
        Ok(Some(path)) => Err(ChainFault::Deep { path }),
        Ok(None) => derive_shallow(alloc, flow, sources, lists, ground, store, targets),
        Err(_) => Err(ChainFault::OutOfMemory),
    }
}

/// The jobs that the targets call for with these listings, in plan order, each after those that it needs. The fault is the first thing that is
/// wrong: first chains of more than 200 jobs, by target; then what can't be made, where the walk from the targets comes to it; then
/// outputs and logs that overlap or are in the way of what the store has. What was read of the rules is given. `OutOfMemory` where there is no
/// memory for the jobs.
pub fn derive(
    alloc: Global,
    flow: &Workflow,
    readings: &Readings,
    sources: &Sources,
    lists: Listings,
    store: &Store,
    targets: &List<PathText>,
) -> Result<Jobs, ChainFault>
    requires { AreReadings flow.now readings.now }
    ensures derived { IfOk result (IsDerived flow.now (told_by sources.now) lists store.now targets.now) }
    ensures fault { IfErr result (IsFirstRefusal flow.now (told_by sources.now) lists store.now targets.now) }
{
    match ground_of(alloc, flow, readings, sources, &lists, targets) {
        Ok(ground) => derive_by(alloc, flow, sources, lists, &ground, store, targets),
        Err(_) => Err(ChainFault::OutOfMemory),
    }
}
