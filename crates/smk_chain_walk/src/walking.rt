//! The walk from the targets.

ghost use Rattle.std.specs.Prelude.{◌≡◌, ◌≤◌, ◌+◌, [], false, IfOk, IfErr, ◌==◌};
ghost use Rattle.std.specs.List.{flat_map, AllByRecursion};
ghost use Rattle.indexmap.specs.IndexMap.{values};
ghost use Rattle.smk_choose.specs.Told.{told_by, CoversAll};
ghost use Rattle.smk_chain.specs.Derive.{height, refused, jobs};
ghost use Rattle.smk_chain.specs.declared.jobs.Jobs.{Jobs as Made};
ghost use Rattle.smk_chain.specs.Told.{TellsFirst};
ghost use Rattle.smk_choose_wants.specs.Guides.{IsGuide};
ghost use Rattle.smk_chain_walk.specs.Links.{AreLinked, IsWalk};
ghost use Rattle.smk_chain_walk.specs.Stepping.{IsWanted};
ghost use Rattle.smk_chain_walk.specs.Queries.{HasFolders, HasWalked, IsGuided, IsShallow, IsTabled};

use crate::faults;
use crate::folders::Folders;
use crate::query::Query;
use crate::reached::{Reached, makers_of};
use crate::stepping::{Step, begun, inner};
use smk_base::{List, PathText};
use smk_chain::{ChainFault, Jobs, Listings};
use smk_choose::{Choices, Sources};
use smk_choose_wants::{Guide, Want};
use smk_flow::Workflow;
use std::alloc::Global;

// The path that a job of this rule wants, which makes `path`.
fn wanted_in<'w>(
    alloc: Global,
    flow: &Workflow,
    path: &PathText,
    rule: u32,
    want: &'w Want,
) -> Result<&'w PathText, ChainFault>
    ensures { IsWanted flow.now path.now rule want.now (result) }
{
    match want {
        Want::Path(wanted) => Ok(wanted),
        Want::NoPath(text) => Err(faults::no_input(alloc, flow, path, rule, text)?),
    }
}

// Walks from the path: refuses what is refused there, walks from what its job wants, in order, and adds the job. A path that is done adds
// nothing. From the path lead chains of at most `depth` jobs, and the table has the choices for them.
fn visit(
    alloc: Global,
    query: &Query<'_>,
    folders: &Folders<'_>,
    table: &Choices,
    reached: &mut Reached,
    depth: u32,
    path: &PathText,
) -> Result<(), ChainFault>
    requires guide { IsGuided query.now }
    requires folders { HasFolders query.now folders.now }
    requires few { depth ≤ 200 }
    requires fits { IsShallow query.now depth path.now }
    requires covers { IsTabled query.now table.now (depth + 1) path.now }
    ensures { HasWalked query.now reached.old reached.new path.now result }
{
    if reached.is_done(path) {
        return Ok(());
    }
    let Some(step) = begun(
        alloc,
        query.flow,
        query.sources,
        query.lists,
        folders,
        table,
        path,
    )?
    else {
        return reached.note_source(alloc, path);
    };
    let Step { making, wants, own } = step;
    let rule = making.rule;
    let table = inner(&own, table);
    for want in wants.as_slice() {
        let wanted = wanted_in(alloc, query.flow, path, rule, want)?;
        visit(alloc, query, folders, table, reached, depth - 1, wanted)?;
    }
    reached.settle(alloc, query, path, making, wants.as_slice())
}

// Walks from each target.
fn visit_all(
    alloc: Global,
    flow: &Workflow,
    sources: &Sources,
    lists: &Listings,
    guide: &Guide<'_>,
    table: &Choices,
    targets: &List<PathText>,
) -> Result<Reached, ChainFault>
    requires guide { IsGuide flow.now lists.now guide.now }
    requires covered { CoversAll flow.now (told_by sources.now) table.now 201 targets.now }
    requires shallow { AllByRecursion (λ t. (height flow.now (told_by sources.now) lists.now 201 t == 201) ≡ false) targets.now }
    ensures none { IfOk result (λ made. flat_map (refused flow.now (told_by sources.now) lists.now 201) targets.now ≡ []) }
    ensures jobs { IfOk result (λ made. made.jobs ≡ jobs flow.now (told_by sources.now) lists.now targets.now) }
    ensures links { IfOk result (λ reached. (made : Made) → made.makers ≡ values reached.done → made.befores ≡ reached.befores
        → AreLinked flow.now (told_by sources.now) lists.now targets.now made) }
    ensures fault { IfErr result (TellsFirst flow.now (flat_map (refused flow.now (told_by sources.now) lists.now 201) targets.now)) }
{
    let query = Query {
        flow,
        sources,
        lists,
        guide,
    };
    let folders = Folders::of(alloc, lists, guide)?;
    let mut reached = Reached::new(alloc);
    for target in targets.as_slice() {
        visit(alloc, &query, &folders, table, &mut reached, 200, target)?;
    }
    Ok(reached)
}

/// The jobs that the targets call for, in plan order: each after those that make what it wants. From no target a chain of 201 jobs leads,
/// each wanting something of the next. The fault is the first thing that is refused: of each target, and then of what its job wants, in
/// order. It is a `NoRule`, `NoInput`, `Ambiguous`, `MissingMember` or `NoCommand`, or `OutOfMemory` where there is no memory for the
/// jobs, which is also the answer where there would be 2^32 of them.
///
/// The table has the choices for the targets. `makers` tells of each target and of all that the jobs want, once, what makes it; `befores` has for each job the numbers of the jobs that
/// make what it wants, each once.
pub fn walk(
    alloc: Global,
    flow: &Workflow,
    sources: &Sources,
    lists: Listings,
    guide: &Guide<'_>,
    table: &Choices,
    targets: &List<PathText>,
) -> Result<Jobs, ChainFault>
    requires guide { IsGuide flow.now lists guide.now }
    requires covered { CoversAll flow.now (told_by sources.now) table.now 201 targets.now }
    requires shallow { AllByRecursion (λ t. (height flow.now (told_by sources.now) lists 201 t == 201) ≡ false) targets.now }
    ensures walked { IfOk result (IsWalk flow.now (told_by sources.now) lists targets.now) }
    ensures fault { IfErr result (TellsFirst flow.now (flat_map (refused flow.now (told_by sources.now) lists 201) targets.now)) }
{
    let reached = visit_all(alloc, flow, sources, &lists, guide, table, targets)?;
    let Reached {
        done,
        jobs,
        befores,
        texts: _texts,
    } = reached;
    let makers = makers_of(alloc, done)?;
    Ok(Jobs {
        jobs,
        befores,
        makers,
        lists,
    })
}
