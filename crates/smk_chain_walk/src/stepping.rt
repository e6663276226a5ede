//! One step of a walk: what is refused at a path, and what the job that makes it wants.

ghost use Rattle.std.specs.Prelude.{◌≡◌, ◌++◌, [], Bool, IfOk, IfErr, OnOk, Some, map, option_map, is_some};
ghost use Rattle.std.specs.List.{flat_map};
ghost use Rattle.smk_world.specs.Trees.{Path, folder_over};
ghost use Rattle.smk_flow.specs.Flows.{Candidate};
ghost use Rattle.smk_choose.specs.Choose.{Sources as Which, Make, choose};
ghost use Rattle.smk_choose.specs.Index.{AreReadings};
ghost use Rattle.smk_choose.specs.Told.{told_by, told_choice, choice_of, making as making_of};
ghost use Rattle.smk_chain.specs.Derive.{Listings as Lists, refused_at, recipe, is_missing, wants, gathered_files};
ghost use Rattle.smk_chain.specs.Told.{TellsFirst};
ghost use Rattle.smk_choose_wants.specs.Wants.{IsChosen, want_of};
ghost use Rattle.smk_chain_walk.specs.Folders.{AreFolders};
ghost use Rattle.smk_chain_walk.specs.Stepping.{over_in, outs_in, path_in, IsInner, IsPermitted, IsBegun, inner_table};

use crate::faults;
use crate::folders::Folders;
use crate::parts::part_at;
use smk_base::{List, OutOfMemory, PathText};
use smk_chain::{ChainFault, Listings};
use smk_choose::{Choices, Chosen, Making, Readings, Sources};
use smk_choose_wants::{Want, declared_of, gathered_files_of, wants_of};
use smk_flow::Workflow;
use smk_world::{Kind, Out, OutItem};
use std::alloc::Global;

// The first of these outputs that is a directory and has the path under it.
fn first_over<'o>(outs: &'o [Out], path: &PathText) -> Option<&'o PathText>
    ensures { option_map (λ f. f.now) result ≡ over_in outs.now path.now }
{
    for out in outs {
        if matches!(out.kind, Kind::Folder) && path.is_under(&out.path) {
            return Some(&out.path);
        }
    }
    None
}

// The directory output under which the path lies.
fn folder_over<'o>(items: &'o [OutItem], path: &PathText) -> Option<&'o PathText>
    ensures { option_map (λ f. f.now) result ≡ over_in (outs_in items.now) path.now }
{
    for item in items {
        match first_over(item.outs.as_slice(), path) {
            Some(folder) => return Some(folder),
            None => continue,
        }
    }
    None
}

// Whether the directory of which the path is a member has a known listing, and the path isn't there.
fn is_missing(
    alloc: Global,
    flow: &Workflow,
    lists: &Listings,
    folders: &Folders<'_>,
    making: &Making,
    path: &PathText,
) -> Result<bool, OutOfMemory>
    requires folders { AreFolders flow.now lists.now folders.now }
    requires chosen { IsChosen flow.now making.now }
    ensures { (sources : Which) (p : Path) (c : Candidate) → choose flow.now sources p ≡ Make c → making.now ≡ making_of c
        → IfOk result (λ lacks. lacks ≡ is_missing lists.now path.now (folder_over (recipe flow.now lists.now c) path.now)) }
{
    if lists.is_empty() {
        return Ok(false);
    }
    let job = declared_of(alloc, flow, making)?;
    match folder_over(job.recipe.outputs.as_slice(), path) {
        Some(folder) => Ok(folders.lacks(folder, path)),
        None => Ok(false),
    }
}

// Whether the rule has a command.
fn has_command(flow: &Workflow, making: &Making) -> bool
    ensures { (sources : Which) (p : Path) (c : Candidate) → choose flow.now sources p ≡ Make c → making.now ≡ making_of c
        → result ≡ is_some c.part.command }
{
    match part_at(flow, making.rule) {
        Some(part) => part.command.is_some(),
        None => false,
    }
}

// That nothing is refused of the path itself, which the job makes.
fn check(
    alloc: Global,
    flow: &Workflow,
    lists: &Listings,
    folders: &Folders<'_>,
    making: &Making,
    path: &PathText,
) -> Result<(), ChainFault>
    requires folders { AreFolders flow.now lists.now folders.now }
    requires chosen { IsChosen flow.now making.now }
    ensures fault { (sources : Which) (p : Path) (c : Candidate) → choose flow.now sources p ≡ Make c → making.now ≡ making_of c
        → IfErr result (TellsFirst flow.now (refused_at flow.now lists.now path.now (Make c))) }
    ensures calm { (sources : Which) (p : Path) (c : Candidate) → choose flow.now sources p ≡ Make c → making.now ≡ making_of c
        → OnOk result (refused_at flow.now lists.now path.now (Make c) ≡ []) }
{
    if is_missing(alloc, flow, lists, folders, making, path)? {
        return Err(faults::missing(alloc, path)?);
    }
    if !has_command(flow, making) {
        return Err(faults::no_command(alloc, flow, making.rule)?);
    }
    Ok(())
}

// The job that is chosen for the path, lent, where nothing is refused of the path itself. None for a source.
fn permitted<'t>(
    alloc: Global,
    flow: &Workflow,
    sources: &Sources,
    lists: &Listings,
    folders: &Folders<'_>,
    table: &'t Choices,
    path: &PathText,
) -> Result<Option<&'t Making>, ChainFault>
    requires folders { AreFolders flow.now lists.now folders.now }
    requires known { choice_of table.now path.now ≡ Some (told_choice (choose flow.now (told_by sources.now) path.now)) }
    ensures fault { IfErr result (TellsFirst flow.now (refused_at flow.now lists.now path.now (choose flow.now (told_by sources.now) path.now))) }
    ensures permitted { IfOk result (λ found. IsPermitted flow.now (told_by sources.now) lists.now path.now (option_map (λ m. m.now) found)) }
{
    match table.choice(path) {
        None => Err(ChainFault::OutOfMemory),
        Some(Chosen::Source) => Ok(None),
        Some(Chosen::Make(making)) => {
            check(alloc, flow, lists, folders, making, path)?;
            Ok(Some(making))
        }
        Some(Chosen::Nothing(lack)) => Err(faults::nothing(alloc, flow, path, lack)?),
        Some(Chosen::Ambiguous(one, other)) => {
            Err(faults::ambiguous(alloc, flow, path, *one, *other)?)
        }
    }
}

// Adds a copy of the path, where one is wanted.
fn add_path(alloc: Global, paths: &mut List<PathText>, want: &Want) -> Result<(), OutOfMemory>
    ensures { OnOk result (paths.new ≡ paths.old ++ path_in want.now) }
{
    match want {
        Want::Path(path) => paths.push(path.copy(alloc)?)?,
        Want::NoPath(_) => {}
    }
    Ok(())
}

// Copies of the paths among these.
fn paths_of(alloc: Global, wants: &[Want]) -> Result<List<PathText>, OutOfMemory>
    ensures { IfOk result (λ paths. paths ≡ flat_map path_in wants.now) }
{
    let mut paths = List::new(alloc);
    for want in wants {
        add_path(alloc, &mut paths, want)?;
    }
    Ok(paths)
}

// A table of choices for these wants, where the job gathers files, since others don't have those.
fn own_table(
    alloc: Global,
    flow: &Workflow,
    readings: &Readings,
    sources: &Sources,
    files: &[Want],
    wanted: &[Want],
) -> Result<Option<Choices>, OutOfMemory>
    requires { AreReadings flow.now readings.now }
    ensures { (L : Lists) (c : Candidate) → files.now ≡ map want_of (gathered_files flow.now L c) → wanted.now ≡ map want_of (wants flow.now L c)
        → IfOk result (λ own. IsInner flow.now (told_by sources.now) L c own) }
{
    if files.is_empty() {
        return Ok(None);
    }
    let paths = paths_of(alloc, wanted)?;
    Ok(Some(Choices::of(alloc, flow, readings, sources, &paths)?))
}

/// What is walked at a path: the job that makes it, what that wants, and the choices for those, where they have a table of their own.
#[derive(Drop)]
pub(crate) struct Step<'t> {
    pub(crate) making: &'t Making,
    pub(crate) wants: List<Want>,
    pub(crate) own: Option<Choices>,
}

// What the job wants, and a table of its own where it gathers files.
fn prepared(
    alloc: Global,
    flow: &Workflow,
    sources: &Sources,
    lists: &Listings,
    folders: &Folders<'_>,
    making: &Making,
) -> Result<(List<Want>, Option<Choices>), ChainFault>
    requires folders { AreFolders flow.now lists.now folders.now }
    requires chosen { IsChosen flow.now making.now }
    ensures memory { IfErr result (λ fault. fault ≡ ChainFault.OutOfMemory) }
    ensures wants { (p : Path) (c : Candidate) → choose flow.now (told_by sources.now) p ≡ Make c → making.now ≡ making_of c
        → IfOk result (λ made. (made.0 ≡ map want_of (wants flow.now lists.now c)) × IsInner flow.now (told_by sources.now) lists.now c made.1) }
{
    let wants = wants_of(alloc, flow, lists, &folders.guide.places, making)?;
    let files = gathered_files_of(alloc, flow, lists, &folders.guide.places, making)?;
    let own = own_table(
        alloc,
        flow,
        folders.guide.readings,
        sources,
        files.as_slice(),
        wants.as_slice(),
    )?;
    Ok((wants, own))
}

/// The step at the path, whose choice the table has. None for a source. The fault is what is refused of the path itself.
pub(crate) fn begun<'t>(
    alloc: Global,
    flow: &Workflow,
    sources: &Sources,
    lists: &Listings,
    folders: &Folders<'_>,
    table: &'t Choices,
    path: &PathText,
) -> Result<Option<Step<'t>>, ChainFault>
    requires folders { AreFolders flow.now lists.now folders.now }
    requires known { choice_of table.now path.now ≡ Some (told_choice (choose flow.now (told_by sources.now) path.now)) }
    ensures fault { IfErr result (TellsFirst flow.now (refused_at flow.now lists.now path.now (choose flow.now (told_by sources.now) path.now))) }
    ensures begun { IfOk result (IsBegun flow.now (told_by sources.now) lists.now path.now) }
{
    let Some(making) = permitted(alloc, flow, sources, lists, folders, table, path)? else {
        return Ok(None);
    };
    let (wants, own) = prepared(alloc, flow, sources, lists, folders, making)?;
    Ok(Some(Step { making, wants, own }))
}

/// The table for what a step wants: its own, or the one at hand.
pub(crate) fn inner<'t>(own: &'t Option<Choices>, table: &'t Choices) -> &'t Choices
    ensures { result.now ≡ inner_table own.now table.now }
{
    match own {
        Some(own) => own,
        None => table,
    }
}
