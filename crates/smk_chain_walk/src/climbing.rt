//! How high the chains of jobs from paths are.

ghost use Rattle.std.specs.Prelude.{◌≡◌, ◌≤◌, ◌++◌, max, nat_lt, slice_get, Some, None, option_map, filter, IfOk, OnOk, if◌then◌else◌};
ghost use Rattle.smk_base.specs.Path.{is_path};
ghost use Rattle.smk_flow.specs.Flows.{Candidate, first_wants};
ghost use Rattle.smk_choose.specs.Told.{making as told_of, choice_of};
ghost use Rattle.smk_chain.specs.Derive.{wanted_paths, gathered_files};
ghost use Rattle.smk_choose_wants.specs.Wants.{ArePlaces};
ghost use Rattle.smk_chain_walk.specs.Heights.{making_in, path_of, paths_in};
ghost use Rattle.smk_chain_walk.specs.Queries.{AreTabled, IsGuided, IsJobTabled, IsTabled, KnowsHeights, TellsHeight, TellsHighest};

use crate::kept::Heights;
use crate::query::Query;
use smk_base::{List, OutOfMemory, PathText};
use smk_chain::Listings;
use smk_choose::{Choices, Chosen, Making};
use smk_choose_wants::{Places, Want, first_wants_of, gathered_files_of};
use smk_flow::Workflow;
use std::alloc::Global;

// Adds what is wanted where it is a path.
fn add_path(alloc: Global, made: &mut List<PathText>, want: &Want) -> Result<(), OutOfMemory>
    ensures { OnOk result (made.new ≡ made.old ++ path_of want.now) }
{
    match want {
        Want::Path(path) => {
            made.push(path.copy(alloc)?)?;
            Ok(())
        }
        Want::NoPath(_) => Ok(()),
    }
}

// Those that are paths.
fn paths_in(alloc: Global, wants: &[Want]) -> Result<List<PathText>, OutOfMemory>
    ensures { IfOk result (λ made. made ≡ paths_in wants.now) }
{
    let mut made = List::new(alloc);
    for want in wants {
        add_path(alloc, &mut made, want)?;
    }
    Ok(made)
}

// The paths that the job wants whatever the listings are.
fn first_paths(
    alloc: Global,
    flow: &Workflow,
    making: &Making,
) -> Result<List<PathText>, OutOfMemory>
    ensures { (c : Candidate) → slice_get flow.now.rules c.rule ≡ Some c.part → making.now ≡ told_of c
        → IfOk result (λ made. made ≡ filter is_path (first_wants flow.now c)) }
{
    let wants = first_wants_of(alloc, flow, making)?;
    let made = paths_in(alloc, wants.as_slice())?;
    Ok(made)
}

// The known files that the job gathers.
fn gathered_paths(
    alloc: Global,
    flow: &Workflow,
    lists: &Listings,
    places: &Places,
    making: &Making,
) -> Result<List<PathText>, OutOfMemory>
    requires { ArePlaces lists.now places.now }
    ensures { (c : Candidate) → slice_get flow.now.rules c.rule ≡ Some c.part → making.now ≡ told_of c
        → IfOk result (λ made. made ≡ filter is_path (gathered_files flow.now lists.now c)) }
{
    let wants = gathered_files_of(alloc, flow, lists, places, making)?;
    let made = paths_in(alloc, wants.as_slice())?;
    Ok(made)
}

// The greater of the two.
fn higher(a: u32, b: u32) -> u32
    ensures { result ≡ max a b }
{
    if a < b { b } else { a }
}

// The greater of the two heights, where there are two.
fn highest(height: u32, other: Option<u32>) -> Option<u32>
    ensures { result ≡ option_map (max height) other }
{
    match other {
        Some(other) => Some(higher(height, other)),
        None => None,
    }
}

// The height, where it is less than this.
fn below(height: u32, end: u32) -> Option<u32>
    ensures { result ≡ (if nat_lt height end then Some height else None) }
{
    if height < end { Some(height) } else { None }
}

// The job that makes the path, where one does.
fn making_at<'c>(table: &'c Choices, path: &PathText) -> Option<&'c Making>
    ensures { option_map (λ m. m.now) result ≡ making_in (choice_of table.now path.now) }
{
    match table.choice(path) {
        Some(Chosen::Make(making)) => Some(making),
        _ => None,
    }
}

/// The height of the path, where no chain of so many jobs leads from it.
#[cycle(climb)]
pub(crate) fn climb(
    alloc: Global,
    query: &Query<'_>,
    table: &Choices,
    heights: &mut Heights,
    left: u32,
    path: &PathText,
) -> Result<Option<u32>, OutOfMemory>
    requires guide { IsGuided query.now }
    requires within { left ≤ 201 }
    requires covered { IsTabled query.now table.now left path.now }
    requires known { KnowsHeights query.now heights.old }
    ensures known { OnOk result (KnowsHeights query.now heights.new) }
    ensures tells { IfOk result (λ found. TellsHeight query.now left path.now found) }
{
    if let Some(height) = heights.of(path) {
        return Ok(below(height, left));
    }
    if left == 0 {
        return Ok(None);
    }
    match making_at(table, path) {
        None => {
            heights.keep(alloc, path, 0)?;
            Ok(Some(0))
        }
        Some(making) => {
            match climb_job(alloc, query, table, heights, left - 1, making)? {
                None => Ok(None),
                Some(under) => {
                    heights.keep(alloc, path, under + 1)?;
                    Ok(below(under + 1, left))
                }
            }
        }
    }
}

// The greatest height of what the job wants, where no chain of so many jobs leads from it.
#[cycle(climb)]
fn climb_job(
    alloc: Global,
    query: &Query<'_>,
    table: &Choices,
    heights: &mut Heights,
    left: u32,
    making: &Making,
) -> Result<Option<u32>, OutOfMemory>
    requires guide { IsGuided query.now }
    requires within { left ≤ 200 }
    requires covered { IsJobTabled query.now table.now left making.now }
    requires known { KnowsHeights query.now heights.old }
    ensures known { OnOk result (KnowsHeights query.now heights.new) }
    ensures tells { (c : Candidate) → slice_get query.now.flow.now.rules c.rule ≡ Some c.part → making.now ≡ told_of c
        → IfOk result (λ found. TellsHighest query.now left (wanted_paths query.now.flow.now query.now.lists.now c) found) }
{
    let first = first_paths(alloc, query.flow, making)?;
    let Some(height) = climb_all(alloc, query, table, heights, left, first.as_slice())? else {
        return Ok(None);
    };
    let files = climb_files(alloc, query, heights, left, making)?;
    Ok(highest(height, files))
}

// The greatest height of the known files that the job gathers. They have a table of their own, since what is chosen doesn't depend on
// listings.
#[cycle(climb)]
fn climb_files(
    alloc: Global,
    query: &Query<'_>,
    heights: &mut Heights,
    left: u32,
    making: &Making,
) -> Result<Option<u32>, OutOfMemory>
    requires guide { IsGuided query.now }
    requires within { left ≤ 200 }
    requires known { KnowsHeights query.now heights.old }
    ensures known { OnOk result (KnowsHeights query.now heights.new) }
    ensures tells { (c : Candidate) → slice_get query.now.flow.now.rules c.rule ≡ Some c.part → making.now ≡ told_of c
        → IfOk result (λ found. TellsHighest query.now left (filter is_path (gathered_files query.now.flow.now query.now.lists.now c)) found) }
{
    let files = gathered_paths(alloc, query.flow, query.lists, &query.guide.places, making)?;
    if files.is_empty() {
        return Ok(Some(0));
    }
    let table = Choices::of(
        alloc,
        query.flow,
        query.guide.readings,
        query.sources,
        &files,
    )?;
    climb_all(alloc, query, &table, heights, left, files.as_slice())
}

// The greatest height of the paths, where no chain of so many jobs leads from any.
#[cycle(climb)]
fn climb_all(
    alloc: Global,
    query: &Query<'_>,
    table: &Choices,
    heights: &mut Heights,
    left: u32,
    paths: &[PathText],
) -> Result<Option<u32>, OutOfMemory>
    requires guide { IsGuided query.now }
    requires within { left ≤ 200 }
    requires covered { AreTabled query.now table.now left paths.now }
    requires known { KnowsHeights query.now heights.old }
    ensures known { OnOk result (KnowsHeights query.now heights.new) }
    ensures tells { IfOk result (λ found. TellsHighest query.now left paths.now found) }
{
    let mut height = 0;
    for path in paths {
        let Some(found) = climb(alloc, query, table, heights, left, path)? else {
            return Ok(None);
        };
        height = higher(height, found);
    }
    Ok(Some(height))
}
