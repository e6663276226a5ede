//! The first target from which too long a chain leads.

ghost use Rattle.std.specs.Prelude.{◌≡◌, ◌==◌, IfOk, OnOk};
ghost use Rattle.std.specs.List.{find};
ghost use Rattle.smk_world.specs.Trees.{Path};
ghost use Rattle.smk_choose.specs.Told.{told_by, CoversAll};
ghost use Rattle.smk_chain.specs.Derive.{height};
ghost use Rattle.smk_choose_wants.specs.Guides.{IsGuide};
ghost use Rattle.smk_chain_walk.specs.Queries.{IsGuided, IsTabled, KnowsHeights};

use crate::climbing::climb;
use crate::kept::Heights;
use crate::query::Query;
use smk_base::{List, OutOfMemory, PathText};
use smk_chain::Listings;
use smk_choose::{Choices, Sources};
use smk_choose_wants::Guide;
use smk_flow::Workflow;
use std::alloc::Global;

// Whether a chain of 201 jobs leads from the path.
#[tactic(auto, using(crate::proofs::Climbed::is_deep, crate::proofs::Climbed::is_flat))]
fn is_deep(
    alloc: Global,
    query: &Query<'_>,
    table: &Choices,
    heights: &mut Heights,
    path: &PathText,
) -> Result<bool, OutOfMemory>
    requires guide { IsGuided query.now }
    requires covered { IsTabled query.now table.now 201 path.now }
    requires known { KnowsHeights query.now heights.old }
    ensures known { OnOk result (KnowsHeights query.now heights.new) }
    ensures is { IfOk result (λ deep. deep ≡ (height query.now.flow.now (told_by query.now.sources.now) query.now.lists.now 201 path.now == 201)) }
{
    match climb(alloc, query, table, heights, 201, path)? {
        Some(_) => Ok(false),
        None => Ok(true),
    }
}

/// The first of the targets from which a chain of 201 chosen jobs leads, each wanting something of the next; `None` where from none such
/// a chain leads. `OutOfMemory` where there is no memory to find out.
///
/// Each path is gone to once: its height is kept, and the search ends at the first chain that is too long, so at a cycle too. The table has the
/// choices for the targets; for the known files that a job gathers one is made for each such job.
pub fn first_deep(
    alloc: Global,
    flow: &Workflow,
    sources: &Sources,
    lists: &Listings,
    guide: &Guide<'_>,
    table: &Choices,
    targets: &List<PathText>,
) -> Result<Option<PathText>, OutOfMemory>
    requires guide { IsGuide flow.now lists.now guide.now }
    requires covered { CoversAll flow.now (told_by sources.now) table.now 201 targets.now }
    ensures { IfOk result (λ found. found ≡ find (λ (p : Path). height flow.now (told_by sources.now) lists.now 201 p == 201) targets.now) }
{
    let query = Query {
        flow,
        sources,
        lists,
        guide,
    };
    let mut heights = Heights::new(alloc);
    for target in targets.as_slice() {
        if is_deep(alloc, &query, table, &mut heights, target)? {
            return Ok(Some(target.copy(alloc)?));
        }
    }
    Ok(None)
}
