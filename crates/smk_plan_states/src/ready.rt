//! What is ready by the ranks of jobs: targets, and directories that are awaited.

ghost use Rattle.std.specs.Prelude.{◌≡◌, ◌++◌, ◌&&◌, not, map, filter, IfOk, OnOk, if◌then◌else◌, ◌∷◌, []};
ghost use Rattle.smk_plan.specs.States.{test_some};
ghost use Rattle.smk_plan_states.specs.Spots.{spot_in, is_ready_spot, is_over_ready};
ghost use Rattle.smk_plan_states.specs.Ranking.{is_new_awaited};

use crate::lines::{Awaited, Origin, Target};
use crate::ranks::{Rank, is_clean, rank_at};
use crate::rows::Rows;
use crate::spots::{Spot, spot_at};
use smk_base::{List, OutOfMemory, PathText};
use std::alloc::Global;

// Whether a job makes the path that is Clean, and it is whole.
fn is_ready(ranks: &[Rank], spot: Option<Spot>) -> bool
    ensures { result ≡ test_some (is_ready_spot ranks.now) spot }
{
    match spot {
        Some(spot) => is_clean(rank_at(ranks, spot.job)) && spot.whole,
        None => false,
    }
}

// The same of the directory over the path.
fn is_over_ready(ranks: &[Rank], spot: Option<Spot>) -> bool
    ensures { result ≡ test_some (is_over_ready ranks.now) spot }
{
    let Some(spot) = spot else {
        return false;
    };
    match spot.over {
        Some(whole) => is_clean(rank_at(ranks, spot.job)) && whole,
        None => false,
    }
}

/// For each target whether it is ready.
pub(crate) fn ready_in(
    alloc: Global,
    origins: &[Origin],
    rows: &Rows<'_>,
    ranks: &[Rank],
    targets: &[Target],
) -> Result<List<bool>, OutOfMemory>
    ensures { IfOk result (λ ready. ready ≡ map (λ t. test_some (is_ready_spot ranks.now) (spot_in origins.now rows.now t.link)) targets.now) }
{
    let mut ready = List::new(alloc);
    for target in targets {
        ready.push(is_ready(ranks, spot_at(origins, rows, target.link)))?;
    }
    Ok(ready)
}

// Whether the directory is ready, and has no listing.
fn is_new(ranks: &[Rank], origins: &[Origin], rows: &Rows<'_>, awaited: &Awaited) -> bool
    ensures { result ≡ is_new_awaited ranks.now (spot_in origins.now rows.now) awaited.now }
{
    let spot = spot_at(origins, rows, awaited.link);
    let ready = if awaited.over {
        is_over_ready(ranks, spot)
    } else {
        is_ready(ranks, spot)
    };
    ready && !awaited.listed
}

// Adds the path, where it is new.
fn push_new(
    alloc: Global,
    found: &mut List<PathText>,
    path: &PathText,
    fresh: bool,
) -> Result<(), OutOfMemory>
    ensures { OnOk result (found.new ≡ found.old ++ (if fresh then path.now ∷ [] else [])) }
{
    if !fresh {
        return Ok(());
    }
    found.push(path.copy(alloc)?)?;
    Ok(())
}

/// The directories that are ready and have no listing.
pub(crate) fn new_in(
    alloc: Global,
    origins: &[Origin],
    rows: &Rows<'_>,
    ranks: &[Rank],
    awaited: &[Awaited],
) -> Result<List<PathText>, OutOfMemory>
    ensures { IfOk result (λ found. found ≡ map (λ a. a.path) (filter (is_new_awaited ranks.now (spot_in origins.now rows.now)) awaited.now)) }
{
    let mut found = List::new(alloc);
    for one in awaited {
        let fresh = is_new(ranks, origins, rows, one);
        push_new(alloc, &mut found, &one.path, fresh)?;
    }
    Ok(found)
}
