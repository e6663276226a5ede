//! The directories that jobs await, and those of which a target is a member.

ghost use Rattle.std.specs.Prelude.{◌≡◌, ◌&&◌, ◌||◌, ◌++◌, ◌∷◌, [], not, map, option_map, bytes_eq, IfOk, OnOk, if◌then◌else◌};
ghost use Rattle.std.specs.BTreeSet.{contains_text};
ghost use Rattle.std.specs.List.{flat_map};
ghost use Rattle.smk_world.specs.Trees.{Path, among};
ghost use Rattle.smk_chain.specs.declared.jobs.Jobs.{Jobs as JobsValue};
ghost use Rattle.smk_chain.specs.Derive.{distinct};
ghost use Rattle.smk_plan_states.specs.Lines.{gathered_spot, over_spots, job_spots};
ghost use Rattle.smk_plan_states.specs.Tables.{same_path};
ghost use Rattle.smk_plan_states.specs.Ways.{AreWays};

use crate::lines::Awaited;
use crate::ways::{Ways, folder_told, is_listed, link_to};
use smk_base::{List, OutOfMemory, PathText};
use smk_chain::sets::put;
use smk_flow::{Gather, Job};
use smk_world::Item;
use std::alloc::Global;
use std::collections::BTreeSet;

// Adds the directory itself.
fn push_gathered(
    alloc: Global,
    found: &mut List<Awaited>,
    ways: &Ways<'_>,
    folder: &PathText,
) -> Result<(), OutOfMemory>
    ensures { OnOk result ((J : JobsValue) → AreWays J ways.now → found.new ≡ found.old ++ gathered_spot J folder.now ∷ []) }
{
    found.push(Awaited {
        path: folder.copy(alloc)?,
        link: link_to(ways, folder),
        over: false,
        listed: is_listed(ways, folder),
    })?;
    Ok(())
}

// Adds the directories that are gathered from.
fn push_gathers(
    alloc: Global,
    found: &mut List<Awaited>,
    ways: &Ways<'_>,
    gathers: &[Gather],
) -> Result<(), OutOfMemory>
    ensures { OnOk result ((J : JobsValue) → AreWays J ways.now → found.new ≡ found.old ++ map (λ g. gathered_spot J g.folder) gathers.now) }
{
    for gather in gathers {
        push_gathered(alloc, found, ways, &gather.folder)?;
    }
    Ok(())
}

// Adds the directory over the path.
fn push_over(
    alloc: Global,
    found: &mut List<Awaited>,
    ways: &Ways<'_>,
    path: &PathText,
) -> Result<(), OutOfMemory>
    ensures { OnOk result ((J : JobsValue) → AreWays J ways.now → found.new ≡ found.old ++ over_spots J path.now) }
{
    match folder_told(ways, path) {
        None => Ok(()),
        Some(folder) => {
            found.push(Awaited {
                path: folder.path.copy(alloc)?,
                link: link_to(ways, path),
                over: true,
                listed: is_listed(ways, &folder.path),
            })?;
            Ok(())
        }
    }
}

// Adds the directories over the paths.
fn push_overs(
    alloc: Global,
    found: &mut List<Awaited>,
    ways: &Ways<'_>,
    paths: &[PathText],
) -> Result<(), OutOfMemory>
    ensures { OnOk result ((J : JobsValue) → AreWays J ways.now → found.new ≡ found.old ++ flat_map (over_spots J) paths.now) }
{
    for path in paths {
        push_over(alloc, found, ways, path)?;
    }
    Ok(())
}

// Adds the directories over the paths of the items.
fn push_items_over(
    alloc: Global,
    found: &mut List<Awaited>,
    ways: &Ways<'_>,
    items: &[Item],
) -> Result<(), OutOfMemory>
    ensures { OnOk result ((J : JobsValue) → AreWays J ways.now → found.new ≡ found.old ++ flat_map (λ item. flat_map (over_spots J) item.paths) items.now) }
{
    for item in items {
        push_overs(alloc, found, ways, item.paths.as_slice())?;
    }
    Ok(())
}

// Adds the directories over those that are gathered from.
fn push_gathers_over(
    alloc: Global,
    found: &mut List<Awaited>,
    ways: &Ways<'_>,
    gathers: &[Gather],
) -> Result<(), OutOfMemory>
    ensures { OnOk result ((J : JobsValue) → AreWays J ways.now → found.new ≡ found.old ++ flat_map (λ g. over_spots J g.folder) gathers.now) }
{
    for gather in gathers {
        push_over(alloc, found, ways, &gather.folder)?;
    }
    Ok(())
}

// Adds the directories that the job awaits.
fn push_job(
    alloc: Global,
    found: &mut List<Awaited>,
    ways: &Ways<'_>,
    job: &Job,
) -> Result<(), OutOfMemory>
    ensures { OnOk result ((J : JobsValue) → AreWays J ways.now → found.new ≡ found.old ++ job_spots J job.now) }
{
    push_gathers(alloc, found, ways, job.gathers.as_slice())?;
    push_items_over(alloc, found, ways, job.recipe.inputs.as_slice())?;
    push_gathers_over(alloc, found, ways, job.gathers.as_slice())?;
    Ok(())
}

/// The directories that the jobs await, and those of which a target is a member; one may come again.
pub(crate) fn spots_in(
    alloc: Global,
    ways: &Ways<'_>,
    jobs: &[Job],
    targets: &[PathText],
) -> Result<List<Awaited>, OutOfMemory>
    ensures { IfOk result (λ found. (J : JobsValue) → AreWays J ways.now → found ≡ flat_map (job_spots J) jobs.now ++ flat_map (over_spots J) targets.now) }
{
    let mut found = List::new(alloc);
    for job in jobs {
        push_job(alloc, &mut found, ways, job)?;
    }
    push_overs(alloc, &mut found, ways, targets)?;
    Ok(found)
}

// A copy.
fn again(alloc: Global, spot: &Awaited) -> Result<Awaited, OutOfMemory>
    ensures { IfOk result (λ copy. copy ≡ spot.now) }
{
    Ok(Awaited {
        path: spot.path.copy(alloc)?,
        link: spot.link,
        over: spot.over,
        listed: spot.listed,
    })
}

// Adds the directory, where it wasn't seen.
fn push_fresh(
    alloc: Global,
    found: &mut List<Awaited>,
    seen: &mut BTreeSet<String>,
    spot: &Awaited,
    fresh: bool,
) -> Result<(), OutOfMemory>
    ensures found { OnOk result (found.new ≡ found.old ++ (if fresh then spot.now ∷ [] else [])) }
    ensures seen { OnOk result ((q : Path) → contains_text seen.new q ≡ (if fresh then (bytes_eq q spot.now.path || contains_text seen.old q) else contains_text seen.old q)) }
{
    if !fresh {
        return Ok(());
    }
    put(alloc, seen, &spot.path)?;
    found.push(again(alloc, spot)?)?;
    Ok(())
}

// Whether the directory wasn't seen.
fn is_fresh(seen: &BTreeSet<String>, spot: &Awaited) -> bool
    ensures { result ≡ not (contains_text seen.now spot.now.path) }
{
    !seen.contains(spot.path.as_str())
}

/// Each directory once, where it comes first.
pub(crate) fn each_once(alloc: Global, spots: &[Awaited]) -> Result<List<Awaited>, OutOfMemory>
    ensures { IfOk result (λ found. found ≡ distinct same_path spots.now) }
{
    let mut found = List::new(alloc);
    let mut seen = BTreeSet::new(alloc);
    for spot in spots {
        let fresh = is_fresh(&seen, spot);
        push_fresh(alloc, &mut found, &mut seen, spot, fresh)?;
    }
    Ok(found)
}

/// The set of their paths.
pub(crate) fn spot_paths(alloc: Global, spots: &[Awaited]) -> Result<BTreeSet<String>, OutOfMemory>
    ensures { IfOk result (λ set. (q : Path) → contains_text set q ≡ among (map (λ a. a.path) spots.now) q) }
{
    let mut set = BTreeSet::new(alloc);
    for spot in spots {
        put(alloc, &mut set, &spot.path)?;
    }
    Ok(set)
}
