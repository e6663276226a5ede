//! The first two that overlap.

ghost use Rattle.std.specs.Prelude.{◌≡◌, ◌++◌, [], ◌∷◌, IfOk, filter, option_map, true, false};
ghost use Rattle.std.specs.List.{flat_map};
ghost use Rattle.std.specs.BTreeSet.{contains_text};
ghost use Rattle.smk_base.specs.Path.{overlaps};
ghost use Rattle.smk_world.specs.Trees.{Path, first, among};
ghost use Rattle.smk_store.specs.Images.{Image};
ghost use Rattle.smk_store.specs.Loading.{IsStoreOf};
ghost use Rattle.smk_chain.specs.Derive.{spots, clashes};
ghost use Rattle.smk_chain_derive.specs.Clashes.{clash_of, ListsKnown, paths_in, hinders_in, clashes_in, spot_paths};

use crate::known::known_in;
use crate::lookup::has_other;
use crate::spot::{Spot, spots_of};
use smk_base::{List, OutOfMemory, PathText};
use smk_chain::sets::{put, set_of};
use smk_flow::Job;
use smk_store::Store;
use std::alloc::Global;
use std::collections::BTreeSet;

// The first of these that overlaps the path.
fn first_overlapping(
    alloc: Global,
    earlier: &[Spot],
    path: &PathText,
) -> Result<Option<PathText>, OutOfMemory>
    ensures { IfOk result (λ other. other ≡ first (filter (overlaps path.now) (spot_paths earlier.now))) }
{
    for spot in earlier {
        if path.overlaps(&spot.0) {
            return Ok(Some(spot.0.copy(alloc)?));
        }
    }
    Ok(None)
}

// Whether an earlier one overlaps the path. It is looked up by the paths that do.
fn is_taken(alloc: Global, taken: &BTreeSet<String>, path: &PathText) -> Result<bool, OutOfMemory>
    ensures { IfOk result (λ found. found ≡ false → (q : Path) → overlaps path.now q ≡ true → contains_text taken.now q ≡ false) }
{
    if taken.contains(path.as_str()) {
        return Ok(true);
    }
    let other = has_other(alloc, taken, path)?;
    Ok(other)
}

// The first of the earlier ones that overlaps the path.
fn earlier_in(
    alloc: Global,
    taken: &BTreeSet<String>,
    earlier: &[Spot],
    path: &PathText,
) -> Result<Option<PathText>, OutOfMemory>
    requires taken { (q : Path) → contains_text taken.now q ≡ among (spot_paths earlier.now) q }
    ensures { IfOk result (λ other. other ≡ first (filter (overlaps path.now) (spot_paths earlier.now))) }
{
    if !is_taken(alloc, taken, path)? {
        return Ok(None);
    }
    first_overlapping(alloc, earlier, path)
}

// The first that overlaps the output or log: of the earlier ones, in their order, and then of what is known, in byte order.
fn other_in(
    alloc: Global,
    store: &Store,
    known: &BTreeSet<String>,
    taken: &BTreeSet<String>,
    earlier: &[Spot],
    spot: &Spot,
) -> Result<Option<PathText>, OutOfMemory>
    requires known { (q : Path) → contains_text known.now q ≡ among (paths_in store.now) q }
    requires taken { (q : Path) → contains_text taken.now q ≡ among (spot_paths earlier.now) q }
    ensures { IfOk result (λ other. other ≡ first (filter (overlaps spot.now.0) (spot_paths earlier.now) ++ filter (hinders_in store.now spot.now) (paths_in store.now))) }
{
    match earlier_in(alloc, taken, earlier, &spot.0)? {
        Some(other) => Ok(Some(other)),
        None => known_in(alloc, store, known, spot),
    }
}

// The first two that overlap, by the store.
fn clash_in(
    alloc: Global,
    store: &Store,
    known: &BTreeSet<String>,
    spots: &[Spot],
) -> Result<Option<(PathText, PathText)>, OutOfMemory>
    requires known { (q : Path) → contains_text known.now q ≡ among (paths_in store.now) q }
    ensures { IfOk result (λ found. option_map clash_of found ≡ first (clashes_in store.now [] spots.now)) }
{
    let mut taken = BTreeSet::new(alloc);
    for (number, spot) in spots.iter().enumerate() {
        match other_in(alloc, store, known, &taken, &spots[..number], spot)? {
            Some(other) => return Ok(Some((spot.0.copy(alloc)?, other))),
            None => put(alloc, &mut taken, &spot.0)?,
        }
    }
    Ok(None)
}

// The same for the outputs and logs of the jobs. The paths are those of the store.
fn clash_of_jobs(
    alloc: Global,
    store: &Store,
    paths: &[PathText],
    jobs: &[Job],
) -> Result<Option<(PathText, PathText)>, OutOfMemory>
    requires paths { paths.now ≡ paths_in store.now }
    ensures { IfOk result (λ found. option_map clash_of found ≡ first (clashes_in store.now [] (flat_map spots jobs.now))) }
{
    let known = set_of(alloc, paths)?;
    let spots = spots_of(alloc, jobs)?;
    clash_in(alloc, store, &known, spots.as_slice())
}

/// The first two that overlap, in plan order: the outputs and then the logs of each job, each against the earlier ones, and then
/// against the records, marks and notes of others, in byte order. `None` where no two do.
///
/// The time is near linear in the number of outputs, logs and known paths: each is looked up by the folders above it and by what
/// lies under it.
pub fn first_clash(
    alloc: Global,
    store: &Store,
    jobs: &List<Job>,
) -> Result<Option<(PathText, PathText)>, OutOfMemory>
    ensures first { IfOk result (λ found. (image : Image) → IsStoreOf image store.now → ListsKnown image
        → option_map clash_of found ≡ first (clashes image [] (flat_map spots jobs.now))) }
    // whatever the store is of
    ensures by_store { IfOk result (λ found. option_map clash_of found ≡ first (clashes_in store.now [] (flat_map spots jobs.now))) }
{
    let paths = store.paths();
    let found = clash_of_jobs(alloc, store, paths.as_slice(), jobs.as_slice())?;
    Ok(found)
}
