//! Digests of files, put to what was seen of these.

ghost use Rattle.std.specs.Prelude.{◌≡◌, ◌++◌, ◌∷◌, List as Items, IfOk, OnOk, reverse};
ghost use Rattle.std.specs.BTreeSet.{contains_text};
ghost use Rattle.smk_world.specs.Calls.{device_failed};
ghost use Rattle.smk_world.specs.Devices.{HasLooked, WhereTold};
ghost use Rattle.smk_digest.specs.Digests.{AreSums};
ghost use Rattle.smk_plan.specs.Sights.{AreRising};
ghost use Rattle.smk_plan.specs.declared.seen.Sight.{Sight as SightValue};
ghost use Rattle.smk_plan_look.specs.Needs.{needs_digest};
ghost use Rattle.smk_plan_look.specs.Putting.{HavePut, next_sum, path_if, paths_where, put_sums, sums_after, with_sum};
ghost use Rattle.smk_plan_look.specs.Seeing.{work_fault};

use crate::needs::needed_in;
use smk_base::{List, OutOfMemory, PathText, Sum};
use smk_chain::Jobs;
use smk_digest::{SumFault, sums};
use smk_plan::{Seen, Sight};
use smk_store::Store;
use smk_world::{Files, WorkFault};
use std::alloc::Global;
use std::collections::BTreeSet;
use std::thread::Threads;

// Whether the path of the sight is in the set.
fn is_among(paths: &BTreeSet<String>, sight: &Sight) -> bool
    ensures { result ≡ contains_text paths.now sight.now.path }
{
    paths.contains(sight.path.as_str())
}

// Adds the path of the sight, where it is in the set.
fn push_path(
    alloc: Global,
    paths: &mut List<PathText>,
    needed: &BTreeSet<String>,
    sight: &Sight,
) -> Result<(), OutOfMemory>
    ensures { OnOk result (paths.new ≡ paths.old ++ path_if (contains_text needed.now) sight.now) }
{
    if !is_among(needed, sight) {
        return Ok(());
    }
    paths.push(sight.path.copy(alloc)?)?;
    Ok(())
}

// Those paths of the sights that are in the set, in order.
fn paths_where(
    alloc: Global,
    needed: &BTreeSet<String>,
    sights: &[Sight],
) -> Result<List<PathText>, OutOfMemory>
    ensures { IfOk result (λ paths. paths ≡ paths_where (contains_text needed.now) sights.now) }
{
    let mut paths = List::new(alloc);
    for sight in sights {
        push_path(alloc, &mut paths, needed, sight)?;
    }
    Ok(paths)
}

// The same fault.
fn fault_of(fault: SumFault) -> WorkFault
    ensures { result ≡ work_fault fault }
{
    match fault {
        SumFault::Device => WorkFault::Failed,
        SumFault::OutOfMemory => WorkFault::OutOfMemory,
    }
}

// The digests of the files at the paths.
fn sums_at<W: Files, Rt: Threads + Sync>(
    rt: &Rt,
    alloc: Global,
    work: &mut W,
    paths: &List<PathText>,
) -> Result<List<Option<Sum>>, WorkFault>
    ensures looked { HasLooked W.act (W.device work.old) (W.device work.new) (device_failed result) }
    ensures told { IfOk result (λ found. WhereTold (W.device work.old) (λ w. AreSums w paths.now found)) }
{
    match sums(rt, alloc, work, paths) {
        Ok(found) => Ok(found),
        Err(fault) => Err(fault_of(fault)),
    }
}

// The sight with this digest.
fn with_sum(sight: Sight, sum: Option<Sum>) -> Sight
    ensures { result ≡ with_sum sight sum }
{
    Sight {
        path: sight.path,
        stat: sight.stat,
        members: sight.members,
        guarded: sight.guarded,
        sum,
    }
}

// The first digest, where one is needed.
fn next_sum(is_needed: bool, sums: &[Option<Sum>]) -> Option<Sum>
    ensures { result ≡ next_sum is_needed sums.now }
{
    if !is_needed {
        return None;
    }
    match sums.split_first() {
        None => None,
        Some((sum, _)) => *sum,
    }
}

// The digests after it.
fn sums_after(is_needed: bool, sums: &[Option<Sum>]) -> &[Option<Sum>]
    ensures { result.now ≡ sums_after is_needed sums.now }
{
    if !is_needed {
        return sums;
    }
    match sums.split_first() {
        None => sums,
        Some((_, rest)) => rest,
    }
}

// Adds the sight with the first digest, where its path is in the set. The digests that are left are the answer.
fn push_summed<'s>(
    found: &mut List<Sight>,
    needed: &BTreeSet<String>,
    sight: Sight,
    sums: &'s [Option<Sum>],
) -> Result<&'s [Option<Sum>], OutOfMemory>
    ensures { IfOk result (λ rest. (later : Items SightValue) → found.new ++ put_sums (contains_text needed.now) later rest.now
        ≡ found.old ++ put_sums (contains_text needed.now) (sight ∷ later) sums.now) }
{
    let is_needed = is_among(needed, &sight);
    found.push(with_sum(sight, next_sum(is_needed, sums)))?;
    Ok(sums_after(is_needed, sums))
}

// The sights from the last to the first.
fn turned(alloc: Global, sights: List<Sight>) -> Result<List<Sight>, OutOfMemory>
    ensures { IfOk result (λ found. found ≡ reverse sights) }
{
    let mut left = sights;
    let mut found = List::new(alloc);
    'sights: while let Some(sight) = left.pop() {
        found.push(sight)?;
    }
    Ok(found)
}

// The sights, which are given from the last to the first, with these digests where their paths are in the set.
fn put_sums(
    alloc: Global,
    needed: &BTreeSet<String>,
    from_last: List<Sight>,
    sums: &[Option<Sum>],
) -> Result<List<Sight>, OutOfMemory>
    ensures { IfOk result (λ found. found ≡ put_sums (contains_text needed.now) (reverse from_last) sums.now) }
{
    let mut left = from_last;
    let mut found = List::new(alloc);
    let mut rest = sums;
    'sights: while let Some(sight) = left.pop() {
        rest = push_summed(&mut found, needed, sight, rest)?;
    }
    Ok(found)
}

// The sights with digests where their paths are in the set.
fn with_sums<W: Files, Rt: Threads + Sync>(
    rt: &Rt,
    alloc: Global,
    work: &mut W,
    needed: &BTreeSet<String>,
    sights: List<Sight>,
) -> Result<List<Sight>, WorkFault>
    ensures looked { HasLooked W.act (W.device work.old) (W.device work.new) (device_failed result) }
    ensures put { IfOk result (λ found. HavePut (W.device work.old) (contains_text needed.now) sights found) }
{
    let paths = paths_where(alloc, needed, sights.as_slice())?;
    let digests = sums_at(rt, alloc, work, &paths)?;
    let from_last = turned(alloc, sights)?;
    let found = put_sums(alloc, needed, from_last, digests.as_slice())?;
    Ok(found)
}

/// The same sights, with digests of the files where the jobs need them by the store's records.
pub(crate) fn summed<W: Files, Rt: Threads + Sync>(
    rt: &Rt,
    alloc: Global,
    work: &mut W,
    jobs: &Jobs,
    store: &Store,
    seen: Seen,
) -> Result<Seen, WorkFault>
    ensures looked { HasLooked W.act (W.device work.old) (W.device work.new) (device_failed result) }
    ensures put { IfOk result (λ found. HavePut (W.device work.old) (needs_digest store.now jobs.now seen) seen found) }
{
    let needed = needed_in(alloc, store, &seen, jobs)?;
    let sights = with_sums(rt, alloc, work, &needed, seen.into_sights())?;
    Ok(Seen::of(sights))
}
