//! The paths of a reach, level by level.

ghost use Rattle.std.specs.Prelude.{◌≡◌, ◌++◌, ◌∷◌, [], ◌||◌, ℕ, nat_lt, length, drop, bytes_eq, IfOk, OnOk};
ghost use Rattle.std.specs.BTreeSet.{contains_text};
ghost use Rattle.std.specs.List.{AllByRecursion, flat_map};
ghost use Rattle.smk_world.specs.Calls.{device_failed};
ghost use Rattle.smk_world.specs.Devices.{HasLooked};
ghost use Rattle.smk_world.specs.Trees.{Path};
ghost use Rattle.smk_choose.specs.Choose.{Sources as Known};
ghost use Rattle.smk_choose.specs.Index.{AreReadings};
ghost use Rattle.smk_chain.specs.Derive.{distinct, next};
ghost use Rattle.smk_choose_wants.specs.Guides.{IsGuide};
ghost use Rattle.smk_choose_wants.specs.Wants.{ArePlaces};
ghost use Rattle.smk_chain_sight.specs.Telling.{HasTold, IsListedAround, Says};
ghost use Rattle.smk_chain_sight.specs.Reaching.{AreKept, path_of, paths_by, IsPlaced, Advanced, HasSpread, IsSpread};

use crate::telling::{Eye, tell_around};
use smk_base::{List, OutOfMemory, PathText};
use smk_chain::Listings;
use smk_choose::{Making, Readings};
use smk_choose_wants::{Guide, Places, Want, wants_of};
use smk_flow::Workflow;
use smk_store::Store;
use smk_world::{Files, WorkFault};
use std::alloc::Global;
use std::collections::BTreeSet;

/// A reach may have no more paths.
pub(crate) const LIMIT: usize = 100_000;

/// Paths in the order in which they were found, each once.
#[derive(Drop)]
pub(crate) struct Paths {
    pub(crate) known: BTreeSet<String>,
    pub(crate) paths: Vec<PathText>,
}

/// What the paths of a reach are told of by.
#[derive(Drop)]
pub(crate) struct Ground<'a> {
    pub(crate) flow: &'a Workflow,
    pub(crate) lists: &'a Listings,
    /// What was read of the rules, and where the listings stand.
    pub(crate) guide: &'a Guide<'a>,
    pub(crate) store: &'a Store,
}

// Keeps the path's text.
fn note_text(
    alloc: Global,
    known: &mut BTreeSet<String>,
    path: &PathText,
) -> Result<(), OutOfMemory>
    ensures { OnOk result ((q : Path) → contains_text known.new q ≡ (bytes_eq path.now q || contains_text known.old q)) }
{
    let key = String::from_str(alloc, path.as_str())?;
    known.insert(key)?;
    Ok(())
}

// Whether the path is there.
fn is_there(found: &Paths, path: &PathText) -> bool
    ensures { result ≡ contains_text found.now.known path.now }
{
    found.known.contains(path.as_str())
}

// Whether there are too many paths.
pub(crate) fn is_over(found: &Paths) -> bool
    ensures { result ≡ nat_lt 100000 (length found.now.paths.items) }
{
    found.paths.len() > LIMIT
}

// Adds the path, unless it is there.
fn add(alloc: Global, found: &mut Paths, path: PathText) -> Result<(), OutOfMemory>
    requires { AreKept found.old }
    ensures kept { OnOk result (AreKept found.new) }
    ensures added { OnOk result (found.new.paths.items ≡ distinct bytes_eq (found.old.paths.items ++ path ∷ [])) }
{
    if is_there(found, &path) {
        return Ok(());
    }
    note_text(alloc, &mut found.known, &path)?;
    found.paths.push(path)?;
    Ok(())
}

/// Adds these paths.
pub(crate) fn add_paths(
    alloc: Global,
    found: &mut Paths,
    paths: &[PathText],
) -> Result<(), OutOfMemory>
    requires { AreKept found.old }
    ensures kept { OnOk result (AreKept found.new) }
    ensures added { OnOk result (found.new.paths.items ≡ distinct bytes_eq (found.old.paths.items ++ paths.now)) }
{
    for path in paths {
        let copy = path.copy(alloc)?;
        add(alloc, found, copy)?;
    }
    Ok(())
}

// Adds what is wanted, where it is a path.
fn add_want(alloc: Global, found: &mut Paths, want: &Want) -> Result<(), OutOfMemory>
    requires { AreKept found.old }
    ensures kept { OnOk result (AreKept found.new) }
    ensures added { OnOk result (found.new.paths.items ≡ distinct bytes_eq (found.old.paths.items ++ path_of want.now)) }
{
    match want {
        Want::Path(path) => {
            let copy = path.copy(alloc)?;
            add(alloc, found, copy)?;
            Ok(())
        }
        Want::NoPath(_) => Ok(()),
    }
}

// Adds the paths among what is wanted.
fn add_wants(alloc: Global, found: &mut Paths, wants: &[Want]) -> Result<(), OutOfMemory>
    requires { AreKept found.old }
    ensures kept { OnOk result (AreKept found.new) }
    ensures added { OnOk result (found.new.paths.items ≡ distinct bytes_eq (found.old.paths.items ++ flat_map path_of wants.now)) }
{
    for want in wants {
        add_want(alloc, found, want)?;
    }
    Ok(())
}

// Adds the paths that the job wants.
fn add_job(
    alloc: Global,
    flow: &Workflow,
    lists: &Listings,
    places: &Places,
    found: &mut Paths,
    job: &Making,
) -> Result<(), OutOfMemory>
    requires kept { AreKept found.old }
    requires places { ArePlaces lists.now places.now }
    requires placed { IsPlaced flow.now job.now }
    ensures kept { OnOk result (AreKept found.new) }
    ensures added { OnOk result (found.new.paths.items ≡ distinct bytes_eq (found.old.paths.items ++ paths_by flow.now lists.now job.now)) }
{
    let wants = wants_of(alloc, flow, lists, places, job)?;
    add_wants(alloc, found, wants.as_slice())?;
    Ok(())
}

// Adds the paths that these jobs want.
fn add_jobs(
    alloc: Global,
    flow: &Workflow,
    lists: &Listings,
    places: &Places,
    found: &mut Paths,
    jobs: &[Making],
) -> Result<(), OutOfMemory>
    requires kept { AreKept found.old }
    requires places { ArePlaces lists.now places.now }
    requires placed { AllByRecursion (IsPlaced flow.now) jobs.now }
    ensures kept { OnOk result (AreKept found.new) }
    ensures added { OnOk result (found.new.paths.items ≡ distinct bytes_eq (found.old.paths.items ++ flat_map (paths_by flow.now lists.now) jobs.now)) }
{
    for job in jobs {
        add_job(alloc, flow, lists, places, found, job)?;
    }
    Ok(())
}

// Tells of the path and of where the jobs that fit it write, and adds what its candidates want.
fn step<W: Files>(
    alloc: Global,
    ground: &Ground<'_>,
    work: &mut W,
    eye: &mut Eye,
    found: &mut Paths,
    path: &PathText,
) -> Result<(), WorkFault>
    requires kept { AreKept found.old }
    requires guide { IsGuide ground.now.flow.now ground.now.lists.now ground.now.guide.now }
    ensures looked { HasLooked W.act (W.device work.old) (W.device work.new) (device_failed result) }
    ensures told { OnOk result (HasTold (W.device work.old) ground.now.store.now eye.old eye.new) }
    ensures listed { OnOk result (IsListedAround ground.now.flow.now eye.new path.now) }
    ensures kept { OnOk result (AreKept found.new) }
    ensures added { OnOk result ((S : Known) → Says eye.new S → found.new.paths.items ≡ distinct bytes_eq (found.old.paths.items ++ next ground.now.flow.now S ground.now.lists.now path.now)) }
{
    let jobs = tell_around(
        alloc,
        ground.flow,
        ground.guide.readings,
        ground.store,
        work,
        eye,
        path,
    )?;
    add_jobs(
        alloc,
        ground.flow,
        ground.lists,
        &ground.guide.places,
        found,
        &jobs,
    )?;
    Ok(())
}

// Tells of each of these paths, and adds what their candidates want, unless there are too many paths.
fn level<W: Files>(
    alloc: Global,
    ground: &Ground<'_>,
    work: &mut W,
    eye: &mut Eye,
    found: &mut Paths,
    fresh: &[PathText],
) -> Result<(), WorkFault>
    requires kept { AreKept found.old }
    requires guide { IsGuide ground.now.flow.now ground.now.lists.now ground.now.guide.now }
    ensures looked { HasLooked W.act (W.device work.old) (W.device work.new) (device_failed result) }
    ensures told { OnOk result (HasTold (W.device work.old) ground.now.store.now eye.old eye.new) }
    ensures kept { OnOk result (AreKept found.new) }
    ensures advanced { OnOk result (Advanced ground.now.flow.now ground.now.lists.now eye.new fresh.now found.old.paths.items found.new.paths.items) }
{
    for path in fresh {
        step(alloc, ground, work, eye, found, path)?;
        if is_over(found) {
            return Ok(());
        }
    }
    Ok(())
}

// Tells of each of these paths, and of where the jobs that fit them write.
fn last<W: Files>(
    alloc: Global,
    flow: &Workflow,
    readings: &Readings,
    store: &Store,
    work: &mut W,
    eye: &mut Eye,
    fresh: &[PathText],
) -> Result<(), WorkFault>
    requires readings { AreReadings flow.now readings.now }
    ensures looked { HasLooked W.act (W.device work.old) (W.device work.new) (device_failed result) }
    ensures told { OnOk result (HasTold (W.device work.old) store.now eye.old eye.new) }
    ensures listed { OnOk result (AllByRecursion (IsListedAround flow.now eye.new) fresh.now) }
{
    for path in fresh {
        tell_around(alloc, flow, readings, store, work, eye, path)?;
    }
    Ok(())
}

/// How many paths there are.
pub(crate) fn count(found: &Paths) -> usize
    ensures { result ≡ length found.now.paths.items }
{
    found.paths.len()
}

// Copies of the paths from this place on.
fn copies_from(alloc: Global, found: &Paths, from: usize) -> Result<Vec<PathText>, OutOfMemory>
    ensures { IfOk result (λ copies. copies.items ≡ drop from found.now.paths.items) }
{
    let mut copies = Vec::new(alloc);
    let mut at = from;
    'paths: while at < found.paths.len() {
        copies.push(found.paths[at].copy(alloc)?)?;
        at += 1;
    }
    Ok(copies)
}

/// Tells of all paths of the reach, so many levels deep, where the paths before this place were told of and what their candidates
/// want was added. It ends before that where no path is added, or where there are too many.
pub(crate) fn spread<W: Files>(
    alloc: Global,
    ground: &Ground<'_>,
    work: &mut W,
    eye: &mut Eye,
    found: &mut Paths,
    from: usize,
    levels: u32,
) -> Result<(), WorkFault>
    requires guide { IsGuide ground.now.flow.now ground.now.lists.now ground.now.guide.now }
    requires so_far { IsSpread ground.now.flow.now ground.now.lists.now eye.old from found.old }
    ensures looked { HasLooked W.act (W.device work.old) (W.device work.new) (device_failed result) }
    ensures told { OnOk result (HasTold (W.device work.old) ground.now.store.now eye.old eye.new) }
    ensures reached { OnOk result (HasSpread ground.now.flow.now ground.now.lists.now levels eye.new found.old.paths.items found.new.paths.items) }
{
    let end = count(found);
    let fresh = copies_from(alloc, found, from)?;
    let paths: &[PathText] = &fresh;
    if levels == 0 {
        last(
            alloc,
            ground.flow,
            ground.guide.readings,
            ground.store,
            work,
            eye,
            paths,
        )?;
        return Ok(());
    }
    level(alloc, ground, work, eye, found, paths)?;
    if is_over(found) {
        return Ok(());
    }
    let now = count(found);
    if now == end {
        return Ok(());
    }
    spread(alloc, ground, work, eye, found, end, levels - 1)?;
    Ok(())
}
