//! How paths are looked up while a table is made.

ghost use Rattle.std.specs.Prelude.{◌≡◌, ◌&&◌, ◌||◌, map, option_map, is_none, Some, bytes_eq, not, IfOk, OnOk, if◌then◌else◌};
ghost use Rattle.std.specs.BTreeSet.{contains_text};
ghost use Rattle.std.specs.List.{list_any, slice_get};
ghost use Rattle.std.specs.Option.{option_and_then};
ghost use Rattle.smk_world.specs.Trees.{Path, among, first};
ghost use Rattle.smk_world.specs.World.{out_paths};
ghost use Rattle.smk_chain.specs.declared.jobs.Jobs.{Jobs as JobsValue};
ghost use Rattle.smk_plan.specs.States.{test_some};
ghost use Rattle.smk_plan_states.specs.Keys.{at_key, has_key};
ghost use Rattle.smk_plan_states.specs.Lines.{link_to, tells_of, maker_to, job_of, name_told, folder_told, is_listed, is_of_other, origin_of};
ghost use Rattle.smk_plan_states.specs.Ways.{AreWays, folder_in, place_from};

use crate::folders::{Folder, all_folders, folder_in};
use crate::lines::Origin;
use smk_base::{List, OutOfMemory, PathText};
use smk_chain::sets::put;
use smk_chain::{Jobs, Known, Maker, first_output};
use smk_flow::Job;
use smk_world::Item;
use std::alloc::Global;
use std::collections::{BTreeMap, BTreeSet};

/// How paths are looked up: by whom they are made, and whether they are directories with a listing.
#[derive(Drop)]
pub(crate) struct Ways<'j> {
    pub(crate) jobs: &'j [Job],
    pub(crate) makers: &'j [Maker],
    /// For each job its directory outputs.
    pub(crate) folders: List<List<Folder>>,
    /// The number of the first maker that tells of a path.
    pub(crate) links: BTreeMap<&'j str, usize>,
    /// The directories whose files are known.
    pub(crate) listed: BTreeSet<String>,
}

/// Adds the path.
pub(crate) fn put_key<'j>(
    keys: &mut BTreeMap<&'j str, ()>,
    path: &'j PathText,
) -> Result<(), OutOfMemory>
    ensures { OnOk result ((q : Path) → has_key keys.new q ≡ (bytes_eq q path.now || has_key keys.old q)) }
{
    keys.insert(path.as_str(), ())?;
    Ok(())
}

/// Whether the path is among them.
pub(crate) fn has_key(keys: &BTreeMap<&str, ()>, path: &PathText) -> bool
    ensures { result ≡ has_key keys.now path.now }
{
    keys.contains_key(path.as_str())
}

// Adds the paths.
fn put_all<'j>(keys: &mut BTreeMap<&'j str, ()>, paths: &'j [PathText]) -> Result<(), OutOfMemory>
    ensures { OnOk result ((q : Path) → has_key keys.new q ≡ (has_key keys.old q || among paths.now q)) }
{
    for path in paths {
        put_key(keys, path)?;
    }
    Ok(())
}

// Adds the paths of the items.
fn put_items<'j>(keys: &mut BTreeMap<&'j str, ()>, items: &'j [Item]) -> Result<(), OutOfMemory>
    ensures { OnOk result ((q : Path) → has_key keys.new q ≡ (has_key keys.old q || list_any (λ item. among item.paths q) items.now)) }
{
    for item in items {
        put_all(keys, item.paths.as_slice())?;
    }
    Ok(())
}

/// The inputs of the jobs.
pub(crate) fn read_in<'j>(
    alloc: Global,
    jobs: &'j [Job],
) -> Result<BTreeMap<&'j str, ()>, OutOfMemory>
    ensures { IfOk result (λ read. (q : Path) → has_key read q ≡ list_any (λ j. list_any (λ item. among item.paths q) j.recipe.inputs) jobs.now) }
{
    let mut read = BTreeMap::new(alloc);
    for job in jobs {
        put_items(&mut read, job.recipe.inputs.as_slice())?;
    }
    Ok(read)
}

// Adds the path of the maker, where it is a source.
fn put_source<'j>(sources: &mut BTreeMap<&'j str, ()>, maker: &'j Maker) -> Result<(), OutOfMemory>
    ensures { OnOk result ((q : Path) → has_key sources.new q ≡ ((is_none maker.now.job && bytes_eq maker.now.path q) || has_key sources.old q)) }
{
    match maker.job {
        Some(_) => Ok(()),
        None => put_key(sources, &maker.path),
    }
}

/// The paths of which some maker tells as sources.
pub(crate) fn sources_in<'j>(
    alloc: Global,
    makers: &'j [Maker],
) -> Result<BTreeMap<&'j str, ()>, OutOfMemory>
    ensures { IfOk result (λ sources. (q : Path) → has_key sources q ≡ list_any (λ m. is_none m.job && bytes_eq m.path q) makers.now) }
{
    let mut sources = BTreeMap::new(alloc);
    for maker in makers {
        put_source(&mut sources, maker)?;
    }
    Ok(sources)
}

// The set of the directories of these listings.
fn listed_in(alloc: Global, lists: &[Known]) -> Result<BTreeSet<String>, OutOfMemory>
    ensures { IfOk result (λ set. (q : Path) → contains_text set q ≡ among (map (λ k. k.folder) lists.now) q) }
{
    let mut set = BTreeSet::new(alloc);
    for known in lists {
        put(alloc, &mut set, &known.folder)?;
    }
    Ok(set)
}

// Keeps the number of the path.
fn put_link<'j>(
    links: &mut BTreeMap<&'j str, usize>,
    path: &'j PathText,
    number: usize,
) -> Result<(), OutOfMemory>
    ensures { OnOk result ((q : Path) → at_key links.new q ≡ (if bytes_eq path.now q then Some number else at_key links.old q)) }
{
    links.insert(path.as_str(), number)?;
    Ok(())
}

// The number of the first maker of each path.
fn links_in<'j>(alloc: Global, makers: &'j [Maker]) -> Result<BTreeMap<&'j str, usize>, OutOfMemory>
    ensures { IfOk result (λ links. (q : Path) → at_key links q ≡ place_from 0 (tells_of q) makers.now) }
{
    let mut links = BTreeMap::new(alloc);
    let mut number = makers.len();
    'makers: while number > 0 {
        number -= 1;
        put_link(&mut links, &makers[number].path, number)?;
    }
    Ok(links)
}

impl<'j> Ways<'j> {
    /// How the paths that these jobs and makers tell of are looked up.
    pub(crate) fn of(alloc: Global, jobs: &'j Jobs) -> Result<Ways<'j>, OutOfMemory>
        ensures { IfOk result (λ ways. AreWays jobs.now ways) }
    {
        Ok(Ways {
            jobs: jobs.jobs.as_slice(),
            makers: jobs.makers.as_slice(),
            folders: all_folders(alloc, jobs.jobs.as_slice())?,
            links: links_in(alloc, jobs.makers.as_slice())?,
            listed: listed_in(alloc, jobs.lists.as_slice())?,
        })
    }
}

/// The number of the first maker that tells of the path; none where none does.
pub(crate) fn link_to(ways: &Ways<'_>, path: &PathText) -> Option<usize>
    ensures { (J : JobsValue) → AreWays J ways.now → result ≡ link_to J.makers path.now }
{
    ways.links.get(path.as_str()).copied()
}

/// Whether the files of the directory are known.
pub(crate) fn is_listed(ways: &Ways<'_>, folder: &PathText) -> bool
    ensures { (J : JobsValue) → AreWays J ways.now → result ≡ is_listed J folder.now }
{
    ways.listed.contains(folder.as_str())
}

// The maker with this number.
fn maker_at(makers: &[Maker], number: Option<usize>) -> Option<&Maker>
    ensures { option_map (λ maker. maker.now) result ≡ option_and_then (slice_get makers.now) number }
{
    match number {
        Some(number) => makers.get(number),
        None => None,
    }
}

// The first maker that tells of the path.
fn maker_to<'j>(ways: &Ways<'j>, path: &PathText) -> Option<&'j Maker>
    ensures { (J : JobsValue) → AreWays J ways.now → option_map (λ maker. maker.now) result ≡ maker_to J path.now }
{
    maker_at(ways.makers, link_to(ways, path))
}

// The job with this number.
fn job_at(jobs: &[Job], number: Option<u32>) -> Option<&Job>
    ensures { option_map (λ job. job.now) result ≡ option_and_then (slice_get jobs.now) number }
{
    match number {
        Some(number) => jobs.get(number as usize),
        None => None,
    }
}

// The job that is told to make the path of the maker.
fn job_of<'j>(jobs: &'j [Job], maker: Option<&Maker>) -> Option<&'j Job>
    ensures { option_map (λ job. job.now) result ≡ option_and_then (λ m. option_and_then (slice_get jobs.now) m.job) (option_map (λ maker. maker.now) maker.entry) }
{
    match maker {
        Some(maker) => job_at(jobs, maker.job),
        None => None,
    }
}

// The first output of the job, where there is one.
fn first_of(job: Option<&Job>) -> Option<&PathText>
    ensures { option_map (λ name. name.now) result ≡ option_and_then (λ j. first (out_paths j.recipe)) (option_map (λ job. job.now) job.entry) }
{
    match job {
        Some(job) => first_output(job),
        None => None,
    }
}

// The first output of the job that is told to make the path.
fn name_told<'j>(ways: &Ways<'j>, path: &PathText) -> Option<&'j PathText>
    ensures { (J : JobsValue) → AreWays J ways.now → option_map (λ name. name.now) result ≡ name_told J path.now }
{
    first_of(job_of(ways.jobs, maker_to(ways, path)))
}

// Whether there is a name, and it is another one.
fn is_other_name(name: &str, found: Option<&PathText>) -> bool
    ensures { result ≡ test_some (λ p. not (bytes_eq p name.now)) (option_map (λ p. p.now) found.entry) }
{
    match found {
        Some(path) => path.as_str() != name,
        None => false,
    }
}

/// Whether another job than that of the name is told to make the path, and has an output to be named by.
pub(crate) fn is_of_other(ways: &Ways<'_>, name: &str, path: &PathText) -> bool
    ensures { (J : JobsValue) → AreWays J ways.now → result ≡ is_of_other J name.now path.now }
{
    is_other_name(name, name_told(ways, path))
}

// The directory output over the path of the maker.
fn over_maker<'w>(ways: &'w Ways<'_>, maker: Option<&Maker>) -> Option<&'w Folder>
    ensures { option_map (λ folder. folder.now) result
        ≡ option_and_then (λ m. folder_in ways.now.folders m.job m.path) (option_map (λ maker. maker.now) maker.entry) }
{
    match maker {
        Some(maker) => folder_in(ways.folders.as_slice(), maker.job, &maker.path),
        None => None,
    }
}

/// The directory output over the path, of the job that is told to make it.
pub(crate) fn folder_told<'w>(ways: &'w Ways<'_>, path: &PathText) -> Option<&'w Folder>
    ensures { (J : JobsValue) → AreWays J ways.now → option_map (λ folder. folder.now.path) result ≡ folder_told J path.now }
{
    over_maker(ways, maker_to(ways, path))
}

// Its place.
fn place_of(folder: Option<&Folder>) -> Option<usize>
    ensures { result ≡ option_map (λ folder. folder.now.place) folder.entry }
{
    match folder {
        Some(folder) => Some(folder.place),
        None => None,
    }
}

/// What makes the path of the maker.
pub(crate) fn origin_of(ways: &Ways<'_>, maker: &Maker) -> Origin
    ensures { (J : JobsValue) → AreWays J ways.now → result ≡ origin_of J.jobs maker.now }
{
    let over = folder_in(ways.folders.as_slice(), maker.job, &maker.path);
    Origin {
        job: maker.job,
        over: place_of(over),
    }
}
