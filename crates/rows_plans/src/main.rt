//! Keeps plans of some jobs and one that reads what they make; begins and closes the first job, and prints how often the judge was asked, how often of the
//! closed job and of the reader, how many jobs have to run before, meanwhile, after and once the jobs came anew, and what is told of the first job's output.
//! Then prints what is told of a job whose source was touched or edited since its record was written; and what is told while a child runs, and once an output
//! was removed.
#![tactic(auto)]

mod counting;
mod flow;
mod moments;
mod touched;

ghost use Rattle.std.specs.Prelude.{◌≡◌, ◌++◌, length, map, Some, IfOk, OnOk};
ghost use Rattle.std.specs.List.{slice_get, flat_map};
ghost use Rattle.smk_flow.specs.declared.job.Job.{Job as JobValue};
ghost use Rattle.smk_plan_live.specs.Lives.{IsLive};
ghost use Rattle.smk_plan_live.specs.Steps.{AreOfOutputs};
ghost use Rattle.smk_plan_live.specs.Sites.{out_path};

use counting::Counting;
use flow::{jobs_of, path_of, settings_of, workspace};
use smk_base::{Copied, List, OutOfMemory, PathText, one};
use smk_chain::Jobs;
use smk_flow::Job;
use smk_plan::{Seen, Sight};
use smk_plan_live::{LivePlan, Phase};
use smk_plan_look::look;
use smk_plan_states::{Rank, is_to_run};
use smk_record::{Record, Stamp};
use smk_store::{Entry, Kept, Store, load};
use smk_world::{Failed, Out, OutItem, Recipe, Stat};
use smk_world_mem::MemWork;
use std::alloc::{AllocError, Global};
use std::io;
use std::sync::atomic::Ordering;
use std::thread::Threads;

/// Why nothing can be shown.
#[derive(Debug, Drop)]
enum RowFault {
    Load,
    Look,
    Plan,
    Phase,
    Record,
    Device,
    Running,
    OutOfMemory,
}

impl From<OutOfMemory> for RowFault {
    fn from(_: OutOfMemory) -> Self {
        RowFault::OutOfMemory
    }
}

impl From<Failed> for RowFault {
    fn from(_: Failed) -> Self {
        RowFault::Device
    }
}

impl From<AllocError> for RowFault {
    fn from(_: AllocError) -> Self {
        RowFault::OutOfMemory
    }
}

// How many of the jobs have to run.
fn to_run(ranks: &[Rank]) -> u32 {
    let mut count = 0u32;
    for rank in ranks {
        count = count.saturating_add(u32::from(is_to_run(*rank)));
    }
    count
}

// What is known of an output once it is made: a record of its job's recipe.
fn entry_of(alloc: Global, recipe: &Recipe, path: &PathText) -> Result<Entry, RowFault> {
    let stamps = one(alloc, Stamp::Time(1))?;
    let copy = recipe.copied(alloc)?;
    match Record::new(path.copy(alloc)?, 1, copy, stamps, List::new(alloc)) {
        None => Err(RowFault::Record),
        Some(record) => Ok(Entry {
            kept: Kept::Held(record),
            marked: false,
            noted: false,
        }),
    }
}

// The same of each of the outputs.
fn entries_of(alloc: Global, recipe: &Recipe, paths: &[PathText]) -> Result<List<Entry>, RowFault>
    ensures { IfOk result (λ entries. length entries ≡ length paths.now) }
{
    let mut entries = List::new(alloc);
    for path in paths {
        let entry = entry_of(alloc, recipe, path)?;
        entries.push(entry)?;
    }
    Ok(entries)
}

// What is seen at an output once it is made: a file.
fn sight_of(alloc: Global, path: &PathText) -> Result<Sight, OutOfMemory>
    ensures { IfOk result (λ sight. sight.path ≡ path.now) }
{
    Ok(Sight {
        path: path.copy(alloc)?,
        stat: Stat::File {
            time: 5,
            read_only: false,
        },
        members: None,
        guarded: false,
        sum: None,
    })
}

// The same of each of the outputs.
fn sights_of(alloc: Global, paths: &[PathText]) -> Result<List<Sight>, OutOfMemory>
    ensures { IfOk result (λ sights. map (λ s. s.path) sights ≡ paths.now) }
{
    let mut sights = List::new(alloc);
    for path in paths {
        let sight = sight_of(alloc, path)?;
        sights.push(sight)?;
    }
    Ok(sights)
}

// Adds the paths of the outputs.
fn push_paths(alloc: Global, found: &mut List<PathText>, outs: &[Out]) -> Result<(), OutOfMemory>
    ensures { OnOk result (found.new ≡ found.old ++ map out_path outs.now) }
{
    for out in outs {
        found.push(out.path.copy(alloc)?)?;
    }
    Ok(())
}

// The paths of the outputs of the items.
fn paths_of(alloc: Global, items: &[OutItem]) -> Result<List<PathText>, OutOfMemory>
    ensures { IfOk result (λ paths. paths ≡ flat_map (λ item. map out_path item.outs) items.now) }
{
    let mut paths = List::new(alloc);
    for item in items {
        push_paths(alloc, &mut paths, item.outs.as_slice())?;
    }
    Ok(paths)
}

// What comes of a job as it is closed: what is known of its outputs and seen at them.
#[derive(Drop)]
struct Came {
    entries: List<Entry>,
    sights: List<Sight>,
}

// What comes of the job.
fn came_of(alloc: Global, job: &Job) -> Result<Came, RowFault>
    ensures { IfOk result (λ came. AreOfOutputs came.entries came.sights job.now) }
{
    let paths = paths_of(alloc, job.recipe.outputs.as_slice())?;
    let entries = entries_of(alloc, &job.recipe, paths.as_slice())?;
    let sights = sights_of(alloc, paths.as_slice())?;
    Ok(Came { entries, sights })
}

// What comes of the first of the jobs.
fn first_came(alloc: Global, jobs: &[Job]) -> Result<Came, RowFault>
    ensures { IfOk result (λ came. (j : JobValue) → slice_get jobs.now 0 ≡ Some j → AreOfOutputs came.entries came.sights j) }
{
    match jobs.split_first() {
        None => Err(RowFault::Phase),
        Some((job, _)) => came_of(alloc, job),
    }
}

// The store and what is seen of the jobs' outputs.
fn looked<Rt: Threads + Sync>(
    rt: &Rt,
    alloc: Global,
    work: &mut MemWork,
    jobs: &Jobs,
) -> Result<(Store, Seen), RowFault> {
    let Ok(store) = load(alloc, work) else {
        return Err(RowFault::Load);
    };
    let Ok(seen) = look(rt, alloc, work, jobs, &store) else {
        return Err(RowFault::Look);
    };
    Ok((store, seen))
}

// The kept plan of these jobs.
fn made<Rt: Threads + Sync>(
    rt: &Rt,
    alloc: Global,
    jobs: Jobs,
    store: Store,
    seen: Seen,
) -> Result<LivePlan, RowFault>
    ensures { IfOk result IsLive }
{
    let settings = settings_of(alloc)?;
    match LivePlan::new(rt, alloc, jobs, store, seen, settings) {
        Err(_) => Err(RowFault::Plan),
        Ok(live) => Ok(live),
    }
}

// The kept plan of so many jobs and the one that reads what they make.
fn planned<Rt: Threads + Sync>(rt: &Rt, alloc: Global, count: u32) -> Result<LivePlan, RowFault>
    ensures { IfOk result IsLive }
{
    let mut work = workspace(alloc, count)?;
    let jobs = jobs_of(alloc, count, false)?;
    let (store, seen) = looked(rt, alloc, &mut work, &jobs)?;
    made(rt, alloc, jobs, store, seen)
}

// The first job begins.
fn begin(alloc: Global, live: &mut LivePlan) -> Result<(), RowFault>
    requires { IsLive live.old }
    ensures { IsLive live.new }
{
    let Some(Phase::Waiting) = live.phase(0) else {
        return Err(RowFault::Phase);
    };
    match live.began(alloc, 0) {
        Err(_) => Err(RowFault::Plan),
        Ok(()) => Ok(()),
    }
}

// The first job is closed.
fn close(alloc: Global, live: &mut LivePlan, judge: &Counting) -> Result<(), RowFault>
    requires { IsLive live.old }
    ensures { IsLive live.new }
{
    let Came { entries, sights } = first_came(alloc, live.jobs().jobs.as_slice())?;
    let Some(Phase::Running) = live.phase(0) else {
        return Err(RowFault::Phase);
    };
    match live.closed(alloc, 0, entries, sights, judge) {
        Err(_) => Err(RowFault::Plan),
        Ok(()) => Ok(()),
    }
}

// The jobs come anew, with what the store of the beginning has; nothing fresh was seen.
fn grow<Rt: Threads + Sync>(
    rt: &Rt,
    alloc: Global,
    live: &mut LivePlan,
    count: u32,
) -> Result<(), RowFault>
    requires { IsLive live.old }
    ensures { IsLive live.new }
{
    let mut work = workspace(alloc, count)?;
    let Ok(store) = load(alloc, &mut work) else {
        return Err(RowFault::Load);
    };
    let jobs = jobs_of(alloc, count, false)?;
    match live.grow(rt, alloc, jobs, store, Seen::of(List::new(alloc))) {
        Err(_) => Err(RowFault::Plan),
        Ok(()) => Ok(()),
    }
}

// How many jobs have to run.
fn left(live: &LivePlan) -> u32 {
    to_run(live.ranks())
}

// What is told of the first job's output.
fn told(alloc: Global, live: &LivePlan) -> Result<String, RowFault> {
    let path = path_of(alloc, "m/1.txt")?;
    let known = live.entry(&path).is_some();
    let seen = live.sight(&path).is_some();
    let held = live.holds_back();
    Ok(format!(in alloc; "known {known}, seen {seen}, held back {held}")?)
}

// The first job begins and is closed, and the jobs come anew; how many have to run before, meanwhile and after.
fn counted<Rt: Threads + Sync>(
    rt: &Rt,
    alloc: Global,
    live: &mut LivePlan,
    count: u32,
    judge: &Counting,
) -> Result<String, RowFault>
    requires { IsLive live.old }
{
    let before = left(live);
    begin(alloc, live)?;
    let begun = left(live);
    close(alloc, live, judge)?;
    let after = left(live);
    grow(rt, alloc, live, count)?;
    let grown = left(live);
    Ok(format!(in alloc; "to run {before}, then {begun}, then {after}, then {grown}")?)
}

// The kept plan of so many jobs and the one that reads what they make, with the first one begun and closed.
fn run<Rt: Threads + Sync>(
    rt: &Rt,
    alloc: Global,
    count: u32,
    judge: &Counting,
) -> Result<String, RowFault> {
    let mut live = planned(rt, alloc, count)?;
    let counts = counted(rt, alloc, &mut live, count, judge)?;
    let first = told(alloc, &live)?;
    Ok(format!(in alloc; "{counts}; {first}")?)
}

// The line of a plan of so many jobs.
fn line<Rt: Threads + Sync>(rt: &Rt, alloc: Global, count: u32) -> Result<String, AllocError> {
    let judge = Counting::new();
    let told = match run(rt, alloc, count, &judge) {
        Ok(text) => text,
        Err(fault) => format!(in alloc; "{fault:?}")?,
    };
    let asked = judge.asked.load(Ordering::SeqCst);
    let first = judge.first.load(Ordering::SeqCst);
    let total = judge.total.load(Ordering::SeqCst);
    format!(in alloc;
        "{count} and one: {told}; asked {asked}, of the first {first}, of the last {total}"
    )
}

fn main(rt: HostRuntime) -> io::Result<()> {
    let alloc = rt.alloc();
    for count in [1u32, 3, 2000] {
        let text = line(&rt, alloc, count)?;
        println!(rt; "{text}")?;
    }
    let text = touched::lines(&rt, alloc)?;
    print!(rt; "{text}")?;
    let text = moments::lines(&rt, alloc)?;
    print!(rt; "{text}")?;
    Ok(())
}
