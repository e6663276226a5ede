//! Temporary outputs that aren't needed any more.

ghost use Rattle.std.specs.Prelude.{◌≡◌, ◌++◌, List as Items, [], replicate, slice_set, zip, if◌then◌else◌, false, true, IfOk, OnOk};
ghost use Rattle.std.specs.List.{list_all};
ghost use Rattle.smk_plan_states.specs.Ranks.{is_clean_rank};
ghost use Rattle.smk_plan_live.specs.Lives.{IsLive};
ghost use Rattle.smk_drive_pick.specs.Spending.{AreRipeOf, AreSpentNow, is_done_with, is_ripe, need_all, need_each, need_of, ripe_in, ripe_by, ripe_of, ripe_paths, with_need};

use crate::numbers::has_flag;
use crate::standing::may_go;
use smk_base::{List, OutOfMemory, PathText};
use smk_flow::Job;
use smk_plan_live::LivePlan;
use smk_plan_states::{Input, Line, Rank, Temp};
use std::alloc::Global;

// Whether the rank is Clean.
fn is_clean(rank: Rank) -> bool
    ensures { result ≡ is_clean_rank rank }
{
    matches!(rank, Rank::Clean)
}

// Whether a job of this rank doesn't keep all outputs from being spent.
fn is_done_with(rank: Rank) -> bool
    ensures { result ≡ is_done_with rank }
{
    match rank {
        Rank::Open => false,
        Rank::Dirty => true,
        Rank::Restore => false,
        Rank::Clean => true,
    }
}

// Whether no job is Open or to be restored.
fn are_done_with(ranks: &[Rank]) -> bool
    ensures { result ≡ list_all is_done_with ranks.now }
{
    for rank in ranks {
        if !is_done_with(*rank) {
            return false;
        }
    }
    true
}

// Notes that the path of the link is needed.
fn need(needed: &mut Vec<bool>, link: Option<usize>)
    ensures { needed.new.items ≡ with_need needed.old.items link }
{
    let Some(number) = link else {
        return;
    };
    if number < needed.len() {
        needed[number] = true;
    }
}

// Notes that the inputs are needed.
fn need_each(needed: &mut Vec<bool>, inputs: &[Input])
    ensures { needed.new.items ≡ need_each needed.old.items inputs.now }
{
    for input in inputs {
        need(needed, input.link);
    }
}

// Notes that the inputs of the job are needed, unless it is Clean.
fn need_of(needed: &mut Vec<bool>, line: &Line, rank: Rank)
    ensures { needed.new.items ≡ need_of needed.old.items (line.now, rank) }
{
    if is_clean(rank) {
        return;
    }
    need_each(needed, line.inputs.as_slice());
}

// Notes that the inputs of jobs that aren't Clean are needed.
fn need_all(needed: &mut Vec<bool>, lines: &[Line], ranks: &[Rank])
    ensures { needed.new.items ≡ need_all needed.old.items (zip lines.now ranks.now) }
{
    for (i, line) in lines.iter().enumerate() {
        let Some(rank) = ranks.get(i) else {
            return;
        };
        need_of(needed, line, *rank);
    }
}

// For each of so many makers whether a job that isn't Clean has its path as an input.
fn needed_of(
    alloc: Global,
    makers: usize,
    lines: &[Line],
    ranks: &[Rank],
) -> Result<Vec<bool>, OutOfMemory>
    ensures { IfOk result (λ needed. needed.items ≡ need_all (replicate makers false) (zip lines.now ranks.now)) }
{
    let mut needed = vec![in alloc; false; makers]?;
    need_all(&mut needed, lines, ranks);
    Ok(needed)
}

// Whether the output is neither a target nor needed, and may go.
fn is_ripe(
    alloc: Global,
    live: &LivePlan,
    needed: &[bool],
    path: &PathText,
    temp: &Temp,
) -> Result<bool, OutOfMemory>
    ensures { IfOk result (λ ripe. ripe ≡ is_ripe live.now needed.now (path.now, temp.now)) }
{
    if temp.target {
        return Ok(false);
    }
    if has_flag(needed, temp.link) {
        return Ok(false);
    }
    may_go(alloc, live, path)
}

// Adds the output, where it is so.
fn push(
    alloc: Global,
    live: &LivePlan,
    needed: &[bool],
    path: &PathText,
    temp: &Temp,
    found: &mut List<PathText>,
) -> Result<(), OutOfMemory>
    ensures { OnOk result (found.new ≡ found.old ++ ripe_of live.now needed.now (path.now, temp.now)) }
{
    if !is_ripe(alloc, live, needed, path, temp)? {
        return Ok(());
    }
    let copy = path.copy(alloc)?;
    found.push(copy)
}

// Adds those of the temporary outputs of a job.
fn push_paths(
    alloc: Global,
    live: &LivePlan,
    needed: &[bool],
    paths: &[PathText],
    temps: &[Temp],
    found: &mut List<PathText>,
) -> Result<(), OutOfMemory>
    ensures { OnOk result (found.new ≡ found.old ++ ripe_paths live.now needed.now (zip paths.now temps.now)) }
{
    for (i, path) in paths.iter().enumerate() {
        let Some(temp) = temps.get(i) else {
            return Ok(());
        };
        push(alloc, live, needed, path, temp, found)?;
    }
    Ok(())
}

// Adds those of the job, where it is Clean and makes no awaited directory.
fn push_job(
    alloc: Global,
    live: &LivePlan,
    needed: &[bool],
    job: &Job,
    line: &Line,
    rank: Rank,
    found: &mut List<PathText>,
) -> Result<(), OutOfMemory>
    ensures { OnOk result (found.new ≡ found.old ++ ripe_by live.now needed.now (job.now, (line.now, rank))) }
{
    if !is_clean(rank) {
        return Ok(());
    }
    if line.feeds {
        return Ok(());
    }
    let paths = job.temps.as_slice();
    let temps = line.temps.as_slice();
    push_paths(alloc, live, needed, paths, temps, found)
}

// The temporary outputs of the jobs that nobody needs any more and that may go.
fn ripe_in(
    alloc: Global,
    live: &LivePlan,
    needed: &[bool],
    jobs: &[Job],
    lines: &[Line],
    ranks: &[Rank],
) -> Result<List<PathText>, OutOfMemory>
    ensures { IfOk result (λ found. found ≡ ripe_in live.now needed.now (zip jobs.now (zip lines.now ranks.now))) }
{
    let mut found = List::new(alloc);
    for (i, job) in jobs.iter().enumerate() {
        let Some(line) = lines.get(i) else {
            return Ok(found);
        };
        let Some(rank) = ranks.get(i) else {
            return Ok(found);
        };
        push_job(alloc, live, needed, job, line, *rank, &mut found)?;
    }
    Ok(found)
}

// Those that are spent, where nothing keeps all of them.
fn ripe_now(alloc: Global, live: &LivePlan) -> Result<List<PathText>, OutOfMemory>
    ensures { IfOk result (AreRipeOf live.now) }
{
    let table = live.table();
    let jobs = live.jobs().jobs.as_slice();
    let lines = table.lines();
    let ranks = live.ranks();
    let needed = needed_of(alloc, table.origins().len(), lines, ranks)?;
    let found = ripe_in(alloc, live, needed.as_slice(), jobs, lines, ranks)?;
    Ok(found)
}

/// The outputs that are spent and may go, in plan order. Spent are temporary outputs, and no targets, of jobs that are Clean, as are
/// all jobs that read them; where no job is Open or to be restored, or would be if no child read what it made; and but for those of
/// a job that makes a directory which a job awaits. They may go where something was seen: a file, or a directory in which nothing
/// stands but what its record lists. `OutOfMemory` where there is no memory for the answer.
///
/// The time is linear in the jobs with what they read and make, by numbers, and no job is looked at where no output is temporary; paths are looked up only of
/// outputs that nobody needs any more.
pub fn spent_paths(alloc: Global, live: &LivePlan) -> Result<List<PathText>, OutOfMemory>
    requires { IsLive live.now }
    ensures { IfOk result (AreSpentNow live.now) }
{
    let limits = live.limits();
    if !limits.temporary {
        return Ok(List::new(alloc));
    }
    if live.holds_back() {
        return Ok(List::new(alloc));
    }
    if !are_done_with(live.ranks()) {
        return Ok(List::new(alloc));
    }
    let found = ripe_now(alloc, live)?;
    Ok(found)
}
