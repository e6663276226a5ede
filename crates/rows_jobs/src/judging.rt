//! What the judge tells of jobs, of many at the same time.

use rows_lines::{Trouble, push_case};
use smk_base::{List, OutOfMemory, Text, one};
use smk_store::Kept;
use smk_trigger::{JobFacts, Judge, Reason, all_reasons, reasons};
use smk_world::Recipe;
use std::alloc::{AllocError, Global};
use std::sync::atomic::{AtomicBool, Ordering};
use std::thread::Threads;

// The facts of a job with this command, of which an output has no record and a mark, and which is forced.
fn facts(alloc: Global, template: &str) -> Result<JobFacts, OutOfMemory> {
    Ok(JobFacts {
        recipe: Recipe {
            template: Text::of(alloc, template)?,
            wildcards: List::new(alloc),
            params: List::new(alloc),
            inputs: List::new(alloc),
            outputs: List::new(alloc),
        },
        kept: one(alloc, Kept::Absent)?,
        marked: one(alloc, true)?,
        stamps: List::new(alloc),
        forced: true,
    })
}

// Whether these are the reasons of such a job, in their order.
fn is_told(found: &[Reason]) -> bool {
    matches!(found, [Reason::New, Reason::Marked, Reason::Forced])
}

// What is told of the reasons of one job.
fn told_of_one(alloc: Global) -> Result<String, Trouble> {
    let facts = facts(alloc, "sort")?;
    let found = reasons(alloc, &facts)?;
    let words = if is_told(found.as_slice()) {
        "new, marked, forced"
    } else {
        "others"
    };
    Ok(String::from_str(alloc, words)?)
}

// A judge that notes whether it judges the jobs with the commands `first` and `last` at the same time.
#[derive(Drop)]
struct Meeting {
    first: AtomicBool,
    last: AtomicBool,
    first_saw: AtomicBool,
    last_saw: AtomicBool,
}

impl Meeting {
    // It has judged nothing.
    fn new() -> Meeting {
        Meeting {
            first: AtomicBool::new(false),
            last: AtomicBool::new(false),
            first_saw: AtomicBool::new(false),
            last_saw: AtomicBool::new(false),
        }
    }
}

// Raises a flag, and notes whether the other one is seen while it is looked for.
fn meet(mine: &AtomicBool, other: &AtomicBool, saw: &AtomicBool) {
    mine.store(true, Ordering::SeqCst);
    for _ in 0..100_000_000u64 {
        if other.load(Ordering::SeqCst) {
            saw.store(true, Ordering::SeqCst);
            return;
        }
    }
}

impl Judge for Meeting {
    fn judge(&self, alloc: Global, facts: &JobFacts) -> Result<List<Reason>, OutOfMemory> {
        match facts.recipe.template.as_str() {
            "first" => meet(&self.first, &self.last, &self.first_saw),
            "last" => meet(&self.last, &self.first, &self.last_saw),
            _ => (),
        }
        reasons(alloc, facts)
    }
}

// The facts of 4,096 jobs.
fn many(alloc: Global) -> Result<List<JobFacts>, OutOfMemory> {
    let mut jobs = List::new(alloc);
    jobs.push(facts(alloc, "first")?)?;
    for _ in 0..4094u32 {
        jobs.push(facts(alloc, "sort")?)?;
    }
    jobs.push(facts(alloc, "last")?)?;
    Ok(jobs)
}

// How many of these are the reasons of such a job.
fn count_told(found: &[List<Reason>]) -> usize {
    let mut count = 0usize;
    for one in found {
        if is_told(one.as_slice()) {
            count = count.saturating_add(1);
        }
    }
    count
}

// How many of so many jobs are told right by this judge.
fn judged<Rt: Threads + Sync>(
    rt: &Rt,
    alloc: Global,
    judge: &Meeting,
) -> Result<usize, OutOfMemory> {
    let jobs = many(alloc)?;
    let found = all_reasons(rt, alloc, &jobs, judge)?;
    Ok(count_told(found.as_slice()))
}

// What is told of the reasons of many jobs.
fn told_of_many<Rt: Threads + Sync>(rt: &Rt, alloc: Global) -> Result<String, Trouble> {
    let judge = Meeting::new();
    let count = judged(rt, alloc, &judge)?;
    let first = judge.first_saw.load(Ordering::SeqCst);
    let last = judge.last_saw.load(Ordering::SeqCst);
    Ok(format!(in alloc;
        "{count} told; the first saw the last: {first}, the last saw the first: {last}"
    )?)
}

/// Adds a line for each case.
pub fn push_rows<Rt: Threads + Sync>(
    rt: &Rt,
    alloc: Global,
    text: &mut String,
) -> Result<(), AllocError> {
    push_case(text, "the reasons of a job", &told_of_one(alloc))?;
    push_case(text, "4096 jobs judged at once", &told_of_many(rt, alloc))
}
