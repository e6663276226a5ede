//! The reasons of many jobs.

ghost use Rattle.std.specs.Prelude.{◌≡◌, map, IfOk};
ghost use Rattle.smk_trigger.specs.Reasons.{reasons_of};

use crate::{JobFacts, Judge, Reason};
use rayon::prelude::*;
use smk_base::{List, OutOfMemory};
use std::alloc::Global;
use std::thread::Threads;

// The reasons of each job, in order.
fn judged<J: Judge, Rt: Threads + Sync>(
    rt: &Rt,
    alloc: Global,
    facts: &[JobFacts],
    judge: &J,
) -> Result<Vec<List<Reason>>, OutOfMemory>
    ensures { IfOk result (λ found. found.items ≡ map reasons_of facts.now) }
{
    facts
        .par_iter()
        .map(
            |one: &JobFacts| -> Result<List<Reason>, OutOfMemory>
                ensures { IfOk result (λ found. found ≡ reasons_of one.now) }
            { judge.judge(alloc, one) },
        )
        .collect::<Result<Vec<List<Reason>>, OutOfMemory>>(rt, alloc)?
}

// The same elements as a list.
fn listed<T: Drop>(alloc: Global, elements: Vec<T>) -> Result<List<T>, OutOfMemory>
    ensures { IfOk result (λ list. list ≡ elements.items) }
{
    let mut list = List::new(alloc);
    for element in elements {
        list.push(element)?;
    }
    Ok(list)
}

/// The reasons of each job as this judge tells them, in the order of the jobs: what one thread would answer. From 2,048 jobs on the judge is asked in several
/// threads at once. `OutOfMemory` where there is no memory for the answer.
///
/// The facts of each job are as the judge takes them.
pub fn all_reasons<J: Judge, Rt: Threads + Sync>(
    rt: &Rt,
    alloc: Global,
    facts: &List<JobFacts>,
    judge: &J,
) -> Result<List<List<Reason>>, OutOfMemory>
    ensures { IfOk result (λ found. found ≡ map reasons_of facts.now) }
{
    listed(alloc, judged(rt, alloc, facts.as_slice(), judge)?)
}
