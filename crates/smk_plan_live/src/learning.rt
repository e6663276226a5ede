//! Whether a job has reasons of its own is learned.

ghost use Rattle.std.specs.Prelude.{◌≡◌, slice_index_or, slice_set, false, IfOk, OnErr, OnOk};
ghost use Rattle.smk_trigger.specs.Reasons.{reasons_of};
ghost use Rattle.smk_plan_live.specs.Kept.{facts_by, facts_kept, own_by};
ghost use Rattle.smk_plan_live.specs.Learning.{FitStill, forgotten, learned};

use crate::base::Base;
use crate::slots::put_at;
use smk_base::{List, OutOfMemory};
use smk_flow::Job;
use smk_plan_facts::own_facts;
use smk_plan_states::{Own, own_of};
use smk_trigger::{JobFacts, Judge, Reason, reasons};
use std::alloc::Global;

/// Whether the job of the number is forced.
pub(crate) fn is_forced(forced: &[bool], number: usize) -> bool
    ensures { result ≡ slice_index_or forced.now number false }
{
    match forced.get(number) {
        None => false,
        Some(flag) => *flag,
    }
}

/// What the job of the number is judged by. None where there is no job of this number, or it isn't told whether it is forced. `OutOfMemory` where there is no memory for it.
pub(crate) fn facts_at(
    alloc: Global,
    base: &Base,
    forced: &[bool],
    number: usize,
) -> Result<Option<JobFacts>, OutOfMemory>
    ensures { IfOk result (λ facts. facts ≡ facts_kept base.now forced.now number) }
{
    let Some(job) = base.jobs.jobs.as_slice().get(number) else {
        return Ok(None);
    };
    let Some(flag) = forced.get(number) else {
        return Ok(None);
    };
    let facts = own_facts(alloc, base, &base.sources, *flag, job)?;
    Ok(Some(facts))
}

// Asks the judge once whether the job of the number has reasons of its own, and notes it. `OutOfMemory` where there is no memory to tell, or no such job: then nothing
// is noted.
fn learn<J: Judge>(
    alloc: Global,
    base: &Base,
    forced: &[bool],
    judge: &J,
    own: &mut Vec<Own>,
    number: usize,
) -> Result<(), OutOfMemory>
    ensures ok { OnOk result (own.new.items ≡ learned base.now forced.now own.old.items number) }
    ensures err { OnErr result (own.new ≡ own.old) }
{
    let Some(job) = base.jobs.jobs.as_slice().get(number) else {
        return Err(OutOfMemory);
    };
    let facts = own_facts(alloc, base, &base.sources, is_forced(forced, number), job)?;
    let reasons = judge.judge(alloc, &facts)?;
    put_at(own, number, own_of(reasons.as_slice()));
    Ok(())
}

// Whether nothing is known of the reasons of the job of the number.
fn is_unknown(own: &[Own], number: usize) -> bool {
    match own.get(number) {
        None => false,
        Some(flag) => matches!(flag, Own::Unknown),
    }
}

// Learns of the job of the number, where nothing is known of it. It tells whether that was so. `OutOfMemory` as of one.
fn learn_unknown<J: Judge>(
    alloc: Global,
    base: &Base,
    forced: &[bool],
    judge: &J,
    own: &mut Vec<Own>,
    number: usize,
) -> Result<bool, OutOfMemory>
    ensures { FitStill base.now forced.now own.old.items own.new.items }
{
    if !is_unknown(own.as_slice(), number) {
        return Ok(false);
    }
    learn(alloc, base, forced, judge, own, number)?;
    Ok(true)
}

// Learns of so many of these jobs of which nothing is known. `OutOfMemory` as of one.
fn learn_some<J: Judge>(
    alloc: Global,
    base: &Base,
    forced: &[bool],
    judge: &J,
    own: &mut Vec<Own>,
    numbers: &[usize],
    most: usize,
) -> Result<(), OutOfMemory>
    ensures { FitStill base.now forced.now own.old.items own.new.items }
{
    let mut left = most;
    for number in numbers {
        if left == 0 {
            return Ok(());
        }
        if learn_unknown(alloc, base, forced, judge, own, *number)? {
            left -= 1;
        }
    }
    Ok(())
}

/// Learns of the job of the number, and of so many more of these of which nothing is known: where they are many, asking for each in a turn of its own would be slow.
/// `OutOfMemory` as of one.
pub(crate) fn learn_with<J: Judge>(
    alloc: Global,
    base: &Base,
    forced: &[bool],
    judge: &J,
    own: &mut Vec<Own>,
    number: usize,
    others: &[usize],
    most: usize,
) -> Result<(), OutOfMemory>
    ensures { FitStill base.now forced.now own.old.items own.new.items }
{
    learn(alloc, base, forced, judge, own, number)?;
    learn_some(alloc, base, forced, judge, own, others, most)
}

// Nothing is known any more of the reasons of these jobs.
fn forget_each(own: &mut Vec<Own>, numbers: &[usize])
    ensures { own.new.items ≡ forgotten own.old.items numbers.now }
{
    for number in numbers {
        put_at(own, *number, Own::Unknown);
    }
}

/// The flags once nothing is known any more of the reasons of the job of the number and of these readers.
pub(crate) fn forget(
    alloc: Global,
    own: &[Own],
    number: usize,
    readers: &[usize],
) -> Result<Vec<Own>, OutOfMemory>
    ensures { IfOk result (λ found. found.items ≡ forgotten (slice_set own.now number Own.Unknown) readers.now) }
{
    let mut found = Vec::from_slice(alloc, own)?;
    put_at(&mut found, number, Own::Unknown);
    forget_each(&mut found, readers);
    Ok(found)
}

// The reasons of the job, where it is forced or not, but for the inputs whose job is Dirty.
fn own_reasons(
    alloc: Global,
    base: &Base,
    forced: bool,
    job: &Job,
) -> Result<List<Reason>, OutOfMemory>
    ensures { IfOk result (λ own. own ≡ reasons_of (facts_by base.now forced job.now)) }
{
    let facts = own_facts(alloc, base, &base.sources, forced, job)?;
    let own = reasons(alloc, &facts)?;
    Ok(own)
}

/// The reasons of each of the jobs, where these are forced, but for the inputs whose job is Dirty. `OutOfMemory` where there is no memory for them.
pub(crate) fn all_own(
    alloc: Global,
    base: &Base,
    jobs: &[Job],
    forced: &[bool],
) -> Result<Vec<List<Reason>>, OutOfMemory>
    ensures { IfOk result (λ own. own.items ≡ own_by base.now jobs.now forced.now) }
{
    let mut found = Vec::new(alloc);
    for (number, job) in jobs.iter().enumerate() {
        let Some(flag) = forced.get(number) else {
            return Ok(found);
        };
        found.push(own_reasons(alloc, base, *flag, job)?)?;
    }
    Ok(found)
}
