//! The numbers that the jobs of children have among the new jobs.

ghost use Rattle.std.specs.Prelude.{◌≡◌, map, option_map, IfOk};
ghost use Rattle.smk_laws_turns.specs.Moving as moving;
ghost use Rattle.smk_drive_close.specs.Numbers.{place_number};
ghost use Rattle.smk_plan.specs.States.{job_path};

use smk_base::{List, OutOfMemory};
use smk_chain::first_output;
use smk_drive_step::Child;
use smk_flow::Job;
use std::alloc::Global;

// The path by which the job is named; empty where it has no output.
fn name_of(job: &Job) -> &str
    ensures { result.now ≡ job_path job.now }
{
    match first_output(job) {
        Some(path) => path.as_str(),
        None => "",
    }
}

// Whether they are of one rule, and have the same first output.
fn is_like(job: &Job, other: &Job) -> bool
    ensures { result ≡ moving.is_like job.now other.now }
{
    job.rule == other.rule && name_of(job) == name_of(other)
}

// The number of the first of these jobs that is like this one; how many there are, where none is.
fn number_like(jobs: &[Job], job: &Job) -> usize
    ensures { result ≡ moving.number_like jobs.now job.now }
{
    for (number, other) in jobs.iter().enumerate() {
        if is_like(job, other) {
            return number;
        }
    }
    jobs.len()
}

// The same where there is such a job.
fn new_number(jobs: &[Job], job: Option<&Job>) -> usize
    ensures { result ≡ moving.new_number jobs.now (option_map (λ j. j.now) job.entry) }
{
    match job {
        Some(job) => number_like(jobs, job),
        None => jobs.len(),
    }
}

// The number that the job of the child in the place has among the new jobs. `OutOfMemory` where it has more than 32 bits.
fn number_in(old: &[Job], new: &[Job], place: &Option<Child>) -> Result<u32, OutOfMemory>
    ensures { IfOk result (λ n. n ≡ place_number old.now new.now place.now) }
{
    let Some(child) = place else {
        return Ok(0);
    };
    match u32::try_from(new_number(new, old.get(child.job as usize))) {
        Ok(number) => Ok(number),
        Err(_) => Err(OutOfMemory),
    }
}

/// The numbers that the jobs of the children in these places have among the new jobs. For each child the new jobs are gone through up to its own, so that is at most
/// once for each core.
pub(crate) fn new_numbers(
    alloc: Global,
    places: &[Option<Child>],
    old: &[Job],
    new: &[Job],
) -> Result<List<u32>, OutOfMemory>
    ensures { IfOk result (λ ns. ns ≡ map (place_number old.now new.now) places.now) }
{
    let mut numbers = List::new(alloc);
    for place in places {
        numbers.push(number_in(old, new, place)?)?;
    }
    Ok(numbers)
}
