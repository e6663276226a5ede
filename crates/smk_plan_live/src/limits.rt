//! What no job goes beyond, and what some job makes.

ghost use Rattle.std.specs.Prelude.{◌≡◌, true, IfSome};
ghost use Rattle.std.specs.List.{list_all, list_any};
ghost use Rattle.smk_plan_live.specs.Limits.{AreLimits, asks_at_least, has_temps, is_within};

use smk_flow::Job;

/// What no job goes beyond, and what some job makes: told once of all jobs, which stay the same until new ones come.
#[derive(Clone, Copy)]
pub struct Limits {
    /// A priority that no job's exceeds, if one is seen.
    pub top: Option<u64>,
    /// A number of threads that no job asks less than, if one is seen.
    pub least: Option<u64>,
    /// Whether some job has a temporary output.
    pub temporary: bool,
}

// The greatest priority of the jobs; 0 where there are none.
fn greatest(jobs: &[Job]) -> u64 {
    let mut top = 0;
    for job in jobs {
        if job.priority > top {
            top = job.priority;
        }
    }
    top
}

// Whether no job's priority exceeds this one, so far as that is seen.
fn are_within(top: u64, jobs: &[Job]) -> bool
    ensures { result ≡ true → list_all (is_within top) jobs.now ≡ true }
{
    for job in jobs {
        if top < job.priority {
            return false;
        }
    }
    true
}

// A priority that no job's exceeds: the greatest of them.
fn top_of(jobs: &[Job]) -> Option<u64>
    ensures { IfSome result (λ top. list_all (is_within top) jobs.now ≡ true) }
{
    let top = greatest(jobs);
    if are_within(top, jobs) {
        Some(top)
    } else {
        None
    }
}

// The fewest threads that one of the jobs asks for; the greatest number of 64 bits where there are none.
fn fewest(jobs: &[Job]) -> u64 {
    let mut least = u64::MAX;
    for job in jobs {
        if job.threads < least {
            least = job.threads;
        }
    }
    least
}

// Whether no job asks for fewer threads, so far as that is seen.
fn ask_at_least(least: u64, jobs: &[Job]) -> bool
    ensures { result ≡ true → list_all (asks_at_least least) jobs.now ≡ true }
{
    for job in jobs {
        if job.threads < least {
            return false;
        }
    }
    true
}

// A number of threads that no job asks less than: the fewest that one asks for.
fn least_of(jobs: &[Job]) -> Option<u64>
    ensures { IfSome result (λ least. list_all (asks_at_least least) jobs.now ≡ true) }
{
    let least = fewest(jobs);
    if ask_at_least(least, jobs) {
        Some(least)
    } else {
        None
    }
}

// Whether an output of the job is temporary.
fn has_temps(job: &Job) -> bool
    ensures { result ≡ has_temps job.now }
{
    match job.temps.as_slice() {
        [] => false,
        [_, ..] => true,
    }
}

// Whether one of the jobs has an output that is temporary.
fn any_temporary(jobs: &[Job]) -> bool
    ensures { result ≡ list_any has_temps jobs.now }
{
    for job in jobs {
        if has_temps(job) {
            return true;
        }
    }
    false
}

/// What no job goes beyond: the greatest priority and the fewest threads; and whether one of them has a temporary output.
pub(crate) fn limits_of(jobs: &[Job]) -> Limits
    ensures { AreLimits result jobs.now }
{
    let top = top_of(jobs);
    let least = least_of(jobs);
    let temporary = any_temporary(jobs);
    Limits {
        top,
        least,
        temporary,
    }
}
