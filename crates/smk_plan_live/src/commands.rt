//! Whether the jobs have commands.

ghost use Rattle.std.specs.Prelude.{◌≡◌, true};
ghost use Rattle.std.specs.List.{list_all};
ghost use Rattle.smk_plan_live.specs.Commands.{has_command};

use smk_flow::Job;
use smk_format::command;
use smk_plan_states::{Rank, is_to_run};
use std::alloc::Global;

// Whether the job is seen to have a command: not where there is no memory to look.
fn has_command(alloc: Global, cores: u64, job: &Job) -> bool
    ensures { result ≡ true → has_command cores job.now ≡ true }
{
    match command(alloc, job, job.threads.min(cores)) {
        Ok(_text) => true,
        Err(_) => false,
    }
}

// The same of all of them.
fn have_commands(alloc: Global, cores: u64, jobs: &[Job]) -> bool
    ensures { result ≡ true → list_all (has_command cores) jobs.now ≡ true }
{
    for job in jobs {
        if !has_command(alloc, cores, job) {
            return false;
        }
    }
    true
}

// Whether a job of one of these ranks is to run.
fn is_any_to_run(ranks: &[Rank]) -> bool {
    for rank in ranks {
        if is_to_run(*rank) {
            return true;
        }
    }
    false
}

/// Whether the jobs are seen to have commands. They are looked at only where one of them is to run, since the command of none is asked for elsewhere; and it
/// is `false` too where there is no memory to look.
pub(crate) fn are_seen(alloc: Global, cores: u64, jobs: &[Job], ranks: &[Rank]) -> bool
    ensures { result ≡ true → list_all (has_command cores) jobs.now ≡ true }
{
    is_any_to_run(ranks) && have_commands(alloc, cores, jobs)
}
