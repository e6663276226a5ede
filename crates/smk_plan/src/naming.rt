//! What jobs are named by.

ghost use Rattle.std.specs.Prelude.{◌≡◌};
ghost use Rattle.smk_plan.specs.States.{job_path};

use smk_chain::first_output;
use smk_flow::Job;

/// The text of the job's first output, by which it is named; an empty one where it has none.
pub fn name_of(job: &Job) -> &str
    ensures { result.now ≡ job_path job.now }
{
    match first_output(job) {
        Some(path) => path.as_str(),
        None => "",
    }
}
