//! What jobs ask for.

ghost use Rattle.std.specs.Prelude.{◌≡◌, IfOk};
ghost use Rattle.smk_drive.specs.Lawful.{ask_of};

use smk_base::{Copied, OutOfMemory};
use smk_flow::Job;
use smk_pick::Ask;
use std::alloc::Global;

/// What the job asks for.
pub(crate) fn ask_of(alloc: Global, job: &Job) -> Result<Ask, OutOfMemory>
    ensures { IfOk result (λ ask. ask ≡ ask_of job.now) }
{
    Ok(Ask {
        threads: job.threads,
        amounts: job.amounts.copied(alloc)?,
        priority: job.priority,
    })
}
