//! A job is closed whose child runs.

ghost use Rattle.std.specs.Prelude.{◌≡◌, ◌∷◌, []};
ghost use Rattle.smk_world.specs.Calls.{device_failed};
ghost use Rattle.smk_world.specs.Devices.{HasActed, HasEnded, WhereTold};
ghost use Rattle.smk_job.specs.Jobs.{LetsClose};
ghost use Rattle.smk_run.specs.Statuses.{HasGiven};
ghost use Rattle.smk_run.specs.Closings.{HasSettled, HasClosed, ending_of};

use crate::Ending;
use smk_job::{CloseFault, Going, abandon, finish};
use smk_world::{Crew, Failed, Files, WorkFault};
use std::alloc::Global;

// How a job ended whose outputs were looked at, or why it isn't closed.
fn ending_of(closed: Result<(), CloseFault>) -> Result<Ending, WorkFault>
    ensures { result ≡ ending_of closed }
{
    match closed {
        Ok(()) => Ok(Ending::Good),
        Err(CloseFault::NoOutput(path)) => Ok(Ending::NoOutput(path)),
        Err(CloseFault::WrongKind(path)) => Ok(Ending::WrongKind(path)),
        Err(CloseFault::BadMember(path)) => Ok(Ending::BadMember(path)),
        Err(CloseFault::Device) => Err(WorkFault::Failed),
        Err(CloseFault::OutOfMemory) => Err(WorkFault::OutOfMemory),
    }
}

/// Closes the job, whose child ended with this status: finishes it after status 0, and abandons it after another one. The answer is how the job ended.
///
/// `WorkFault::Failed`: a call of the device failed, and none came after it. `WorkFault::OutOfMemory`: there is no memory for what is under a directory output;
/// then nothing was changed, and the marks stay.
///
/// Where the world is told, no running child owns or reads an output.
pub fn close_job<W: Crew>(
    alloc: Global,
    work: &mut W,
    going: Going,
    status: u32,
) -> Result<Ending, WorkFault>
    requires room { WhereTold (W.device work.old) (λ w. LetsClose w going.recipe) }
    ensures { HasActed W.act (HasSettled going result status) (W.device work.old) (W.device work.new) (device_failed result) }
{
    if status == 0 {
        let closed = finish(alloc, work, going);
        ending_of(closed)
    } else {
        match abandon(work, going) {
            Ok(()) => Ok(Ending::Status(status)),
            Err(Failed) => Err(WorkFault::Failed),
        }
    }
}

// Waits for the job's child, and closes the job by its status.
pub(crate) fn close<W: Crew>(alloc: Global, work: &mut W, going: Going) -> Result<Ending, WorkFault>
    requires one_runs { (W.device work.old).running ≡ going.number ∷ [] }
    ensures closed { HasEnded W.act (HasClosed going result) (W.device work.old) (W.device work.new) (device_failed result) }
    ensures given { HasGiven W.act (W.device work.old) (W.device work.new) }
{
    let Ok(ended) = work.wait() else {
        return Err(WorkFault::Failed);
    };
    close_job(alloc, work, going, ended.status)
}
