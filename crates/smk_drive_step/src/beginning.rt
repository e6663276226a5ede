//! A job begins, once the sources among its inputs have been read.

ghost use Rattle.std.specs.Prelude.{◌≡◌, ◌≤◌, Contains, IfOk, IsTrue, length, map, true};
ghost use Rattle.std.specs.List.{list_all};
ghost use Rattle.smk_base.specs.declared.tree.Pair.{Pair};
ghost use Rattle.smk_world.specs.Devices.{WhereTold};
ghost use Rattle.smk_world.specs.Trees.{Each, is_path_text};
ghost use Rattle.smk_world.specs.World.{in_paths};
ghost use Rattle.smk_record.specs.Records.{are_rising, is_earlier};
ghost use Rattle.smk_job.specs.Jobs.{LetsBegin, begin_failed};
ghost use Rattle.smk_job.specs.Starts.{HasStarted, begun_child};
ghost use Rattle.smk_drive_step.specs.Beginning.{HasTakenUp, unread};

use crate::summing::digested;
use smk_base::PathText;
use smk_flow::Job;
use smk_job::{BeginFault, Going, begin};
use smk_record::Stamp;
use smk_world::{Crew, WorkFault};
use std::alloc::Global;
use std::thread::Threads;

// Goes over the paths, which tells that their texts are those of paths.
fn see_paths(paths: &[PathText])
    ensures { Each (λ p. IsTrue (is_path_text p)) paths.now }
{
    for path in paths {
        // The call tells that the text is a path's.
        let _text = path.as_str();
    }
}

// Why the job doesn't begin whose sources weren't read.
fn unread(why: WorkFault) -> BeginFault
    ensures { result ≡ unread why }
{
    match why {
        WorkFault::Failed => BeginFault::Device,
        WorkFault::OutOfMemory => BeginFault::OutOfMemory,
    }
}

/// Begins the job with this command, whose records are to have the serial `made` and these stamps, as they are known of its inputs: first each
/// source of which no digest is known is read for its digest. Its child runs then.
///
/// `TooLong` exactly where a record without members would have more than 1,048,576 bytes, with the bytes of the first output's that would: then
/// sources were read, and no other call was made. `Device`: a call failed, and none came after it. `OutOfMemory`: there is no memory for what is
/// read, or for the job; at most sources were read then.
///
/// There is a stamp for each path of the recipe's inputs, in order, which a record with this serial may have. Where the world is told, running
/// children leave room for the job.
pub fn begin_job<W: Crew, Rt: Threads + Sync>(
    rt: &Rt,
    alloc: Global,
    job: &Job,
    known: &[Stamp],
    made: u64,
    command: &str,
    work: &mut W,
) -> Result<Going, BeginFault>
    requires each { length known.now ≡ length (in_paths job.now.recipe) }
    requires earlier { list_all (is_earlier made) known.now ≡ true }
    requires positive { 1 ≤ made }
    requires wildcards { are_rising (map (λ (w : Pair). w.name) job.now.recipe.wildcards) ≡ true }
    requires room { WhereTold (W.device work.old) (λ w. LetsBegin w job.now.recipe job.now.logs) }
    ensures taken { HasStarted W.act (HasTakenUp job.now known.now made command.now result) (begun_child result) (W.device work.old) (W.device work.new)
        (begin_failed result) }
    ensures fresh { IfOk result (λ going. ¬ (Contains (W.device work.old).running going.number)) }

    // Its logs are paths in UTF-8.
    ensures logged { Each (λ p. IsTrue (is_path_text p)) job.now.logs }
{
    see_paths(job.logs.as_slice());
    match digested(rt, alloc, job, known, made, work) {
        Ok(stamps) => begin(alloc, work, job, &stamps, made, command),
        Err(why) => Err(unread(why)),
    }
}
