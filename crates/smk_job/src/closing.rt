//! A job whose command has ended is closed.

ghost use Rattle.std.specs.Prelude.{◌≡◌, ◌≢◌, [], map, length, Err, ◌<◌, IfOk, IfSome, false, true, IfErr, is_err};
ghost use Rattle.std.specs.List.{list_any};
ghost use Rattle.smk_world.specs.Devices.{WhereTold, HasActed, HasCarried};
ghost use Rattle.smk_world.specs.Trees.{folders_of, outs_of};
ghost use Rattle.smk_job.specs.Jobs.{LetsClose, AreFree, abandon_requests};
ghost use Rattle.smk_job.specs.Sights.{HasFinished, HasSettledFiles, close_failed, is_folder_out, wrong_fault};
ghost use Rattle.smk_job.specs.Views.{close_fault};

use crate::fault::CloseFault;
use crate::folders::{View, look_through};
use crate::going::Going;
use crate::sight::{Wrong, has_folder, look_over, path_of};
use crate::steps::{keep, lose};
use smk_base::{Bytes, List, PathText};
use smk_store::JobPlaces;
use smk_world::{Crew, Failed, Files, Out, WorkFault};
use std::alloc::Global;

// The fault of the output at the path.
fn fault_of(wrong: Wrong, path: PathText) -> CloseFault
    ensures value { result ≡ wrong_fault wrong path }
    ensures no_failure { close_failed (Err result) ≡ false }
    ensures memory { result ≢ CloseFault.OutOfMemory }
{
    match wrong {
        Wrong::Absent => CloseFault::NoOutput(path),
        Wrong::OtherKind => CloseFault::WrongKind(path),
        Wrong::Unlisted => CloseFault::BadMember(path),
    }
}

// Looks at outputs that are to be files, and keeps or abandons them: what is wrong, and with which output, from 0.
fn settle_files<W: Files>(
    work: &mut W,
    outs: &[Out],
    places: &JobPlaces,
    records: &List<Bytes>,
) -> Result<Option<(usize, Wrong)>, Failed>
    requires files { list_any is_folder_out outs.now ≡ false }
    requires at { places.now.outputs ≡ map (λ out. out.path) outs.now }
    requires each { length records.now ≡ length places.now.records }
    requires unused { WhereTold (W.device work.old) (AreFree places.now) }
    ensures acted { HasActed W.act (HasSettledFiles outs.now places.now records.now result) (W.device work.old) (W.device work.new) (is_err result) }
    ensures within { IfOk result (λ found. IfSome found (λ wrong. wrong.0 < length outs.now)) }
{
    match look_over(work, outs, places.outputs.as_slice())? {
        None => {
            keep(work, places, records)?;
            Ok(None)
        }
        Some(found) => {
            lose(work, places)?;
            Ok(Some(found))
        }
    }
}

// Closes a job whose outputs are files.
fn finish_files<W: Files>(work: &mut W, going: Going) -> Result<(), CloseFault>
    requires files { list_any is_folder_out (outs_of going.recipe) ≡ false }
    requires room { WhereTold (W.device work.old) (λ w. LetsClose w going.recipe) }
    ensures acted { HasActed W.act (HasFinished going result) (W.device work.old) (W.device work.new) (close_failed result) }
    ensures memory { IfErr result (λ fault. fault ≢ CloseFault.OutOfMemory) }
{
    let ready = going.ready;
    match settle_files(work, ready.outs.as_slice(), &ready.places, &ready.records) {
        Ok(None) => Ok(()),
        Ok(Some((at, wrong))) => Err(fault_of(wrong, path_of(ready.outs, at))),
        Err(Failed) => Err(CloseFault::Device),
    }
}

// The fault of a call, as that of closing.
fn fault_in(fault: WorkFault) -> CloseFault
    ensures { result ≡ close_fault fault }
{
    match fault {
        WorkFault::Failed => CloseFault::Device,
        WorkFault::OutOfMemory => CloseFault::OutOfMemory,
    }
}

// Closes a job that has directories among its outputs.
fn finish_folders<W: Files>(alloc: Global, work: &mut W, going: Going) -> Result<(), CloseFault>
    requires folders { list_any is_folder_out (outs_of going.recipe) ≡ true }
    requires room { WhereTold (W.device work.old) (λ w. LetsClose w going.recipe) }
    ensures acted { HasActed W.act (HasFinished going result) (W.device work.old) (W.device work.new) (close_failed result) }
    ensures memory { folders_of going.recipe ≢ [] }
{
    let ready = going.ready;
    match look_through(alloc, work, &ready) {
        Ok(View::Records(records)) => match keep(work, &ready.places, &records) {
            Ok(()) => Ok(()),
            Err(Failed) => Err(CloseFault::Device),
        },
        Ok(View::Wrongly(at, wrong)) => match lose(work, &ready.places) {
            Ok(()) => Err(fault_of(wrong, path_of(ready.outs, at))),
            Err(Failed) => Err(CloseFault::Device),
        },
        Err(fault) => Err(fault_in(fault)),
    }
}

/// Closes a job whose command ended with status 0: looks at each output, and lists a directory with all that is under it; settles
/// the outputs; writes the records and settles them; removes the marks and settles that.
///
/// `NoOutput`, `WrongKind`, `BadMember`: the first output, in order, that isn't as it should be; then the job has been abandoned. `Device`:
/// a call failed, and none came after it; the marks stay until all records are firm, and may be gone after that. `OutOfMemory`: there is
/// no memory for what is under a directory output; then nothing was changed, and the marks stay.
///
/// Where the world is told, no running child owns or reads an output.
pub fn finish<W: Crew>(alloc: Global, work: &mut W, going: Going) -> Result<(), CloseFault>
    requires room { WhereTold (W.device work.old) (λ w. LetsClose w going.recipe) }
    ensures acted { HasActed W.act (HasFinished going result) (W.device work.old) (W.device work.new) (close_failed result) }
    ensures memory { IfErr result (λ fault. fault ≡ CloseFault.OutOfMemory → folders_of going.recipe ≢ []) }
{
    if has_folder(going.ready.outs.as_slice()) {
        finish_folders(alloc, work, going)
    } else {
        finish_files(work, going)
    }
}

/// Closes a job whose command has ended, without its outputs: removes them and their records and settles that; removes the marks and
/// settles that. Notes and logs stay.
///
/// `Failed`: a call failed, and none came after it; the marks may still be there.
///
/// Where the world is told, no running child owns or reads an output.
pub fn abandon<W: Crew>(work: &mut W, going: Going) -> Result<(), Failed>
    requires room { WhereTold (W.device work.old) (λ w. LetsClose w going.recipe) }
    ensures { HasCarried W.act (abandon_requests going) (W.device work.old) (W.device work.new) (is_err result) }
{
    lose(work, &going.ready.places)
}
