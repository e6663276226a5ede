//! Looks at the outputs of a job that has directories among them.

ghost use Rattle.std.specs.Prelude.{◌≡◌, ◌<◌, [], length, true, IfOk};
ghost use Rattle.smk_world.specs.Calls.{device_failed};
ghost use Rattle.smk_world.specs.Devices.{HasActed};
ghost use Rattle.smk_world.specs.Trees.{among, folders_of, is_folder_kind};
ghost use Rattle.smk_record.specs.Records.{record_of, is_valid};
ghost use Rattle.smk_job.specs.Jobs.{IsReady};
ghost use Rattle.smk_job.specs.Views.{core, sight_of, HasLookedInto, HasLookedAt, HasLookedThrough, IsSized};

use crate::going::Ready;
use crate::reserve::copy_stamps;
use crate::sight::{Wrong, wrong_of};
use smk_base::{Bytes, Copied, List, OutOfMemory, PathText, Place};
use smk_record::{Member, Record, write};
use smk_store_members::{Listed, members_of};
use smk_world::{Files, Kind, Out, WorkFault};
use std::alloc::Global;

/// What a look at an output came to.
#[derive(Drop)]
pub(crate) enum Sight {
    /// It is as it should be: the bytes of its record, with its members.
    Good(Bytes),
    /// Something is wrong with it.
    Bad(Wrong),
}

/// What looks at all outputs came to.
#[derive(Drop)]
pub(crate) enum View {
    /// The bytes of their records, with their members.
    Records(List<Bytes>),
    /// Something is wrong with the output of this number, from 0.
    Wrongly(usize, Wrong),
}

// The output with these members.
fn sight_of(
    alloc: Global,
    ready: &Ready,
    path: &PathText,
    members: List<Member>,
) -> Result<Sight, OutOfMemory>
    ensures { IfOk result (λ sight. sight ≡ sight_of (core ready.now.recipe ready.now.stamps ready.now.made) path.now members) }
{
    let kept = Record::new(
        path.copy(alloc)?,
        ready.made,
        ready.recipe.copied(alloc)?,
        copy_stamps(alloc, ready.stamps.as_slice())?,
        members,
    );
    match kept {
        Some(kept) => Ok(Sight::Good(write(alloc, &kept)?)),
        None => Ok(Sight::Bad(Wrong::Unlisted)),
    }
}

// Lists the directory at the path, which is an output.
fn look_into<W: Files>(
    alloc: Global,
    work: &mut W,
    ready: &Ready,
    path: &PathText,
) -> Result<Sight, WorkFault>
    requires folder { among (folders_of ready.now.recipe) path.now ≡ true }
    requires valid { is_valid (record_of path.now ready.now.made ready.now.recipe ready.now.stamps []) ≡ true }
    ensures { HasActed W.act (HasLookedInto (core ready.now.recipe ready.now.stamps ready.now.made) path.now result) (W.device work.old) (W.device work.new) (device_failed result) }
{
    match members_of(alloc, work, path)? {
        Listed::BadMember => Ok(Sight::Bad(Wrong::Unlisted)),
        Listed::Members(members) => Ok(sight_of(alloc, ready, path, members)?),
    }
}

// Looks at an output, and lists it where it is a directory.
fn look_one<W: Files>(
    alloc: Global,
    work: &mut W,
    ready: &Ready,
    out: &Out,
    place: &Place,
) -> Result<Sight, WorkFault>
    requires at { place.now ≡ out.now.path }
    requires folder { is_folder_kind out.now.kind ≡ true → among (folders_of ready.now.recipe) out.now.path ≡ true }
    requires valid { is_valid (record_of out.now.path ready.now.made ready.now.recipe ready.now.stamps []) ≡ true }
    ensures { HasActed W.act (HasLookedAt (core ready.now.recipe ready.now.stamps ready.now.made) out.now result) (W.device work.old) (W.device work.new) (device_failed result) }
{
    let stat = work.stat(place)?;
    match wrong_of(out.kind, stat) {
        Some(wrong) => Ok(Sight::Bad(wrong)),
        None => match out.kind {
            Kind::Plain => Ok(sight_of(alloc, ready, &out.path, List::new(alloc))?),
            Kind::Folder => look_into(alloc, work, ready, &out.path),
        },
    }
}

/// Looks at the outputs and lists what is under directories, up to the first output with which something is wrong.
pub(crate) fn look_through<W: Files>(
    alloc: Global,
    work: &mut W,
    ready: &Ready,
) -> Result<View, WorkFault>
    requires ready { IsReady ready.now.recipe ready.now.logs ready.now.stamps ready.now.made ready.now.outs ready.now.places ready.now.records }
    ensures looked { HasActed W.act (HasLookedThrough (core ready.now.recipe ready.now.stamps ready.now.made) ready.now.outs result) (W.device work.old) (W.device work.new) (device_failed result) }
    ensures sizes { IfOk result (λ view. IsSized (length ready.now.outs) view) }
{
    let outs = ready.outs.as_slice();
    let places = ready.places.outputs.as_slice();
    let mut records = List::new(alloc);
    for (i, out) in outs.iter().enumerate() {
        match look_one(alloc, work, ready, out, &places[i])? {
            Sight::Good(bytes) => records.push(bytes)?,
            Sight::Bad(wrong) => return Ok(View::Wrongly(i, wrong)),
        }
    }
    Ok(View::Records(records))
}
