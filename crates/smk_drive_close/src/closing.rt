//! A child is waited for, its job closed, and the plan grows.

ghost use Rattle.std.specs.Prelude.{◌≡◌, ◌≢◌, ◌<◌, not, None, Some, IsSome, false, true, is_none, option_map};
ghost use Rattle.std.specs.List.{list_all, slice_get};
ghost use Rattle.smk_job.specs.Jobs.{LetsClose};
ghost use Rattle.smk_world.specs.Devices.{WhereTold};
ghost use Rattle.smk_plan_live.specs.Lives.{IsLive};
ghost use Rattle.smk_drive_course.specs.Stands.{NoneLeft};
ghost use Rattle.smk_drive_step.specs.declared.children.Child.{Child as ChildValue};
ghost use Rattle.smk_drive_hub.specs.Keeping.{parts_of};
ghost use Rattle.smk_laws_turns.specs.Resting.{refused_command};
ghost use Rattle.smk_drive_hub.specs.Turned.{AreSeated, HasTurned, IsSteady, IsTakenFrom, Somewhere, WhereUnhalted};
ghost use Rattle.smk_laws_closes.specs.Ending.{HasEndedSo};
ghost use Rattle.smk_laws_closes.specs.Turns.{HasFollowed};

use crate::counts::is_good;
use crate::ends::note_end;
use crate::growing_on::grow;
use crate::tending::{job_at, tend};
use smk_base::Text;
use smk_drive_hub::{Ground, Hub};
use smk_drive_step::{Child, work_fault};
use smk_report::Fault;
use smk_run::{Ending, close_job};
use smk_world::{Crew, Sink};
use std::alloc::Global;
use std::thread::Threads;

// The end of the job of the number, which was closed and ended so, is put and counted; its outputs are made read-only, and the plan is told.
fn end<W: Crew, O: Sink>(
    alloc: Global,
    ground: Ground<'_>,
    hub: &mut Hub,
    number: u32,
    done: &Text,
    ending: Ending,
    work: &mut W,
    out: &mut O,
)
    requires live { IsLive hub.old.live }
    requires known { IsSome (slice_get hub.old.live.base.jobs.jobs number) }
    requires done { hub.old.tally.done < 18446744073709551615 }
    requires failed { hub.old.tally.failed < 18446744073709551615 }
    ensures ended { HasEndedSo W.act ground.entry.flow.now ground.entry.settings.now (parts_of hub.old) (parts_of hub.new) number done.now ending (W.device work.old)
        (W.device work.new) (O.sunk out.old) (O.sunk out.new) }
    ensures commands { hub.new.halt.fault ≡ None → refused_command ground.entry.flow.now ground.entry.settings.now hub.new.live ≡ None }
{
    let good = is_good(&ending);
    let Some(job) = job_at(&hub.live, number) else {
        return;
    };
    let noted = note_end(
        alloc,
        ground.flow,
        &mut hub.lines,
        &mut hub.tally,
        job,
        done,
        ending,
        out,
    );
    hub.heed(noted);
    let tended = tend(
        alloc,
        ground.flow,
        ground.settings,
        &hub.halt,
        &mut hub.live,
        number,
        good,
        work,
    );
    hub.heed(tended);
}

// Closes the job whose child ended with this status and was taken from its place.
fn close<W: Crew, O: Sink>(
    alloc: Global,
    ground: Ground<'_>,
    hub: &mut Hub,
    child: Child,
    status: u32,
    work: &mut W,
    out: &mut O,
)
    requires live { IsLive hub.old.live }
    requires room { WhereTold (W.device work.old) (λ w. LetsClose w child.going.recipe) }
    requires done { hub.old.tally.done < 18446744073709551615 }
    requires failed { hub.old.tally.failed < 18446744073709551615 }
    ensures followed { HasFollowed W.act ground.entry.flow.now ground.entry.settings.now (parts_of hub.old) (parts_of hub.new) child status (W.device work.old)
        (W.device work.new) (O.sunk out.old) (O.sunk out.new) }
    ensures commands { hub.new.halt.fault ≡ None → refused_command ground.entry.flow.now ground.entry.settings.now hub.new.live ≡ None }
{
    let Child {
        going,
        job,
        ask: _ask,
        done,
    } = child;
    if job_at(&hub.live, job).is_none() {
        hub.set(Fault::OutOfMemory);
        return;
    }
    match close_job(alloc, work, going, status) {
        Err(why) => hub.set(work_fault(why)),
        Ok(ending) => end(alloc, ground, hub, job, &done, ending, work, out),
    }
}

/// Waits for a child and closes its job, and goes by what that makes of the plan: where no fault has come it grows by the directories that have become known. After a
/// fault of the device it only waits. False where the wait failed: then children are left behind.
pub fn wait<W: Crew, O: Sink, Rt: Threads + Sync>(
    rt: &Rt,
    alloc: Global,
    ground: Ground<'_>,
    hub: &mut Hub,
    work: &mut W,
    out: &mut O,
) -> bool
    requires somewhere { WhereTold (W.device work.old) (Somewhere ground.flow.now ground.settings.now (parts_of hub.old)) }
    requires live { IsLive hub.old.live }
    requires steady { IsSteady ground.flow.now ground.settings.now (parts_of hub.old) }
    requires seated { AreSeated hub.old.children.places.items (W.device work.old).running }
    requires runs { list_all is_none hub.old.children.places.items ≡ false }
    requires done { hub.old.tally.done < 18446744073709551615 }
    requires failed { hub.old.tally.failed < 18446744073709551615 }
    requires none_left { WhereTold (W.device work.old) (WhereUnhalted NoneLeft ground.flow.now ground.settings.now (parts_of hub.old)) }
    ensures turned { HasTurned W.act ground.entry.flow.now ground.entry.settings.now (parts_of hub.old) (parts_of hub.new) (not result) (W.device work.old)
        (W.device work.new) (O.sunk out.old) (O.sunk out.new) }
    ensures less { result ≡ true → (c : ChildValue) × IsTakenFrom c hub.old.children.places.items hub.new.children.places.items }
{
    let Ok(ended) = work.wait() else {
        hub.set(Fault::Device);
        return false;
    };
    let Some(child) = hub.children.take(ended.number) else {
        return true;
    };
    hub.room.give(&child.ask);
    if hub.halt.only_waits() {
        return true;
    }
    close(alloc, ground, hub, child, ended.status, work, out);
    if !hub.halt.is_none() {
        return true;
    }
    grow(rt, alloc, ground, hub, work);
    true
}
