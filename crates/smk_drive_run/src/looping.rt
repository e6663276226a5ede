//! The loop of a run: its turns, one after another.

ghost use Rattle.std.specs.Prelude.{◌≡◌, ◌≢◌, ◌⊎◌, ◌<◌, ◌&&◌, false, true, not, is_none, Some, None, IfOk};
ghost use Rattle.std.specs.List.{list_all};
ghost use Rattle.smk_plan_live.specs.Lives.{IsLive};
ghost use Rattle.smk_report.specs.declared.fault.Fault.TheVariants as fault;
ghost use Rattle.smk_drive_step.specs.declared.children.Child.{Child as ChildValue};
ghost use Rattle.smk_laws_turns.specs.Turning.{faulted};
ghost use Rattle.smk_drive_hub.specs.Keeping.{parts_of};
ghost use Rattle.smk_drive_hub.specs.Turned.{IsBarelyMore, IsTakenFrom};
ghost use Rattle.smk_laws_begins.specs.Gone.{HasGone};
ghost use Rattle.smk_laws_begins.specs.Standing.{IsOver, IsReady, may_go_on, taken};
ghost use Rattle.smk_laws_begins.specs.Stepping.{HasStepped, IsFor, IsWithin};
ghost use Rattle.smk_laws_begins.specs.Whole.{IsThrough};
ghost use Rattle.smk_laws_begins.specs.Begins.{MayTake};
ghost use Rattle.smk_drive_run.specs.LoopKeeping.{IsNextOf, MayNext};

use crate::spending::{spend_at_rest, spend_once_started};
use smk_base::OutOfMemory;
use smk_drive_begin::start;
use smk_drive_close::wait;
use smk_drive_hub::{Ground, Hub};
use smk_drive_pick::next_job;
use smk_pick::Settings;
use smk_report::Fault;
use smk_world::{Crew, Sink};
use std::alloc::Global;
use std::thread::Threads;

// So many steps the loop takes at most: no run needs them.
const MOST_STEPS: u64 = 4611686018427387904;

// The job that begins next, if any may. `OutOfMemory` where there is no memory to tell it.
fn next_of(alloc: Global, hub: &Hub) -> Result<Option<u32>, OutOfMemory>
    requires { IsLive hub.now.live }
    ensures { IfOk result (IsNextOf (parts_of hub.now)) }
{
    let next = next_job(alloc, &hub.live, &hub.room)?;
    Ok(next)
}

// Whether jobs begin: no fault has come, and none has failed or the run is to go on.
fn begins(settings: &Settings, hub: &Hub) -> bool
    ensures { result ≡ (is_none hub.now.halt.fault && may_go_on settings.now (parts_of hub.now)) }
{
    hub.halt.is_none() && hub.goes_on(settings)
}

// The job that begins next, if one does. Want of memory is a fault, after which none does.
fn next(alloc: Global, settings: &Settings, hub: &mut Hub) -> Option<u32>
    requires { IsLive hub.old.live }
    ensures held { (parts_of hub.new ≡ parts_of hub.old) ⊎ (parts_of hub.new ≡ faulted fault.OutOfMemory (parts_of hub.old)) }
    ensures may { MayNext settings.now (parts_of hub.new) result }
{
    if !begins(settings, hub) {
        return None;
    }
    match next_of(alloc, hub) {
        Ok(next) => next,
        Err(OutOfMemory) => {
            hub.set(Fault::OutOfMemory);
            None
        }
    }
}

// Whether no child runs.
fn is_idle(hub: &Hub) -> bool
    ensures { result ≡ list_all is_none hub.now.children.places.items }
{
    hub.children.is_empty()
}

// Begins the job.
fn begin<W: Crew, O: Sink, Rt: Threads + Sync>(
    rt: &Rt,
    alloc: Global,
    ground: Ground<'_>,
    hub: &mut Hub,
    number: u32,
    work: &mut W,
    out: &mut O,
)
    requires ready { IsReady ground.flow.now ground.settings.now (parts_of hub.old) (W.device work.old) }
    requires may { MayTake ground.settings.now (parts_of hub.old) number }
    requires within { IsWithin 4611686018427387904 (parts_of hub.old) }
    ensures { HasStepped W.act ground.entry.flow.now ground.entry.settings.now (parts_of hub.old) (parts_of hub.new) None
        (W.device work.old) (W.device work.new) (O.sunk out.old) (O.sunk out.new) }
{
    start(rt, alloc, ground, hub, number, work, out);
}

// Where no job begins and no child runs: once outputs that are spent are gone, a job may begin after all. If none does, it is over.
fn look_again<W: Crew, O: Sink, Rt: Threads + Sync>(
    rt: &Rt,
    alloc: Global,
    ground: Ground<'_>,
    hub: &mut Hub,
    work: &mut W,
    out: &mut O,
) -> Option<bool>
    requires ready { IsReady ground.flow.now ground.settings.now (parts_of hub.old) (W.device work.old) }
    requires over { IsOver ground.settings.now (parts_of hub.old) }
    requires within { IsWithin 4611686018427387904 (parts_of hub.old) }
    requires free { list_all is_none hub.old.children.places.items ≡ true }
    ensures { HasStepped W.act ground.entry.flow.now ground.entry.settings.now (parts_of hub.old) (parts_of hub.new) result
        (W.device work.old) (W.device work.new) (O.sunk out.old) (O.sunk out.new) }
{
    spend_at_rest(alloc, ground, hub, work);
    match next(alloc, ground.settings, hub) {
        Some(number) => {
            begin(rt, alloc, ground, hub, number, work, out);
            None
        }
        None => Some(true),
    }
}

// Waits for a child, where no job begins. Outputs that are spent once its job was closed are removed.
fn attend<W: Crew, O: Sink, Rt: Threads + Sync>(
    rt: &Rt,
    alloc: Global,
    ground: Ground<'_>,
    hub: &mut Hub,
    work: &mut W,
    out: &mut O,
) -> Option<bool>
    requires ready { IsReady ground.flow.now ground.settings.now (parts_of hub.old) (W.device work.old) }
    requires over { IsOver ground.settings.now (parts_of hub.old) }
    requires within { IsWithin 4611686018427387904 (parts_of hub.old) }
    requires some { list_all is_none hub.old.children.places.items ≡ false }
    ensures { HasStepped W.act ground.entry.flow.now ground.entry.settings.now (parts_of hub.old) (parts_of hub.new) result
        (W.device work.old) (W.device work.new) (O.sunk out.old) (O.sunk out.new) }
{
    if !wait(rt, alloc, ground, hub, work, out) {
        return Some(false);
    }
    spend_once_started(alloc, ground, hub, work);
    None
}

// Goes on where no job begins.
fn rest<W: Crew, O: Sink, Rt: Threads + Sync>(
    rt: &Rt,
    alloc: Global,
    ground: Ground<'_>,
    hub: &mut Hub,
    work: &mut W,
    out: &mut O,
) -> Option<bool>
    requires ready { IsReady ground.flow.now ground.settings.now (parts_of hub.old) (W.device work.old) }
    requires over { IsOver ground.settings.now (parts_of hub.old) }
    requires within { IsWithin 4611686018427387904 (parts_of hub.old) }
    ensures { HasStepped W.act ground.entry.flow.now ground.entry.settings.now (parts_of hub.old) (parts_of hub.new) result
        (W.device work.old) (W.device work.new) (O.sunk out.old) (O.sunk out.new) }
{
    if is_idle(hub) {
        return look_again(rt, alloc, ground, hub, work, out);
    }
    attend(rt, alloc, ground, hub, work, out)
}

// One step of the loop: a job begins, or a child is waited for where none does. The answer is there once it is over: whether all children were waited for.
fn step<W: Crew, O: Sink, Rt: Threads + Sync>(
    rt: &Rt,
    alloc: Global,
    ground: Ground<'_>,
    hub: &mut Hub,
    work: &mut W,
    out: &mut O,
) -> Option<bool>
    requires ready { IsReady ground.flow.now ground.settings.now (parts_of hub.old) (W.device work.old) }
    requires within { IsWithin 4611686018427387904 (parts_of hub.old) }
    ensures { HasStepped W.act ground.entry.flow.now ground.entry.settings.now (parts_of hub.old) (parts_of hub.new) result
        (W.device work.old) (W.device work.new) (O.sunk out.old) (O.sunk out.new) }
{
    match next(alloc, ground.settings, hub) {
        Some(number) => {
            begin(rt, alloc, ground, hub, number, work, out);
            None
        }
        None => rest(rt, alloc, ground, hub, work, out),
    }
}

// Waits for a child, after a fault: memory is wanting.
fn drain_one<W: Crew, O: Sink, Rt: Threads + Sync>(
    rt: &Rt,
    alloc: Global,
    ground: Ground<'_>,
    hub: &mut Hub,
    work: &mut W,
    out: &mut O,
) -> bool
    requires ready { IsReady ground.flow.now ground.settings.now (parts_of hub.old) (W.device work.old) }
    requires within { IsFor 9223372036854775808 (parts_of hub.old) }
    requires some { list_all is_none hub.old.children.places.items ≡ false }
    ensures gone { HasGone W.act ground.entry.flow.now ground.entry.settings.now (parts_of hub.old) (parts_of hub.new) (not result)
        (W.device work.old) (W.device work.new) (O.sunk out.old) (O.sunk out.new) }
    ensures counts { IsBarelyMore hub.old.tally hub.new.tally }
    ensures less { result ≡ true → (c : ChildValue) × IsTakenFrom c hub.old.children.places.items hub.new.children.places.items }
{
    hub.set(Fault::OutOfMemory);
    wait(rt, alloc, ground, hub, work, out)
}

// Waits for all children, since memory is wanting for further steps.
fn drain<W: Crew, O: Sink, Rt: Threads + Sync>(
    rt: &Rt,
    alloc: Global,
    ground: Ground<'_>,
    hub: &mut Hub,
    work: &mut W,
    out: &mut O,
) -> bool
    requires ready { IsReady ground.flow.now ground.settings.now (parts_of hub.old) (W.device work.old) }
    requires within { IsFor 9223372036854775808 (parts_of hub.old) }
    ensures gone { HasGone W.act ground.entry.flow.now ground.entry.settings.now (parts_of hub.old) (parts_of hub.new) (not result)
        (W.device work.old) (W.device work.new) (O.sunk out.old) (O.sunk out.new) }
    ensures through { IsThrough ground.entry.flow.now ground.entry.settings.now (parts_of hub.new) (not result) (W.device work.new) }
{
    'children: while !is_idle(hub) {
        if !drain_one(rt, alloc, ground, hub, work, out) {
            return false;
        }
    }
    hub.set(Fault::OutOfMemory);
    true
}

/// Goes on from a run's start until none may begin and no child runs, or a wait fails. Whether all children were waited for.
pub(crate) fn go_on<W: Crew, O: Sink, Rt: Threads + Sync>(
    rt: &Rt,
    alloc: Global,
    ground: Ground<'_>,
    hub: &mut Hub,
    work: &mut W,
    out: &mut O,
) -> bool
    requires ready { IsReady ground.flow.now ground.settings.now (parts_of hub.old) (W.device work.old) }
    requires within { IsWithin 0 (parts_of hub.old) }
    ensures gone { HasGone W.act ground.entry.flow.now ground.entry.settings.now (parts_of hub.old) (parts_of hub.new) (not result)
        (W.device work.old) (W.device work.new) (O.sunk out.old) (O.sunk out.new) }
    ensures through { IsThrough ground.entry.flow.now ground.entry.settings.now (parts_of hub.new) (not result) (W.device work.new) }
{
    for _ in 0..MOST_STEPS {
        if let Some(waited) = step(rt, alloc, ground, hub, work, out) {
            return waited;
        }
    }
    drain(rt, alloc, ground, hub, work, out)
}
