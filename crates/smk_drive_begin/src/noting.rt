//! A job that has begun is noted: its child has a place, it is counted, put, and told to the plan.

ghost use Rattle.std.specs.Prelude.{◌≡◌, ◌<◌, ◌+◌, ◌++◌, ◌∷◌, [], true, Some, None, is_none, List as Items};
ghost use Rattle.std.specs.List.{list_any, slice_get};
ghost use Rattle.smk_base.specs.declared.tree.Amount.{Amount};
ghost use Rattle.smk_pick.specs.declared.room.Ask.{Ask as Asked};
ghost use Rattle.smk_pick.specs.Shares.{Holds, fits_in};
ghost use Rattle.smk_plan_live.specs.declared.phase.Phase.TheVariants as phase;
ghost use Rattle.smk_plan_live.specs.Lives.{IsLive};
ghost use Rattle.smk_drive_step.specs.Crews.{IsPutFor};
ghost use Rattle.smk_laws_begins.specs.Fitting.{next_after};
ghost use Rattle.smk_laws_begins.specs.Noting.{IsToldBegun, child_of, told_and_put};
ghost use Rattle.smk_drive_hub.specs.Keeping.{parts_of};
ghost use Rattle.smk_drive_begin.specs.Kits.{IsNoted, IsSeated, lost_fault, put_answer};

use crate::kit::Kit;
use smk_base::Text;
use smk_drive_hub::{Ground, Hub, answer_of};
use smk_drive_step::Child;
use smk_flow::Workflow;
use smk_job::Going;
use smk_pick::{Ask, Settings};
use smk_plan_live::LivePlan;
use smk_report::Fault;
use smk_world::Sink;
use std::alloc::Global;

// The child of the job of the number is in a free place, what the job asks for is taken of the room, and its start is counted.
fn seat(hub: &mut Hub, number: u32, going: Going, ask: Ask, done: Text)
    requires fits { fits_in hub.old.room ask ≡ true }
    requires free { list_any is_none hub.old.children.places.items ≡ true }
    requires counts { hub.old.tally.started < 18446744073709551615 }
    ensures { IsSeated (parts_of hub.old) (parts_of hub.new) (child_of going number ask done) }
{
    hub.room.take(&ask);
    let _ = hub.children.put(Child {
        going,
        job: number,
        ask,
        done,
    });
    hub.tally.started += 1;
}

// The serial that is drawn next, once this one was, if it was.
fn next_after(draws: bool, next: Option<u64>) -> Option<u64>
    ensures { result ≡ next_after draws next }
{
    if !draws {
        return next;
    }
    match next {
        Some(made) => made.checked_add(1),
        None => None,
    }
}

// The plan is told that the job of the number has begun.
fn tell_begun(
    alloc: Global,
    flow: &Workflow,
    settings: &Settings,
    live: &mut LivePlan,
    number: u32,
) -> Result<(), Fault>
    requires live { IsLive live.old }
    requires waiting { slice_get live.old.base.phases number ≡ Some phase.Waiting }
    ensures { IsToldBegun flow.now settings.now number live.old live.new result }
{
    let told = live.began(alloc, number);
    answer_of(alloc, flow, settings, live, told)
}

// The fault where the line couldn't be put: that, unless the plan isn't gone by either.
fn lost_fault(told: &Result<(), Fault>) -> Fault
    ensures { result ≡ lost_fault told.now }
{
    match told {
        Ok(()) => Fault::Output,
        Err(_) => Fault::OutOfMemory,
    }
}

// What is answered where the plan was told and the line was put, if it was: a line is missing only where that, or want of memory, is what came first.
fn told_and_put(told: Result<(), Fault>, put: bool) -> Result<(), Fault>
    ensures { result ≡ told_and_put told (put_answer put) }
{
    if put {
        return told;
    }
    Err(lost_fault(&told))
}

/// The job of the number has begun, and its child runs: that is counted, told to the plan, and put.
pub(crate) fn note_start<O: Sink>(
    alloc: Global,
    ground: Ground<'_>,
    hub: &mut Hub,
    number: u32,
    going: Going,
    kit: Kit,
    out: &mut O,
)
    requires live { IsLive hub.old.live }
    requires waiting { slice_get hub.old.live.base.phases number ≡ Some phase.Waiting }
    requires fits { fits_in hub.old.room kit.ask ≡ true }
    requires free { list_any is_none hub.old.children.places.items ≡ true }
    requires counts { hub.old.tally.started < 18446744073709551615 }
    ensures { IsNoted ground.entry.flow.now ground.entry.settings.now (parts_of hub.old) (parts_of hub.new) number kit going (O.sunk out.old) (O.sunk out.new) }
{
    let Kit {
        known: _known,
        made: _,
        draws,
        command: _command,
        ask,
        start,
        done,
    } = kit;
    seat(hub, number, going, ask, done);
    hub.next = next_after(draws, hub.next);
    let told = tell_begun(alloc, ground.flow, ground.settings, &mut hub.live, number);
    let put = hub.lines.put(out, &start).is_ok();
    hub.heed(told_and_put(told, put));
}
