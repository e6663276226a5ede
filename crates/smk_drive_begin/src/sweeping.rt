//! A sweep.

ghost use Rattle.std.specs.Prelude.{◌≡◌, false, is_err};
ghost use Rattle.smk_world.specs.Devices.{HasCarried, Sunk, WhereTold};
ghost use Rattle.smk_plan_live.specs.Lives.{IsLive};
ghost use Rattle.smk_drive_course.specs.Steps.{MaySpend};
ghost use Rattle.smk_drive_hub.specs.Keeping.{parts_of};
ghost use Rattle.smk_drive_hub.specs.Turned.{HasTurned, Somewhere, WhereUnhalted};
ghost use Rattle.smk_drive_begin.specs.Rounds.{IsConcluded, IsFirm, settle_requests};

use crate::rounds::{Round, sweep_all};
use smk_base::{List, Place};
use smk_drive_hub::{Ground, Hub};
use smk_report::Fault;
use smk_world::{Failed, Files};
use std::alloc::Global;

// Makes removals firm, if any were made.
fn settle_all<W: Files>(work: &mut W, removed: &List<Place>) -> Result<(), Failed>
    ensures { HasCarried W.act (settle_requests removed.now) (W.device work.old) (W.device work.new) (is_err result) }
{
    match removed.as_slice() {
        [] => Ok(()),
        [_, ..] => work.settle(removed),
    }
}

// The same, before this is answered.
fn firm<W: Files>(
    work: &mut W,
    removed: &List<Place>,
    answer: Result<(), Fault>,
) -> Result<(), Fault>
    ensures { IsFirm W.act removed.now answer result (W.device work.old) (W.device work.new) }
{
    match settle_all(work, removed) {
        Ok(()) => answer,
        Err(Failed) => Err(Fault::Device),
    }
}

// What is answered after the last round, once removals were made firm.
fn conclude<W: Files>(work: &mut W, removed: &List<Place>, round: Round) -> Result<(), Fault>
    ensures { IsConcluded W.act removed.now round (W.device work.old) (W.device work.new) result }
{
    match round {
        Round::Removed => firm(work, removed, Ok(())),
        Round::Done => firm(work, removed, Ok(())),
        Round::Halted(fault) => firm(work, removed, Err(fault)),
        Round::Broken => Err(Fault::Device),
    }
}

/// Removes the outputs that are spent, unless a fault came: each while it is spent by the plan as it stands then. A job has begun, or none may.
///
/// A refusal of the plan that comes by a removal, want of memory, or a call that failed is the fault of the run from then on.
pub fn sweep<W: Files>(alloc: Global, ground: Ground<'_>, hub: &mut Hub, work: &mut W)
    requires live { IsLive hub.old.live }
    requires somewhere { WhereTold (W.device work.old) (λ w. Somewhere ground.flow.now ground.settings.now (parts_of hub.old) w) }
    requires late { WhereTold (W.device work.old) (λ w. WhereUnhalted MaySpend ground.flow.now ground.settings.now (parts_of hub.old) w) }
    ensures turned { (sunk : Sunk) → HasTurned W.act ground.entry.flow.now ground.entry.settings.now (parts_of hub.old) (parts_of hub.new) false
        (W.device work.old) (W.device work.new) sunk sunk }
    ensures places { hub.new.children.places.items ≡ hub.old.children.places.items }
    ensures tally { hub.new.tally ≡ hub.old.tally }
{
    if !hub.halt.is_none() {
        return;
    }
    let mut removed = List::new(alloc);
    let round = sweep_all(alloc, ground.flow, ground.settings, hub, &mut removed, work);
    let answer = conclude(work, &removed, round);
    hub.heed(answer);
}
