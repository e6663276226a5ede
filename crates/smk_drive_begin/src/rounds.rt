//! One output is removed after another.

ghost use Rattle.std.specs.Prelude.{◌≡◌, ◌++◌, ◌∷◌, [], None, Some, IfOk, OnErr, OnOk};
ghost use Rattle.smk_world.specs.Devices.{WhereTold};
ghost use Rattle.smk_plan_live.specs.Lives.{IsLive};
ghost use Rattle.smk_laws_begins.specs.Sweeping.{IsFirstSpent, with_live};
ghost use Rattle.smk_drive_hub.specs.Keeping.{parts_of};
ghost use Rattle.smk_drive_hub.specs.Turned.{Somewhere};
ghost use Rattle.smk_drive_begin.specs.Rounds.{HasRound, HasSwept, IsToldRound};

use crate::finding::first_spent;
use smk_base::{List, OutOfMemory, PathText, Place};
use smk_drive_hub::{Hub, answer_of};
use smk_flow::Workflow;
use smk_pick::Settings;
use smk_report::Fault;
use smk_world::{Failed, Files};
use std::alloc::Global;

/// What came of a round.
#[derive(Drop)]
pub(crate) enum Round {
    /// An output was removed, and the plan goes on.
    Removed,
    /// None is spent.
    Done,
    /// The plan that has come is refused, or memory is wanting.
    Halted(Fault),
    /// The call failed that was to remove one.
    Broken,
}

// The place of the output, which is put among those that are removed.
fn put_among(
    alloc: Global,
    removed: &mut List<Place>,
    path: &PathText,
) -> Result<Place, OutOfMemory>
    ensures ok { OnOk result (removed.new ≡ removed.old ++ path.now ∷ []) }
    ensures err { OnErr result (removed.new ≡ removed.old) }
    ensures place { IfOk result (λ place. place ≡ path.now) }
{
    let place = Place::user(alloc, path)?;
    let copy = Place::user(alloc, path)?;
    removed.push(copy)?;
    Ok(place)
}

// Tells the plan that the output was removed.
fn tell(
    alloc: Global,
    flow: &Workflow,
    settings: &Settings,
    hub: &mut Hub,
    path: &PathText,
) -> Round
    requires live { IsLive hub.old.live }
    ensures told { IsToldRound flow.now settings.now path.now hub.old.live hub.new.live result }
    ensures only { parts_of hub.new ≡ with_live hub.new.live (parts_of hub.old) }
{
    let told = hub.live.spent(alloc, path);
    match answer_of(alloc, flow, settings, &hub.live, told) {
        Ok(()) => Round::Removed,
        Err(fault) => Round::Halted(fault),
    }
}

// Removes the output, which is the first that is spent, and tells the plan.
fn remove_one<W: Files>(
    alloc: Global,
    flow: &Workflow,
    settings: &Settings,
    hub: &mut Hub,
    removed: &mut List<Place>,
    path: &PathText,
    work: &mut W,
) -> Round
    requires live { IsLive hub.old.live }
    requires unhalted { hub.old.halt.fault ≡ None }
    requires somewhere { WhereTold (W.device work.old) (λ w. Somewhere flow.now settings.now (parts_of hub.old) w) }
    requires found { IsFirstSpent hub.old.live (Some path.now) }
    ensures { HasRound W.act flow.now settings.now (parts_of hub.old) (parts_of hub.new) removed.old removed.new result
        (W.device work.old) (W.device work.new) }
{
    match put_among(alloc, removed, path) {
        Ok(place) => match work.remove(&place) {
            Ok(()) => tell(alloc, flow, settings, hub, path),
            Err(Failed) => Round::Broken,
        },
        Err(OutOfMemory) => Round::Halted(Fault::OutOfMemory),
    }
}

// Removes the first output that is spent, if any.
fn sweep_one<W: Files>(
    alloc: Global,
    flow: &Workflow,
    settings: &Settings,
    hub: &mut Hub,
    removed: &mut List<Place>,
    work: &mut W,
) -> Round
    requires live { IsLive hub.old.live }
    requires unhalted { hub.old.halt.fault ≡ None }
    requires somewhere { WhereTold (W.device work.old) (λ w. Somewhere flow.now settings.now (parts_of hub.old) w) }
    ensures { HasRound W.act flow.now settings.now (parts_of hub.old) (parts_of hub.new) removed.old removed.new result
        (W.device work.old) (W.device work.new) }
{
    match first_spent(alloc, &hub.live) {
        Ok(Some(path)) => remove_one(alloc, flow, settings, hub, removed, &path, work),
        Ok(None) => Round::Done,
        Err(OutOfMemory) => Round::Halted(Fault::OutOfMemory),
    }
}

/// Removes the outputs that are spent, one after another, where no fault has come. None has been removed before.
pub(crate) fn sweep_all<W: Files>(
    alloc: Global,
    flow: &Workflow,
    settings: &Settings,
    hub: &mut Hub,
    removed: &mut List<Place>,
    work: &mut W,
) -> Round
    requires live { IsLive hub.old.live }
    requires unhalted { hub.old.halt.fault ≡ None }
    requires somewhere { WhereTold (W.device work.old) (λ w. Somewhere flow.now settings.now (parts_of hub.old) w) }
    requires none { removed.old ≡ [] }
    ensures { HasSwept W.act flow.now settings.now (parts_of hub.old) (parts_of hub.new) removed.new result
        (W.device work.old) (W.device work.new) }
{
    for _ in 0..u64::MAX {
        match sweep_one(alloc, flow, settings, hub, removed, work) {
            Round::Removed => {}
            Round::Done => return Round::Done,
            Round::Halted(fault) => return Round::Halted(fault),
            Round::Broken => return Round::Broken,
        }
    }
    Round::Removed
}
