//! The plan grows until no directory has become known.

ghost use Rattle.std.specs.Prelude.{◌≡◌, ◌≢◌, [], None, false, true};
ghost use Rattle.smk_plan_live.specs.Lives.{IsLive};
ghost use Rattle.smk_laws_turns.specs.Resting.{refused_command};
ghost use Rattle.smk_laws_turns.specs.GrownIn.{HasGrownIn};
ghost use Rattle.smk_drive_hub.specs.Keeping.{parts_of};

use crate::rounds::round_on;
use smk_drive_hub::{Ground, Hub};
use smk_plan_live::LivePlan;
use smk_report::Fault;
use smk_world::Files;
use std::alloc::Global;
use std::thread::Threads;

// Whether no directory has become known.
fn is_whole(live: &LivePlan) -> bool
    ensures whole { result ≡ true → live.now.plan.known ≡ [] }
    ensures more { result ≡ false → live.now.plan.known ≢ [] }
{
    live.known().is_empty()
}

/// Lets the plan grow as long as directories have become known, beside the children that run: in rounds, as each may make others known. In each the store is loaded
/// anew, sources are looked for, the jobs are derived anew, what is new is looked at, and all jobs are judged. Nothing is changed in the folder. Each round but the
/// last makes a listing known, so there are no more of them than directories with a record, and one.
///
/// A fault is set, after which no job begins: the first that is refused of the derivation, of a plan or of its commands; or `Device`, where a look failed, or
/// `OutOfMemory`.
pub(crate) fn grow<W: Files, Rt: Threads + Sync>(
    rt: &Rt,
    alloc: Global,
    ground: Ground<'_>,
    hub: &mut Hub,
    work: &mut W,
)
    requires live { IsLive hub.old.live }
    requires commands { refused_command ground.flow.now ground.settings.now hub.old.live ≡ None }
    ensures { HasGrownIn W.act ground.entry.flow.now ground.entry.settings.now (parts_of hub.old) (parts_of hub.new) (W.device work.old) (W.device work.new) }
{
    for _ in 0..u64::MAX {
        if is_whole(&hub.live) {
            return;
        }
        if let Err(fault) = round_on(rt, alloc, ground, hub, work) {
            hub.set(fault);
            return;
        }
    }
    hub.set(Fault::OutOfMemory);
}
