//! The job that is next begins.

ghost use Rattle.std.specs.Prelude.{◌≡◌, ◌<◌, ◌⊎◌, ◌||◌, None, Some, false, true, nat_eq};
ghost use Rattle.smk_world.specs.Devices.{WhereTold};
ghost use Rattle.smk_plan_live.specs.Lives.{IsLive};
ghost use Rattle.smk_drive_step.specs.declared.children.Child.{Child};
ghost use Rattle.smk_drive_step.specs.Crews.{IsPutFor};
ghost use Rattle.smk_laws_begins.specs.Begins.{MayTake};
ghost use Rattle.smk_drive_hub.specs.Keeping.{heeded, parts_of};
ghost use Rattle.smk_drive_hub.specs.Turned.{HasTurned, Somewhere};
ghost use Rattle.smk_drive_begin.specs.Kits.{ArePlaced};

use crate::noting::note_start;
use crate::packing::kit_of;
use crate::taking::take_up;
use smk_drive_hub::{Ground, Hub};
use smk_report::Fault;
use smk_world::{Crew, Sink};
use std::alloc::Global;
use std::thread::Threads;

// Begins the job of the number: all memory is taken, and all is refused, before the device is touched.
fn begin<W: Crew, O: Sink, Rt: Threads + Sync>(
    rt: &Rt,
    alloc: Global,
    ground: Ground<'_>,
    hub: &mut Hub,
    number: u32,
    work: &mut W,
    out: &mut O,
) -> Result<(), Fault>
    requires somewhere { WhereTold (W.device work.old) (λ w. Somewhere ground.flow.now ground.settings.now (parts_of hub.old) w) }
    requires live { IsLive hub.old.live }
    requires may { MayTake ground.settings.now (parts_of hub.old) number }
    requires counts { hub.old.tally.started < 18446744073709551615 }
    ensures turned { HasTurned W.act ground.entry.flow.now ground.entry.settings.now (parts_of hub.old) (heeded result (parts_of hub.new)) false
        (W.device work.old) (W.device work.new) (O.sunk out.old) (O.sunk out.new) }
    ensures places { ArePlaced hub.old.children.places.items hub.new.children.places.items }
{
    let Some(job) = hub.live.jobs().jobs.as_slice().get(number as usize) else {
        return Err(Fault::OutOfMemory);
    };
    let kit = kit_of(alloc, ground, hub, number, job)?;
    match take_up(rt, alloc, ground, hub, number, job, &kit, work) {
        Ok(going) => {
            note_start(alloc, ground, hub, number, going, kit, out);
            Ok(())
        }
        Err(fault) => Err(fault),
    }
}

/// Begins the job of the number, which is the one that is next by the plan that is kept, where no fault has come: its child runs then, it is counted, its line put,
/// and the plan told of it. Where it doesn't begin, no further job does.
///
/// The faults: `Serials` where it is to draw a serial and none is left; `TooLong` where a record would be too long; what is refused of the plan once it has begun;
/// `Device`, `Output`, `OutOfMemory`.
pub fn start<W: Crew, O: Sink, Rt: Threads + Sync>(
    rt: &Rt,
    alloc: Global,
    ground: Ground<'_>,
    hub: &mut Hub,
    number: u32,
    work: &mut W,
    out: &mut O,
)
    requires somewhere { WhereTold (W.device work.old) (λ w. Somewhere ground.flow.now ground.settings.now (parts_of hub.old) w) }
    requires live { IsLive hub.old.live }
    requires may { MayTake ground.settings.now (parts_of hub.old) number }
    requires counts { hub.old.tally.started < 18446744073709551615 }
    ensures turned { HasTurned W.act ground.entry.flow.now ground.entry.settings.now (parts_of hub.old) (parts_of hub.new) false
        (W.device work.old) (W.device work.new) (O.sunk out.old) (O.sunk out.new) }
    ensures places { ArePlaced hub.old.children.places.items hub.new.children.places.items }
{
    let begun = begin(rt, alloc, ground, hub, number, work, out);
    hub.heed(begun);
}
