//! What a job begins with is put together.

ghost use Rattle.std.specs.Prelude.{◌≡◌, map, true, Some, is_none, IfOk, IfErr};
ghost use Rattle.std.specs.List.{list_any, slice_get};
ghost use Rattle.smk_base.specs.declared.tree.Pair.{Pair};
ghost use Rattle.smk_record.specs.Records.{are_rising};
ghost use Rattle.smk_plan_live.specs.declared.phase.Phase.TheVariants as phase;
ghost use Rattle.smk_laws_begins.specs.Fitting.{IsUnfit};
ghost use Rattle.smk_drive_hub.specs.Keeping.{parts_of};
ghost use Rattle.smk_drive_begin.specs.Kits.{IsKitOf, IsPackedFor};

use crate::kit::{
    Kit, ask_of, command_text, is_restore, is_waiting, known_stamps, serial_of, wildcards_rise,
};
use smk_base::{OutOfMemory, PathText};
use smk_chain::first_output;
use smk_drive_hub::{Ground, Hub};
use smk_flow::Job;
use smk_format::rule_name;
use smk_report::{Fault, job_line};
use std::alloc::Global;

// What the job of the number, with this first output, begins with, which has this serial. `OutOfMemory` also where it doesn't fit into the room.
fn pack(
    alloc: Global,
    ground: Ground<'_>,
    hub: &Hub,
    number: u32,
    job: &Job,
    path: &PathText,
    draws: bool,
    made: u64,
) -> Result<Kit, OutOfMemory>
    ensures { IfOk result (IsPackedFor ground.entry.flow.now ground.entry.settings.now (parts_of hub.now) number job.now path.now draws made) }
{
    let rule = rule_name(ground.flow, job.rule);
    let known = known_stamps(alloc, &hub.live, number, job, made)?;
    let command = command_text(alloc, ground.flow, ground.settings.cores, job)?;
    let ask = ask_of(alloc, job)?;
    let start = job_line(alloc, "start", rule, path, "")?;
    let done = job_line(alloc, "done", rule, path, "")?;
    if made == 0 || !hub.room.fits(&ask) {
        return Err(OutOfMemory);
    }
    Ok(Kit {
        known,
        made,
        draws,
        command,
        ask,
        start,
        done,
    })
}

// Whether the job of the number waits and there is a place for its child, and its wildcards are in order.
fn is_open(hub: &Hub, number: u32, job: &Job) -> bool
    ensures waiting { result ≡ true → slice_get hub.now.live.base.phases number ≡ Some phase.Waiting }
    ensures free { result ≡ true → list_any is_none hub.now.children.places.items ≡ true }
    ensures rising { result ≡ true → are_rising (map (λ (w : Pair). w.name) job.now.recipe.wildcards) ≡ true }
{
    if !is_waiting(&hub.live, number) {
        return false;
    }
    if !hub.children.has_room() {
        return false;
    }
    wildcards_rise(job.recipe.wildcards.as_slice())
}

/// What the job of the number begins with. `Serials` where it is to draw a serial and none is left. `OutOfMemory` where there is no memory for it; or where it has
/// begun, something is amiss with it, or there is no room for it, none of which can be of the job that is next.
pub(crate) fn kit_of(
    alloc: Global,
    ground: Ground<'_>,
    hub: &Hub,
    number: u32,
    job: &Job,
) -> Result<Kit, Fault>
    requires job { slice_get hub.now.live.base.jobs.jobs number ≡ Some job.now }
    ensures ok { IfOk result (IsKitOf ground.entry.flow.now ground.entry.settings.now (parts_of hub.now) number job.now) }
    ensures err { IfErr result (IsUnfit (parts_of hub.now) number) }
{
    if !is_open(hub, number, job) {
        return Err(Fault::OutOfMemory);
    }
    let Some(path) = first_output(job) else {
        return Err(Fault::OutOfMemory);
    };
    match is_restore(alloc, &hub.live, number) {
        Err(_) => Err(Fault::OutOfMemory),
        Ok(restored) => match serial_of(&hub.live, !restored, hub.next, path) {
            Err(fault) => Err(fault),
            Ok(made) => match pack(alloc, ground, hub, number, job, path, !restored, made) {
                Ok(kit) => Ok(kit),
                Err(OutOfMemory) => Err(Fault::OutOfMemory),
            },
        },
    }
}
