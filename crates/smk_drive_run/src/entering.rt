//! A run comes to its start.

ghost use Rattle.std.specs.Prelude.{◌≡◌, IfOk};
ghost use Rattle.smk_drive_hub.specs.Keeping.{parts_of};
ghost use Rattle.smk_laws_begins.specs.Whole.{HasBegunRun};
ghost use Rattle.smk_drive_run.specs.Keeping.{IsStartOf, parts_in};

use crate::sources::are_made_or_seen;
use smk_base::OutOfMemory;
use smk_drive_first::{Opened, open};
use smk_drive_hub::Hub;
use smk_flow::Workflow;
use smk_pick::Settings;
use smk_report::Fault;
use smk_world::Files;
use std::alloc::Global;
use std::thread::Threads;

// The start of a run that has opened. `OutOfMemory` where there is no memory for it.
fn start_of(alloc: Global, settings: &Settings, opened: Opened) -> Result<Hub, OutOfMemory>
    ensures { IfOk result (λ hub. IsStartOf settings.now opened (parts_of hub)) }
{
    let Opened { live, next } = opened;
    let are_sources = are_made_or_seen(alloc, live.told(), live.jobs().makers.as_slice())?;
    // It can't be: what no job makes was found as sources.
    if !are_sources {
        return Err(OutOfMemory);
    }
    let hub = Hub::new(alloc, settings, live, next)?;
    Ok(hub)
}

/// Opens a run and comes to its start, at which nothing has begun. The fault is the first that is refused of its plans; or `Device`, or `OutOfMemory`.
pub(crate) fn enter<W: Files, Rt: Threads + Sync>(
    rt: &Rt,
    alloc: Global,
    flow: &Workflow,
    settings: &Settings,
    work: &mut W,
) -> Result<Hub, Fault>
    ensures { HasBegunRun W.act flow.now settings.now (parts_in result) (W.device work.old) (W.device work.new) }
{
    match open(rt, alloc, flow, settings, work) {
        Ok(opened) => match start_of(alloc, settings, opened) {
            Ok(hub) => Ok(hub),
            Err(OutOfMemory) => Err(Fault::OutOfMemory),
        },
        Err(fault) => Err(fault),
    }
}
