//! What was found is taken into the plan.

ghost use Rattle.std.specs.Prelude.{◌≡◌, ◌≢◌, ◌⊎◌, map, false, IfErr, IfOk, OnErr, OnOk};
ghost use Rattle.smk_plan_live.specs.Lives.{IsLive};
ghost use Rattle.smk_report.specs.declared.fault.Fault.TheVariants as fault;
ghost use Rattle.smk_drive_step.specs.Crews.{is_device};
ghost use Rattle.smk_drive_hub.specs.Keeping.{parts_of};
ghost use Rattle.smk_drive_close.specs.Numbers.{place_number};
ghost use Rattle.smk_drive_close.specs.Rounds.{IsGrowthRefused, IsTakenIn};

use crate::numbering::new_numbers;
use smk_base::{List, OutOfMemory};
use smk_chain::Jobs;
use smk_drive_hub::Hub;
use smk_drive_more::More;
use smk_flow::Workflow;
use smk_plan_preview::of_plan;
use smk_report::Fault;
use std::alloc::Global;
use std::thread::Threads;

// The new numbers of the jobs of the run's children.
fn numbers_of(alloc: Global, hub: &Hub, jobs: &Jobs) -> Result<List<u32>, OutOfMemory>
    ensures { IfOk result (λ ns. ns ≡ map (place_number hub.now.live.base.jobs.jobs jobs.now.jobs) hub.now.children.places.items) }
{
    new_numbers(
        alloc,
        hub.children.as_slice(),
        hub.live.jobs().jobs.as_slice(),
        jobs.jobs.as_slice(),
    )
}

/// Lets the plan grow by what was found, and gives the children the new numbers of their jobs. After a fault nothing is changed.
pub(crate) fn take_in<Rt: Threads + Sync>(
    rt: &Rt,
    alloc: Global,
    flow: &Workflow,
    hub: &mut Hub,
    found: More,
) -> Result<(), Fault>
    requires live { IsLive hub.old.live }
    ensures live { IsLive hub.new.live }
    ensures ok { OnOk result (IsTakenIn found.jobs found.store found.seen (parts_of hub.old) (parts_of hub.new)) }
    ensures err { OnErr result (parts_of hub.new ≡ parts_of hub.old) }
    ensures refused { IfErr result (λ f. (f ≡ fault.OutOfMemory) ⊎ IsGrowthRefused flow.now found.jobs found.store found.seen hub.old.live f) }
    ensures quiet { IfErr result (λ f. (is_device f ≡ false) × (f ≢ fault.Output)) }
{
    let More { jobs, store, seen } = found;
    match numbers_of(alloc, hub, &jobs) {
        Err(OutOfMemory) => Err(Fault::OutOfMemory),
        Ok(numbers) => match hub.live.grow(rt, alloc, jobs, store, seen) {
            Ok(()) => {
                hub.children.renumber(numbers);
                Ok(())
            }
            Err(refusal) => Err(of_plan(alloc, flow, refusal)),
        },
    }
}
