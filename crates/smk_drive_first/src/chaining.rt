//! The chain of plans with which a run begins.

ghost use Rattle.std.specs.Prelude.{◌≡◌, ℕ, List as Items, Option, IfOk, IfErr, false};
ghost use Rattle.smk_world.specs.Devices.{HasLooked, WhereTold};
ghost use Rattle.smk_record.specs.declared.record.Record.{Record as RecordValue};
ghost use Rattle.smk_record.specs.Spelling.{ReadsRecords};
ghost use Rattle.smk_store.specs.Images.{seen};
ghost use Rattle.smk_store.specs.Unowned.{NoneOwned};
ghost use Rattle.smk_choose.specs.Index.{AreReadings};
ghost use Rattle.smk_plan_preview.specs.Faults.{device_failed, is_sink};
ghost use Rattle.smk_drive_first.specs.Keeping.{HasKeptLast, IsFresh};

use crate::rounds::{Ground, make_round};
use smk_base::List;
use smk_choose::Readings;
use smk_flow::Workflow;
use smk_pick::Settings;
use smk_plan_live::LivePlan;
use smk_plan_preview::add_listings;
use smk_report::Fault;
use smk_world::Files;
use std::alloc::Global;
use std::thread::Threads;

// The last plan of the chain.
fn chain_by<W: Files, Rt: Threads + Sync>(
    rt: &Rt,
    alloc: Global,
    ground: &Ground<'_>,
    work: &mut W,
) -> Result<LivePlan, Fault>
    requires { AreReadings ground.now.flow.now ground.now.readings.now }
    ensures looked { HasLooked W.act (W.device work.old) (W.device work.new) (device_failed result) }
    ensures no_sink { IfErr result (λ f. is_sink f ≡ false) }
    ensures fresh { IfOk result (IsFresh ground.now.settings.now) }
    ensures told { WhereTold (W.device work.old) (λ w. NoneOwned w → (read : Items ℕ → Option RecordValue) → ReadsRecords read
        → HasKeptLast read ground.now.flow.now ground.now.settings.now (seen read w) result) }
{
    let mut lists = List::new(alloc);
    for _ in 0..u64::MAX {
        let found = make_round(rt, alloc, ground, &lists, work)?;
        let known = found.known();
        if known.is_empty() {
            return Ok(found);
        }
        add_listings(alloc, &mut lists, known)?;
    }
    Err(Fault::OutOfMemory)
}

/// The last plan of the chain, to be kept: from no listings on, again and again with those that have become known besides. Nothing is changed. Each round but
/// the last makes a listing known, so there are no more rounds than directories with a record, and one. Each looks at the store and the folder anew.
pub(crate) fn chain<W: Files, Rt: Threads + Sync>(
    rt: &Rt,
    alloc: Global,
    flow: &Workflow,
    settings: &Settings,
    work: &mut W,
) -> Result<LivePlan, Fault>
    ensures looked { HasLooked W.act (W.device work.old) (W.device work.new) (device_failed result) }
    ensures no_sink { IfErr result (λ f. is_sink f ≡ false) }
    ensures fresh { IfOk result (IsFresh settings.now) }
    ensures told { WhereTold (W.device work.old) (λ w. NoneOwned w → (read : Items ℕ → Option RecordValue) → ReadsRecords read
        → HasKeptLast read flow.now settings.now (seen read w) result) }
{
    match Readings::of(alloc, flow) {
        Ok(readings) => {
            let ground = Ground {
                flow,
                settings,
                readings: &readings,
            };
            chain_by(rt, alloc, &ground, work)
        }
        Err(_) => Err(Fault::OutOfMemory),
    }
}
