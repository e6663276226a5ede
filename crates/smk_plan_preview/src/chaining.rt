//! The chain of plans.

ghost use Rattle.std.specs.Prelude.{◌≡◌, ℕ, List as Items, Option, IfOk, IfErr, false};
ghost use Rattle.smk_world.specs.Devices.{HasLooked, WhereTold};
ghost use Rattle.smk_record.specs.declared.record.Record.{Record as RecordValue};
ghost use Rattle.smk_store.specs.Images.{seen};
ghost use Rattle.smk_store.specs.Loading.{IsStoreOf};
ghost use Rattle.smk_store.specs.Unowned.{NoneOwned};
ghost use Rattle.smk_plan_preview.specs.Faults.{device_failed, is_sink};
ghost use Rattle.smk_plan_preview.specs.Rounds as spec;
ghost use Rattle.smk_plan_preview.specs.Steps.{IsGood, IsGround};

use crate::listing::add_listings;
use crate::rounds::{Ground, Round, make_round};
use smk_base::List;
use smk_choose::Readings;
use smk_flow::Workflow;
use smk_pick::Settings;
use smk_report::Fault;
use smk_store::Store;
use smk_world::Files;
use std::alloc::Global;
use std::thread::Threads;

// The last plan of the chain.
fn chain_by<W: Files, Rt: Threads + Sync>(
    rt: &Rt,
    alloc: Global,
    ground: &Ground<'_>,
    work: &mut W,
) -> Result<Round, Fault>
    requires { IsGround ground.now }
    ensures looked { HasLooked W.act (W.device work.old) (W.device work.new) (device_failed result) }
    ensures no_sink { IfErr result (λ f. is_sink f ≡ false) }
    ensures good { IfOk result (λ r. IsGood ground.now.flow.now ground.now.settings.now r.jobs r.plan) }
    ensures told { WhereTold (W.device work.old) (λ w. NoneOwned w → (read : Items ℕ → Option RecordValue) → IsStoreOf (seen read w) ground.now.store.now
        → spec.HasChain read ground.now.flow.now ground.now.settings.now (seen read w) result) }
{
    let mut lists = List::new(alloc);
    for _ in 0..u64::MAX {
        let found = make_round(rt, alloc, ground, &lists, work)?;
        if found.plan.known.is_empty() {
            return Ok(found);
        }
        add_listings(alloc, &mut lists, &found.plan.known)?;
    }
    Err(Fault::OutOfMemory)
}

/// The last plan of the chain: from no listings on, again and again with those that have become known besides. Each round but the last makes a listing known, so there are no more
/// rounds than directories with a record, and one.
pub(crate) fn chain<W: Files, Rt: Threads + Sync>(
    rt: &Rt,
    alloc: Global,
    flow: &Workflow,
    settings: &Settings,
    store: &Store,
    work: &mut W,
) -> Result<Round, Fault>
    ensures looked { HasLooked W.act (W.device work.old) (W.device work.new) (device_failed result) }
    ensures no_sink { IfErr result (λ f. is_sink f ≡ false) }
    ensures good { IfOk result (λ r. IsGood flow.now settings.now r.jobs r.plan) }
    ensures told { WhereTold (W.device work.old) (λ w. NoneOwned w → (read : Items ℕ → Option RecordValue) → IsStoreOf (seen read w) store.now
        → spec.HasChain read flow.now settings.now (seen read w) result) }
{
    match Readings::of(alloc, flow) {
        Ok(readings) => {
            let ground = Ground {
                flow,
                settings,
                store,
                readings: &readings,
            };
            chain_by(rt, alloc, &ground, work)
        }
        Err(_) => Err(Fault::OutOfMemory),
    }
}
