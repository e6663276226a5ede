//! Jobs that can be run.

ghost use Rattle.std.specs.Prelude.{IfOk, IfErr};
ghost use Rattle.smk_choose.specs.Index.{AreReadings};
ghost use Rattle.smk_choose.specs.Told.{told_by};
ghost use Rattle.smk_chain_derive.specs.Derived.{IsDerived, IsFirstRefusal};
ghost use Rattle.smk_plan.specs.Runnable.{AreRunnable};

use crate::derive;
use smk_base::{List, PathText};
use smk_chain::{ChainFault, Jobs, Listings};
use smk_choose::{Readings, Sources};
use smk_flow::Workflow;
use smk_store::Store;
use std::alloc::Global;

/// The jobs that the targets call for with these listings, in plan order, or the first thing that is wrong, as `derive` gives them. Each can be
/// run: it has an output, its outputs and logs don't overlap, its wildcards rise by name, and what makes its inputs comes before it.
/// `OutOfMemory` where there is no memory for the jobs.
pub fn ready_jobs(
    alloc: Global,
    flow: &Workflow,
    readings: &Readings,
    sources: &Sources,
    lists: Listings,
    store: &Store,
    targets: &List<PathText>,
) -> Result<Jobs, ChainFault>
    requires { AreReadings flow.now readings.now }
    ensures derived { IfOk result (IsDerived flow.now (told_by sources.now) lists store.now targets.now) }
    ensures runnable { IfOk result AreRunnable }
    ensures fault { IfErr result (IsFirstRefusal flow.now (told_by sources.now) lists store.now targets.now) }
{
    derive(alloc, flow, readings, sources, lists, store, targets)
}
