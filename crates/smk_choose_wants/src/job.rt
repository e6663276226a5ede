//! The job itself.

ghost use Rattle.std.specs.Prelude.{◌≡◌, true, slice_get, Some, IfOk};
ghost use Rattle.std.specs.List.{list_all};
ghost use Rattle.smk_base.specs.Path.{is_path};
ghost use Rattle.smk_world.specs.Trees.{Path};
ghost use Rattle.smk_flow.specs.Flows.{Candidate};
ghost use Rattle.smk_flow.specs.Jobs.{declared_job};
ghost use Rattle.smk_choose.specs.Choose.{Sources, Make, choose};
ghost use Rattle.smk_choose.specs.Told.{making as told_of};
ghost use Rattle.smk_chain.specs.Derive.{wants, job};
ghost use Rattle.smk_choose_wants.specs.Wants.{ArePlaces, IsChosen};

use crate::Places;
use crate::items::items_with;
use crate::parts::part_at;
use smk_base::OutOfMemory;
use smk_chain::Listings;
use smk_choose::Making;
use smk_flow::{Job, JobFault, RulePart, Workflow};
use smk_flow_jobs::job;
use smk_world::Recipe;
use std::alloc::Global;

// The rule of this choice.
fn part_of<'f>(flow: &'f Workflow, making: &Making) -> &'f RulePart
    requires { IsChosen flow.now making.now }
    ensures { slice_get flow.now.rules making.now.rule ≡ Some result.now }
{
    match part_at(flow, making) {
        Some(part) => part,
        None => unreachable!(),
    }
}

/// The job of this choice as its rule declares it: an item of inputs that gathers is empty in it. `OutOfMemory` where there is no memory
/// for the job.
pub fn declared_of(alloc: Global, flow: &Workflow, making: &Making) -> Result<Job, OutOfMemory>
    requires chosen { IsChosen flow.now making.now }
    ensures { (sources : Sources) (p : Path) (c : Candidate) → choose flow.now sources p ≡ Make c → making.now ≡ told_of c
        → IfOk result (λ made. made ≡ declared_job flow.now c) }
{
    match job(alloc, flow, making.rule, &making.binding) {
        Ok(job) => Ok(job),
        Err(JobFault::NotPath(_)) => unreachable!(),
        Err(JobFault::OutOfMemory) => Err(OutOfMemory),
    }
}

/// The job of this choice, with the gathered files in their items' places. All that it wants are paths. `OutOfMemory` where there is no
/// memory for the job.
pub fn job_of(
    alloc: Global,
    flow: &Workflow,
    lists: &Listings,
    places: &Places,
    making: &Making,
) -> Result<Job, OutOfMemory>
    requires places { ArePlaces lists.now places.now }
    requires chosen { IsChosen flow.now making.now }
    ensures { (sources : Sources) (p : Path) (c : Candidate) → choose flow.now sources p ≡ Make c → making.now ≡ told_of c
        → list_all is_path (wants flow.now lists.now c) ≡ true → IfOk result (λ made. made ≡ job flow.now lists.now c) }
{
    let made = declared_of(alloc, flow, making)?;
    let inputs = items_with(alloc, flow, lists, places, part_of(flow, making), making)?;
    let declared = made.recipe;
    let recipe = Recipe {
        template: declared.template,
        wildcards: declared.wildcards,
        params: declared.params,
        inputs,
        outputs: declared.outputs,
    };
    Ok(Job {
        rule: made.rule,
        recipe,
        gathers: made.gathers,
        logs: made.logs,
        threads: made.threads,
        amounts: made.amounts,
        words: made.words,
        priority: made.priority,
        temps: made.temps,
        guards: made.guards,
    })
}
