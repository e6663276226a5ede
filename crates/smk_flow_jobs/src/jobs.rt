//! The job of a rule and a binding.

ghost use Rattle.std.specs.Prelude.{◌≡◌, ◌≢◌, ◌<◌, ◌++◌, length, slice_get, Some, None, map, option_map, IfOk, IfErr, OnOk};
ghost use Rattle.smk_pattern.specs.Reading.{fill, or_empty};
ghost use Rattle.smk_flow.specs.declared.rule.RulePart.{RulePart};
ghost use Rattle.smk_flow.specs.declared.fault.JobFault.{JobFault};
ghost use Rattle.smk_flow.specs.Flows.{gathers_from};
ghost use Rattle.smk_flow.specs.Jobs.{declared_job, declared_item, filled_outs, path_texts, path_fault};

use crate::filling::paths_of;
use crate::gathers::gathers_of;
use crate::recipe::{flagged, in_items, out_items, params_of, words_of};
use crate::sorted::by_name;
use smk_base::{Copied, List, OutOfMemory, PathText, Text};
use smk_flow::{Flag, Gather, Job, JobFault, RulePart, Workflow};
use smk_pattern::Binding;
use smk_world::{Item, OutItem, Recipe};
use std::alloc::Global;

/// What of a job has paths.
#[derive(Drop)]
struct Placed {
    outputs: List<OutItem>,
    logs: List<PathText>,
    inputs: List<Item>,
    gathers: List<Gather>,
}

// What of the job has paths, made in the order in which they are looked at.
#[tactic(auto, using(crate::proofs::JobParts::good, crate::proofs::JobParts::at_outputs, crate::proofs::JobParts::at_logs, crate::proofs::JobParts::at_inputs, crate::proofs::JobParts::at_gathers))]
fn with_paths(
    alloc: Global,
    flow: &Workflow,
    rule: u32,
    part: &RulePart,
    binding: &Binding,
) -> Result<Placed, JobFault>
    ensures outputs { IfOk result (λ made. made.outputs ≡ map (filled_outs binding.now) part.now.outputs) }
    ensures logs { IfOk result (λ made. made.logs ≡ map (fill binding.now) part.now.logs) }
    ensures inputs { IfOk result (λ made. made.inputs ≡ map (declared_item binding.now) part.now.inputs) }
    ensures gathers { IfOk result (λ made. made.gathers ≡ gathers_from flow.now part.now.limits binding.now 0 part.now.inputs) }
    ensures are { OnOk result (path_fault (path_texts flow.now (record { rule = rule; part = part.now; binding = binding.now })) ≡ None) }
    ensures not { IfErr result (λ f. f ≢ JobFault.OutOfMemory
        → path_fault (path_texts flow.now (record { rule = rule; part = part.now; binding = binding.now })) ≡ Some f) }
{
    let outputs = match out_items(alloc, part.outputs.as_slice(), binding) {
        Ok(outputs) => outputs,
        Err(fault) => return Err(fault),
    };
    let logs = match paths_of(alloc, part.logs.as_slice(), binding) {
        Ok(logs) => logs,
        Err(fault) => return Err(fault),
    };
    let inputs = match in_items(alloc, part.inputs.as_slice(), binding) {
        Ok(inputs) => inputs,
        Err(fault) => return Err(fault),
    };
    match gathers_of(alloc, flow, part, binding) {
        Ok(gathers) => Ok(Placed {
            outputs,
            logs,
            inputs,
            gathers,
        }),
        Err(fault) => Err(fault),
    }
}

// The text of the command; empty where there is none.
fn template_of(alloc: Global, command: &Option<Text>) -> Result<Text, OutOfMemory>
    ensures { IfOk result (λ text. text ≡ or_empty command.now) }
{
    match command {
        Some(command) => command.copy(alloc),
        None => Text::of(alloc, ""),
    }
}

// The job of this rule, which has this number.
fn job_of(
    alloc: Global,
    flow: &Workflow,
    rule: u32,
    part: &RulePart,
    binding: &Binding,
) -> Result<Job, JobFault>
    ensures job { IfOk result (λ job. job ≡ declared_job flow.now (record { rule = rule; part = part.now; binding = binding.now })) }
    ensures are { OnOk result (path_fault (path_texts flow.now (record { rule = rule; part = part.now; binding = binding.now })) ≡ None) }
    ensures not { IfErr result (λ f. f ≢ JobFault.OutOfMemory
        → path_fault (path_texts flow.now (record { rule = rule; part = part.now; binding = binding.now })) ≡ Some f) }
{
    let made = match with_paths(alloc, flow, rule, part, binding) {
        Ok(made) => made,
        Err(fault) => return Err(fault),
    };
    let temps = match flagged(alloc, part.outputs.as_slice(), Flag::Temp, binding) {
        Ok(temps) => temps,
        Err(fault) => return Err(fault),
    };
    let guards = match flagged(alloc, part.outputs.as_slice(), Flag::Protected, binding) {
        Ok(guards) => guards,
        Err(fault) => return Err(fault),
    };
    let recipe = Recipe {
        template: template_of(alloc, &part.command)?,
        wildcards: by_name(alloc, binding.as_slice())?,
        params: params_of(alloc, part.params.as_slice(), binding.as_slice())?,
        inputs: made.inputs,
        outputs: made.outputs,
    };
    Ok(Job {
        rule,
        recipe,
        gathers: made.gathers,
        logs: made.logs,
        threads: part.threads,
        amounts: part.amounts.copied(alloc)?,
        words: words_of(alloc, part.words.as_slice(), binding.as_slice())?,
        priority: part.priority,
        temps,
        guards,
    })
}

/// The job of the rule with this number, for a binding that has each wildcard of its outputs once, and no other. An item of inputs that
/// gathers is empty in it.
///
/// `NotPath` exactly where an output, a log, an input that is written out or a gathered directory would be no path: the first of them,
/// in this order. `OutOfMemory` where there is no memory for the job.
pub fn job(alloc: Global, flow: &Workflow, rule: u32, binding: &Binding) -> Result<Job, JobFault>
    requires rule { rule < length flow.now.rules }
    ensures job { (part : RulePart) → slice_get flow.now.rules rule ≡ Some part
        → IfOk result (λ job. job ≡ declared_job flow.now (record { rule = rule; part = part; binding = binding.now })) }
    ensures paths { (part : RulePart) → slice_get flow.now.rules rule ≡ Some part
        → OnOk result (path_fault (path_texts flow.now (record { rule = rule; part = part; binding = binding.now })) ≡ None) }
    ensures not_path { (part : RulePart) → slice_get flow.now.rules rule ≡ Some part → IfErr result (λ f. f ≢ JobFault.OutOfMemory
        → path_fault (path_texts flow.now (record { rule = rule; part = part; binding = binding.now })) ≡ Some f) }
{
    let made = &flow.rules().as_slice()[rule as usize];
    match job_of(alloc, flow, rule, &made.part, binding) {
        Ok(job) => Ok(job),
        Err(fault) => Err(fault),
    }
}
