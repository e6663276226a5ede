//! What a job gathers.

ghost use Rattle.std.specs.Prelude.{◌≡◌, ◌≢◌, ◌++◌, ◌∷◌, [], Some, None, map, filter, option_map, IfOk, IfErr, OnOk};
ghost use Rattle.smk_world.specs.Trees.{first};
ghost use Rattle.smk_pattern.specs.Reading.{or_empty};
ghost use Rattle.smk_flow.specs.declared.fault.JobFault.{JobFault};
ghost use Rattle.smk_flow.specs.declared.rule.FlaggedText.{FlaggedText};
ghost use Rattle.smk_flow.specs.Flows.{makes_folder, rule_named, directory_of, folder_from, gather_of, gather_at, gathers_from, folders_of};
ghost use Rattle.smk_flow.specs.Jobs.{path_fault};
ghost use Rattle.smk_flow.specs.Lent.{all_lent};

use crate::filling::{path_of, pattern_of};
use smk_base::{List, OutOfMemory};
use smk_flow::flags::makes_folder;
use smk_flow::texts::outs;
use smk_flow::{FlaggedText, Gather, GatherPart, InPart, JobFault, Rule, RulePart, Workflow};
use smk_pattern::Binding;
use std::alloc::Global;

// The rule of this name.
pub(crate) fn rule_named<'f>(flow: &'f Workflow, name: &str) -> Option<&'f Rule>
    ensures { option_map (λ r. r.now.part) result ≡ rule_named flow.now name.now }
{
    match flow.rule(name) {
        Some(number) => Some(&flow.rules().as_slice()[number as usize]),
        None => None,
    }
}

// The text of the first of these that is flagged as a directory.
fn first_folder<'p>(outs: &[&'p FlaggedText]) -> &'p str
    ensures { result.now ≡ or_empty (first (map (λ (o : FlaggedText). o.text) (filter makes_folder (all_lent outs.now)))) }
{
    for out in outs {
        if makes_folder(out) {
            return out.text.as_str();
        }
    }
    ""
}

// The directory output of a checkpoint, as it is written.
fn directory_of(alloc: Global, part: &RulePart) -> Result<&str, OutOfMemory>
    ensures { IfOk result (λ text. text.now ≡ directory_of part.now) }
{
    let found = outs(alloc, part)?;
    Ok(first_folder(&found))
}

// The directory output of the checkpoint with this name, as it is written. A checked workflow has the checkpoint.
fn folder_text<'f>(
    alloc: Global,
    flow: &'f Workflow,
    checkpoint: &str,
) -> Result<&'f str, OutOfMemory>
    ensures { IfOk result (λ text. text.now ≡ or_empty (option_map directory_of (rule_named flow.now checkpoint.now))) }
{
    match rule_named(flow, checkpoint) {
        Some(rule) => directory_of(alloc, &rule.part),
        None => Ok(""),
    }
}

// What the item of this number gathers.
fn gather_of(
    alloc: Global,
    flow: &Workflow,
    part: &RulePart,
    binding: &Binding,
    item: usize,
    gather: &GatherPart,
) -> Result<Gather, JobFault>
    ensures gather { IfOk result (λ made. made ≡ gather_of flow.now part.now.limits binding.now item gather.now) }
    ensures is { OnOk result (path_fault (folder_from flow.now binding.now gather.now.checkpoint ∷ []) ≡ None) }
    ensures not { IfErr result (λ f. f ≢ JobFault.OutOfMemory → path_fault (folder_from flow.now binding.now gather.now.checkpoint ∷ []) ≡ Some f) }
{
    let text = folder_text(alloc, flow, gather.checkpoint.as_str())?;
    match path_of(alloc, text, binding) {
        Ok(folder) => Ok(Gather {
            item: item as u64,
            folder,
            listed: pattern_of(alloc, gather.listed.as_str(), &part.limits)?,
            wanted: pattern_of(alloc, gather.wanted.as_str(), &List::new(alloc))?,
        }),
        Err(fault) => Err(fault),
    }
}

// Adds what the item of this number gathers.
fn add_gather(
    alloc: Global,
    made: &mut List<Gather>,
    flow: &Workflow,
    part: &RulePart,
    binding: &Binding,
    item: usize,
    input: &InPart,
) -> Result<(), JobFault>
    ensures gathers { OnOk result (made.new ≡ made.old ++ gather_at flow.now part.now.limits binding.now item input.now.gather) }
    ensures are { OnOk result (path_fault (folders_of (gather_at flow.now part.now.limits binding.now item input.now.gather)) ≡ None) }
    ensures not { IfErr result (λ f. f ≢ JobFault.OutOfMemory
        → path_fault (folders_of (gather_at flow.now part.now.limits binding.now item input.now.gather)) ≡ Some f) }
{
    match &input.gather {
        None => Ok(()),
        Some(gather) => match gather_of(alloc, flow, part, binding, item, gather) {
            Ok(gather) => {
                made.push(gather)?;
                Ok(())
            }
            Err(fault) => Err(fault),
        },
    }
}

/// What the rule gathers, in the order of its inputs.
pub(crate) fn gathers_of(
    alloc: Global,
    flow: &Workflow,
    part: &RulePart,
    binding: &Binding,
) -> Result<List<Gather>, JobFault>
    ensures gathers { IfOk result (λ made. made ≡ gathers_from flow.now part.now.limits binding.now 0 part.now.inputs) }
    ensures are { OnOk result (path_fault (folders_of (gathers_from flow.now part.now.limits binding.now 0 part.now.inputs)) ≡ None) }
    ensures not { IfErr result (λ f. f ≢ JobFault.OutOfMemory
        → path_fault (folders_of (gathers_from flow.now part.now.limits binding.now 0 part.now.inputs)) ≡ Some f) }
{
    let mut made = List::new(alloc);
    for (item, input) in part.inputs.as_slice().iter().enumerate() {
        match add_gather(alloc, &mut made, flow, part, binding, item, input) {
            Ok(()) => {}
            Err(fault) => return Err(fault),
        }
    }
    Ok(made)
}
