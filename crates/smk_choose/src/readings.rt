//! What is read of each rule before paths are looked at.

ghost use Rattle.std.specs.Prelude.{◌≡◌, ◌++◌, [], filter, map, option_map, IfOk, OnOk};
ghost use Rattle.std.specs.List.{flat_map, list_any};
ghost use Rattle.smk_pattern.specs.Shapes.{Text};
ghost use Rattle.smk_pattern.specs.Reading.{or_empty, shape_of};
ghost use Rattle.smk_flow.specs.declared.rule.FlaggedText.{FlaggedText};
ghost use Rattle.smk_flow.specs.declared.rule.InPart.{InPart};
ghost use Rattle.smk_flow.specs.declared.rule.OutPart.{OutPart};
ghost use Rattle.smk_flow.specs.declared.rule.Flag.{Flag};
ghost use Rattle.smk_flow.specs.Flows.{makes_folder, is_directory, outs, directory_of, rule_named};
ghost use Rattle.smk_choose.specs.Readings.{reading_of, folder_shapes, folders_in, first_folder, input_shapes, gather_shapes, gathered_from};

use smk_base::{List, OutOfMemory, Pair, Text};
use smk_flow::{Flag, FlaggedText, InPart, OutPart, RulePart, Workflow};
use smk_pattern::Pattern;
use std::alloc::Global;

/// The patterns of the directories that a checkpoint makes, none for other rules; and those of what a rule's jobs want: of the inputs
/// that are written out, then of the directories that are gathered from.
#[derive(Drop)]
pub(crate) struct Reading {
    pub(crate) folders: List<Pattern>,
    pub(crate) wants: List<Pattern>,
}

// The text as a pattern. Each text of a checked workflow is one, so nothing but memory is wanting here.
fn pattern_of(alloc: Global, text: &str, limits: &List<Pair>) -> Result<Pattern, OutOfMemory>
    ensures { IfOk result (λ pattern. pattern ≡ shape_of limits.now text.now) }
{
    match Pattern::read(alloc, text, limits) {
        Ok(pattern) => Ok(pattern),
        Err(_) => Err(OutOfMemory),
    }
}

// Whether it is flagged as a directory.
fn makes_folder(out: &FlaggedText) -> bool
    ensures { result ≡ makes_folder out.now }
{
    for flag in out.flags.as_slice() {
        if *flag == Flag::Folder {
            return true;
        }
    }
    false
}

// Adds the patterns of those of these outputs that are directories.
fn add_folders(
    alloc: Global,
    found: &mut List<Pattern>,
    limits: &List<Pair>,
    outs: &[FlaggedText],
) -> Result<(), OutOfMemory>
    ensures { OnOk result (found.new ≡ found.old ++ folders_in limits.now outs.now) }
{
    for out in outs {
        if makes_folder(out) {
            found.push(pattern_of(alloc, out.text.as_str(), limits)?)?;
        }
    }
    Ok(())
}

// Adds the patterns of the directories among the outputs of these items.
fn add_item_folders(
    alloc: Global,
    found: &mut List<Pattern>,
    limits: &List<Pair>,
    items: &[OutPart],
) -> Result<(), OutOfMemory>
    ensures { OnOk result (found.new ≡ found.old ++ flat_map (λ (i : OutPart). folders_in limits.now i.outs) items.now) }
{
    for item in items {
        add_folders(alloc, found, limits, item.outs.as_slice())?;
    }
    Ok(())
}

// The patterns of the directories that the rule makes, if it is a checkpoint.
fn folders_of(alloc: Global, part: &RulePart) -> Result<List<Pattern>, OutOfMemory>
    ensures { IfOk result (λ found. found ≡ folder_shapes part.now) }
{
    let mut found = List::new(alloc);
    if part.checkpoint {
        add_item_folders(alloc, &mut found, &part.limits, part.outputs.as_slice())?;
    }
    Ok(found)
}

// The text of the first of these outputs that is a directory.
fn first_folder(outs: &[FlaggedText]) -> Option<&Text>
    ensures { option_map (λ t. t.now) result ≡ first_folder outs.now }
{
    for out in outs {
        if makes_folder(out) {
            return Some(&out.text);
        }
    }
    None
}

// The text of the first directory that the rule makes, empty where it makes none.
fn directory(part: &RulePart) -> &str
    ensures { result.now ≡ directory_of part.now }
{
    for item in part.outputs.as_slice() {
        if let Some(text) = first_folder(item.outs.as_slice()) {
            return text.as_str();
        }
    }
    ""
}

/// The directory of the checkpoint with this name, as it is written; empty where there is none.
pub fn gathered_from<'f>(flow: &'f Workflow, checkpoint: &str) -> &'f str
    ensures { result.now ≡ gathered_from flow.now checkpoint.now }
{
    match flow.rule(checkpoint) {
        Some(number) => directory(&flow.rules().as_slice()[number as usize].part),
        None => "",
    }
}

// Adds the patterns of these texts, in which no constraint stands.
fn add_texts(alloc: Global, found: &mut List<Pattern>, texts: &[Text]) -> Result<(), OutOfMemory>
    ensures { OnOk result (found.new ≡ found.old ++ map (shape_of []) texts.now) }
{
    let none: List<Pair> = List::new(alloc);
    for text in texts {
        found.push(pattern_of(alloc, text.as_str(), &none)?)?;
    }
    Ok(())
}

// Adds the patterns of the inputs that are written out in these items.
fn add_inputs(alloc: Global, found: &mut List<Pattern>, items: &[InPart]) -> Result<(), OutOfMemory>
    ensures { OnOk result (found.new ≡ found.old ++ flat_map input_shapes items.now) }
{
    for item in items {
        add_texts(alloc, found, item.texts.as_slice())?;
    }
    Ok(())
}

// Adds the pattern of the directory that the item gathers from.
fn add_gather(
    alloc: Global,
    found: &mut List<Pattern>,
    flow: &Workflow,
    item: &InPart,
) -> Result<(), OutOfMemory>
    ensures { OnOk result (found.new ≡ found.old ++ gather_shapes flow.now item.now) }
{
    match &item.gather {
        None => Ok(()),
        Some(gather) => {
            let none: List<Pair> = List::new(alloc);
            let text = gathered_from(flow, gather.checkpoint.as_str());
            found.push(pattern_of(alloc, text, &none)?)?;
            Ok(())
        }
    }
}

// Adds the patterns of the directories that these items gather from.
fn add_gathers(
    alloc: Global,
    found: &mut List<Pattern>,
    flow: &Workflow,
    items: &[InPart],
) -> Result<(), OutOfMemory>
    ensures { OnOk result (found.new ≡ found.old ++ flat_map (gather_shapes flow.now) items.now) }
{
    for item in items {
        add_gather(alloc, found, flow, item)?;
    }
    Ok(())
}

// What is read of the rule.
fn reading_of(alloc: Global, flow: &Workflow, part: &RulePart) -> Result<Reading, OutOfMemory>
    ensures { IfOk result (λ made. made ≡ reading_of flow.now part.now) }
{
    let folders = folders_of(alloc, part)?;
    let mut wants = List::new(alloc);
    add_inputs(alloc, &mut wants, part.inputs.as_slice())?;
    add_gathers(alloc, &mut wants, flow, part.inputs.as_slice())?;
    Ok(Reading { folders, wants })
}

/// What is read of each rule.
pub(crate) fn readings(alloc: Global, flow: &Workflow) -> Result<Vec<Reading>, OutOfMemory>
    ensures { IfOk result (λ made. made.items ≡ map (reading_of flow.now) flow.now.rules) }
{
    let mut made = Vec::new(alloc);
    for rule in flow.rules().as_slice() {
        made.push(reading_of(alloc, flow, &rule.part)?)?;
    }
    Ok(made)
}
