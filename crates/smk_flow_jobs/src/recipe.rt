//! What a rule and a binding make, part by part.

ghost use Rattle.std.specs.Prelude.{◌≡◌, ◌≢◌, ◌++◌, Some, None, map, IfOk, IfErr, OnOk};
ghost use Rattle.std.specs.List.{list_any, flat_map};
ghost use Rattle.smk_pattern.specs.Reading.{fill};
ghost use Rattle.smk_flow.specs.declared.fault.JobFault.{JobFault};
ghost use Rattle.smk_flow.specs.declared.rule.FlaggedText.{FlaggedText};
ghost use Rattle.smk_flow.specs.declared.rule.OutPart.{OutPart};
ghost use Rattle.smk_flow.specs.declared.rule.InPart.{InPart};
ghost use Rattle.smk_flow.specs.Flows.{is_temp, is_protected};
ghost use Rattle.smk_flow.specs.Jobs.{kind_of, path_fault, filled_out, filled_outs, filled_param, filled_word, unless_gathered, declared_item, is_flagged, flagged};

use crate::fields::{all_with_fields, with_fields};
use crate::filling::{path_of, paths_of};
use smk_base::{List, OutOfMemory, Pair, PathText};
use smk_flow::flags::makes_folder;
use smk_flow::{Flag, FlaggedText, InPart, JobFault, OutPart};
use smk_pattern::Binding;
use smk_world::{Item, Kind, Out, OutItem, Values};
use std::alloc::Global;

// What the output is.
fn kind_of(out: &FlaggedText) -> Kind
    ensures { result ≡ kind_of out.now }
{
    if makes_folder(out) {
        Kind::Folder
    } else {
        Kind::Plain
    }
}

// The outputs of an item.
fn outs_of(alloc: Global, outs: &[FlaggedText], binding: &Binding) -> Result<List<Out>, JobFault>
    ensures outs { IfOk result (λ made. made ≡ map (filled_out binding.now) outs.now) }
    ensures are { OnOk result (path_fault (map (λ (o : FlaggedText). fill binding.now o.text) outs.now) ≡ None) }
    ensures not { IfErr result (λ f. f ≢ JobFault.OutOfMemory → path_fault (map (λ (o : FlaggedText). fill binding.now o.text) outs.now) ≡ Some f) }
{
    let mut made = List::new(alloc);
    for out in outs {
        match path_of(alloc, out.text.as_str(), binding) {
            Ok(path) => made.push(Out {
                path,
                kind: kind_of(out),
            })?,
            Err(fault) => return Err(fault),
        }
    }
    Ok(made)
}

// An item of outputs.
fn out_item(alloc: Global, item: &OutPart, binding: &Binding) -> Result<OutItem, JobFault>
    ensures item { IfOk result (λ made. made ≡ filled_outs binding.now item.now) }
    ensures are { OnOk result (path_fault (map (λ (o : FlaggedText). fill binding.now o.text) item.now.outs) ≡ None) }
    ensures not { IfErr result (λ f. f ≢ JobFault.OutOfMemory → path_fault (map (λ (o : FlaggedText). fill binding.now o.text) item.now.outs) ≡ Some f) }
{
    match outs_of(alloc, item.outs.as_slice(), binding) {
        Ok(outs) => Ok(OutItem {
            name: item.name.copy(alloc)?,
            outs,
        }),
        Err(fault) => Err(fault),
    }
}

/// The items of outputs.
pub(crate) fn out_items(
    alloc: Global,
    items: &[OutPart],
    binding: &Binding,
) -> Result<List<OutItem>, JobFault>
    ensures items { IfOk result (λ made. made ≡ map (filled_outs binding.now) items.now) }
    ensures are { OnOk result (path_fault (flat_map (λ (i : OutPart). map (λ (o : FlaggedText). fill binding.now o.text) i.outs) items.now) ≡ None) }
    ensures not { IfErr result (λ f. f ≢ JobFault.OutOfMemory → path_fault (flat_map (λ (i : OutPart). map (λ (o : FlaggedText). fill binding.now o.text) i.outs) items.now) ≡ Some f) }
{
    let mut made = List::new(alloc);
    for item in items {
        match out_item(alloc, item, binding) {
            Ok(item) => made.push(item)?,
            Err(fault) => return Err(fault),
        }
    }
    Ok(made)
}

// The paths of an item of inputs: none where it gathers.
fn kept_paths(alloc: Global, item: &InPart, paths: List<PathText>) -> List<PathText>
    ensures { result ≡ unless_gathered paths item.now.gather }
{
    match &item.gather {
        None => paths,
        Some(_) => List::new(alloc),
    }
}

// An item of inputs that are written out.
fn in_item(alloc: Global, item: &InPart, binding: &Binding) -> Result<Item, JobFault>
    ensures item { IfOk result (λ made. made ≡ declared_item binding.now item.now) }
    ensures are { OnOk result (path_fault (map (fill binding.now) item.now.texts) ≡ None) }
    ensures not { IfErr result (λ f. f ≢ JobFault.OutOfMemory → path_fault (map (fill binding.now) item.now.texts) ≡ Some f) }
{
    match paths_of(alloc, item.texts.as_slice(), binding) {
        Ok(paths) => Ok(Item {
            name: item.name.copy(alloc)?,
            paths: kept_paths(alloc, item, paths),
        }),
        Err(fault) => Err(fault),
    }
}

/// The items of inputs that are written out.
pub(crate) fn in_items(
    alloc: Global,
    items: &[InPart],
    binding: &Binding,
) -> Result<List<Item>, JobFault>
    ensures items { IfOk result (λ made. made ≡ map (declared_item binding.now) items.now) }
    ensures are { OnOk result (path_fault (flat_map (λ (i : InPart). map (fill binding.now) i.texts) items.now) ≡ None) }
    ensures not { IfErr result (λ f. f ≢ JobFault.OutOfMemory → path_fault (flat_map (λ (i : InPart). map (fill binding.now) i.texts) items.now) ≡ Some f) }
{
    let mut made = List::new(alloc);
    for item in items {
        match in_item(alloc, item, binding) {
            Ok(item) => made.push(item)?,
            Err(fault) => return Err(fault),
        }
    }
    Ok(made)
}

// Whether it is flagged as temporary.
fn is_temp(out: &FlaggedText) -> bool
    ensures { result ≡ list_any is_temp out.now.flags }
{
    for flag in out.flags.as_slice() {
        if *flag == Flag::Temp {
            return true;
        }
    }
    false
}

// Whether it is flagged as protected.
fn is_protected(out: &FlaggedText) -> bool
    ensures { result ≡ list_any is_protected out.now.flags }
{
    for flag in out.flags.as_slice() {
        if *flag == Flag::Protected {
            return true;
        }
    }
    false
}

// Whether it has the flag.
fn is_flagged(out: &FlaggedText, flag: Flag) -> bool
    ensures { result ≡ is_flagged flag out.now }
{
    match flag {
        Flag::Temp => is_temp(out),
        Flag::Protected => is_protected(out),
        Flag::Folder => makes_folder(out),
    }
}

// Adds those of the item's outputs that have the flag.
fn add_flagged(
    alloc: Global,
    made: &mut List<PathText>,
    item: &OutPart,
    flag: Flag,
    binding: &Binding,
) -> Result<(), JobFault>
    ensures paths { OnOk result (made.new ≡ made.old ++ flagged binding.now flag item.now.outs) }
    ensures are { OnOk result (path_fault (flagged binding.now flag item.now.outs) ≡ None) }
    ensures not { IfErr result (λ f. f ≢ JobFault.OutOfMemory → path_fault (flagged binding.now flag item.now.outs) ≡ Some f) }
{
    for out in item.outs.as_slice() {
        if is_flagged(out, flag) {
            match path_of(alloc, out.text.as_str(), binding) {
                Ok(path) => made.push(path)?,
                Err(fault) => return Err(fault),
            }
        }
    }
    Ok(())
}

/// The outputs that have the flag.
pub(crate) fn flagged(
    alloc: Global,
    items: &[OutPart],
    flag: Flag,
    binding: &Binding,
) -> Result<List<PathText>, JobFault>
    ensures paths { IfOk result (λ made. made ≡ flagged binding.now flag (flat_map (λ (i : OutPart). i.outs) items.now)) }
    ensures not { IfErr result (λ f. f ≢ JobFault.OutOfMemory
        → path_fault (flagged binding.now flag (flat_map (λ (i : OutPart). i.outs) items.now)) ≡ Some f) }
{
    let mut made = List::new(alloc);
    for item in items {
        match add_flagged(alloc, &mut made, item, flag, binding) {
            Ok(()) => {}
            Err(fault) => return Err(fault),
        }
    }
    Ok(made)
}

// A parameter, filled.
fn param_of(alloc: Global, value: &Values, binding: &[Pair]) -> Result<Values, OutOfMemory>
    ensures { IfOk result (λ made. made ≡ filled_param binding.now value.now) }
{
    Ok(Values {
        name: value.name.copy(alloc)?,
        values: all_with_fields(alloc, value.values.as_slice(), binding)?,
    })
}

/// The parameters, filled.
pub(crate) fn params_of(
    alloc: Global,
    values: &[Values],
    binding: &[Pair],
) -> Result<List<Values>, OutOfMemory>
    ensures { IfOk result (λ made. made ≡ map (filled_param binding.now) values.now) }
{
    let mut made = List::new(alloc);
    for value in values {
        made.push(param_of(alloc, value, binding)?)?;
    }
    Ok(made)
}

// A resource that is a text, filled.
fn word_of(alloc: Global, word: &Pair, binding: &[Pair]) -> Result<Pair, OutOfMemory>
    ensures { IfOk result (λ made. made ≡ filled_word binding.now word.now) }
{
    Ok(Pair {
        name: word.name.copy(alloc)?,
        value: with_fields(alloc, word.value.as_str(), binding)?,
    })
}

/// The resources that are texts, filled.
pub(crate) fn words_of(
    alloc: Global,
    words: &[Pair],
    binding: &[Pair],
) -> Result<List<Pair>, OutOfMemory>
    ensures { IfOk result (λ made. made ≡ map (filled_word binding.now) words.now) }
{
    let mut made = List::new(alloc);
    for word in words {
        made.push(word_of(alloc, word, binding)?)?;
    }
    Ok(made)
}
