//! What `rules.X.output` stands for.

ghost use Rattle.std.specs.Prelude.{◌≡◌, ◌≢◌, ◌++◌, map, IfOk, OnOk, option_map, slice_get};
ghost use Rattle.std.specs.List.{find};
ghost use Rattle.std.specs.Fmt.{decimal};
ghost use Rattle.std.specs.Str.{bytes_eq};
ghost use Rattle.smk_eval_values.specs.declared.fault.ValueFault.{ValueFault};
ghost use Rattle.smk_eval_values.specs.Values.{Tells};
ghost use Rattle.smk_pattern.specs.Bare.{without_limits};
ghost use Rattle.smk_pattern.specs.Searching.{now_of};
ghost use Rattle.smk_flow.specs.declared.rule.FlaggedText.{FlaggedText};
ghost use Rattle.smk_flow.specs.declared.rule.OutPart.{OutPart};
ghost use Rattle.smk_flow.specs.Checks.{out_texts};
ghost use Rattle.smk_eval_rules.specs.Outputs as spec;

use smk_base::{List, OutOfMemory, Text};
use smk_eval_values::{Value, ValueFault};
use smk_flow::{FlaggedText, OutPart, RulePart};
use smk_parse_tree::OutputPick;
use smk_pattern::without_limits;
use std::alloc::Global;

// The fault that tells this name.
fn unknown_name(alloc: Global, name: &str) -> ValueFault
    ensures { result ≢ ValueFault.OutOfMemory → result ≡ ValueFault.UnknownName name.now }
{
    match Text::of(alloc, name) {
        Ok(name) => ValueFault::UnknownName(name),
        Err(_) => ValueFault::OutOfMemory,
    }
}

// The fault that tells this place.
fn unknown_place(alloc: Global, place: u64) -> ValueFault
    ensures { result ≢ ValueFault.OutOfMemory → result ≡ ValueFault.UnknownName (decimal place) }
{
    match format!(in alloc; "{place}") {
        Ok(place) => unknown_name(alloc, place.as_str()),
        Err(_) => ValueFault::OutOfMemory,
    }
}

// The outputs, without flags and constraints.
fn bare_outs(alloc: Global, outs: &[FlaggedText]) -> Result<List<Text>, OutOfMemory>
    ensures { IfOk result (λ texts. texts ≡ map (λ (f : FlaggedText). without_limits f.text) outs.now) }
{
    let mut texts = List::new(alloc);
    for out in outs {
        texts.push(without_limits(alloc, out.text.as_str())?)?;
    }
    Ok(texts)
}

// The texts, without constraints.
fn bare_texts(alloc: Global, texts: &[&str]) -> Result<List<Text>, OutOfMemory>
    ensures { IfOk result (λ made. made ≡ map without_limits (now_of texts.now)) }
{
    let mut made = List::new(alloc);
    for text in texts {
        made.push(without_limits(alloc, text)?)?;
    }
    Ok(made)
}

// Adds the texts of these outputs.
fn add_outs<'p>(found: &mut Vec<&'p str>, outs: &'p [FlaggedText]) -> Result<(), OutOfMemory>
    ensures { OnOk result (now_of found.new.items ≡ now_of found.old.items ++ map (λ (o : FlaggedText). o.text) outs.now) }
{
    for out in outs {
        found.push(out.text.as_str())?;
    }
    Ok(())
}

// The texts of all outputs in order, lent.
fn out_texts(alloc: Global, part: &RulePart) -> Result<Vec<&str>, OutOfMemory>
    ensures { IfOk result (λ texts. now_of texts.items ≡ out_texts part.now) }
{
    let mut found = Vec::new(alloc);
    for item in part.outputs.as_slice() {
        add_outs(&mut found, item.outs.as_slice())?;
    }
    Ok(found)
}

// All outputs.
fn all(alloc: Global, part: &RulePart) -> Result<List<Text>, OutOfMemory>
    ensures { IfOk result (λ texts. texts ≡ map without_limits (out_texts part.now)) }
{
    let texts = out_texts(alloc, part)?;
    bare_texts(alloc, &texts)
}

// The item of this name.
fn item_named<'p>(items: &'p [OutPart], name: &str) -> Option<&'p OutPart>
    ensures { option_map (λ o. o.now) result ≡ find (λ (o : OutPart). bytes_eq o.name name.now) items.now }
{
    for item in items {
        if item.name.as_str() == name {
            return Some(item);
        }
    }
    None
}

// The outputs of the item of this name.
fn named(alloc: Global, part: &RulePart, name: &str) -> Result<Value, ValueFault>
    ensures { Tells result (spec.item name.now (find (λ (o : OutPart). bytes_eq o.name name.now) part.now.outputs)) }
{
    match item_named(part.outputs.as_slice(), name) {
        Some(item) => Ok(Value::Many(bare_outs(alloc, item.outs.as_slice())?)),
        None => Err(unknown_name(alloc, name)),
    }
}

// The output at this place.
fn at(alloc: Global, part: &RulePart, place: u64) -> Result<Value, ValueFault>
    ensures { Tells result (spec.place place (slice_get (out_texts part.now) place)) }
{
    let texts = out_texts(alloc, part)?;
    match texts.get(place as usize) {
        Some(text) => Ok(Value::Word(without_limits(alloc, text)?)),
        None => Err(unknown_place(alloc, place)),
    }
}

/// What `rules.X.output` stands for, of the rule X and with this pick: the outputs without flags, constraints and blanks, as patterns;
/// all of them as a list, those of the item of a name as a list, or the one at a place, from 0, as a text. Exactly where the rule has no
/// such name or place the fault is `UnknownName`, with the name or with the spelling of the place; `OutOfMemory` where there is no
/// memory for the outputs or the name.
pub fn outputs_of(alloc: Global, part: &RulePart, pick: &OutputPick) -> Result<Value, ValueFault>
    ensures { Tells result (spec.outputs_of part.now pick.now) }
{
    match pick {
        OutputPick::All => Ok(Value::Many(all(alloc, part)?)),
        OutputPick::Named(name) => named(alloc, part, name.as_str()),
        OutputPick::At(place) => at(alloc, part, *place),
    }
}
