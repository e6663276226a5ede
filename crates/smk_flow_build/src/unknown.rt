//! Wildcards in a rule that its outputs don't have.

ghost use Rattle.std.specs.Prelude.{◌≡◌, ◌++◌, IfOk, OnOk};
ghost use Rattle.std.specs.List.{flat_map};
ghost use Rattle.smk_base.specs.declared.tree.Pair.{Pair};
ghost use Rattle.smk_world.specs.declared.recipe.Values.{Values};
ghost use Rattle.smk_pattern.specs.Searching.{now_of};
ghost use Rattle.smk_flow.specs.Named.{rule_at};
ghost use Rattle.smk_flow.specs.Checks.{names_of, unknown_in, input_unknown, words_unknown, checkpoint_unknown, gather_parts, or_nothing, unknown, unknown_beside};

use crate::named::{rule_at, wildcards_at};
use crate::names::{add_names, add_unknown};
use crate::words::word_names;
use smk_base::{OutOfMemory, Pair, Text};
use smk_flow::names::{names_of, wildcards};
use smk_flow::{GatherPart, InPart, RulePart};
use smk_world::Values;
use std::alloc::Global;
use std::collections::BTreeMap;

// Adds those of the names in this text that aren't known.
fn add_unknown_in<'p>(
    alloc: Global,
    found: &mut Vec<&'p str>,
    known: &[&'p str],
    text: &'p str,
) -> Result<(), OutOfMemory>
    ensures { OnOk result (now_of found.new.items ≡ now_of found.old.items ++ unknown_in (now_of known.now) (names_of text.now)) }
{
    let names = names_of(alloc, text)?;
    add_unknown(found, known, &names)
}

// Adds those of the names in these texts that aren't known.
fn add_unknown_texts<'p>(
    alloc: Global,
    found: &mut Vec<&'p str>,
    known: &[&'p str],
    texts: &'p [Text],
) -> Result<(), OutOfMemory>
    ensures { OnOk result (now_of found.new.items
        ≡ now_of found.old.items ++ flat_map (λ t. unknown_in (now_of known.now) (names_of t)) texts.now) }
{
    for text in texts {
        add_unknown_in(alloc, found, known, text.as_str())?;
    }
    Ok(())
}

// Adds the names in what is wanted that neither what is listed has nor is known.
fn add_unknown_wanted<'p>(
    alloc: Global,
    found: &mut Vec<&'p str>,
    known: &[&'p str],
    gather: &'p GatherPart,
) -> Result<(), OutOfMemory>
    ensures { OnOk result (now_of found.new.items
        ≡ now_of found.old.items ++ unknown_in (names_of gather.now.listed ++ now_of known.now) (names_of gather.now.wanted)) }
{
    let mut both = names_of(alloc, gather.listed.as_str())?;
    add_names(&mut both, known)?;
    add_unknown_in(alloc, found, &both, gather.wanted.as_str())?;
    Ok(())
}

// Adds the names of an item of inputs that aren't known.
fn add_unknown_input<'p>(
    alloc: Global,
    found: &mut Vec<&'p str>,
    known: &[&'p str],
    item: &'p InPart,
) -> Result<(), OutOfMemory>
    ensures { OnOk result (now_of found.new.items ≡ now_of found.old.items ++ input_unknown (now_of known.now) item.now) }
{
    add_unknown_texts(alloc, found, known, item.texts.as_slice())?;
    match &item.gather {
        None => Ok(()),
        Some(gather) => {
            add_unknown_wanted(alloc, found, known, gather)?;
            Ok(())
        }
    }
}

// Adds the names of the inputs that aren't known.
fn add_unknown_inputs<'p>(
    alloc: Global,
    found: &mut Vec<&'p str>,
    known: &[&'p str],
    inputs: &'p [InPart],
) -> Result<(), OutOfMemory>
    ensures { OnOk result (now_of found.new.items ≡ now_of found.old.items ++ flat_map (input_unknown (now_of known.now)) inputs.now) }
{
    for item in inputs {
        add_unknown_input(alloc, found, known, item)?;
    }
    Ok(())
}

// Adds those of the names in this text, which isn't read as a pattern, that aren't known.
fn add_unknown_words<'p>(
    alloc: Global,
    found: &mut Vec<&'p str>,
    known: &[&'p str],
    text: &'p str,
) -> Result<(), OutOfMemory>
    ensures { OnOk result (now_of found.new.items ≡ now_of found.old.items ++ words_unknown (now_of known.now) text.now) }
{
    let names = word_names(alloc, text)?;
    add_unknown(found, known, &names)
}

// Adds the names in these values that aren't known.
fn add_unknown_values<'p>(
    alloc: Global,
    found: &mut Vec<&'p str>,
    known: &[&'p str],
    values: &'p [Text],
) -> Result<(), OutOfMemory>
    ensures { OnOk result (now_of found.new.items ≡ now_of found.old.items ++ flat_map (words_unknown (now_of known.now)) values.now) }
{
    for value in values {
        add_unknown_words(alloc, found, known, value.as_str())?;
    }
    Ok(())
}

// Adds the names in the parameters that aren't known.
fn add_unknown_params<'p>(
    alloc: Global,
    found: &mut Vec<&'p str>,
    known: &[&'p str],
    params: &'p [Values],
) -> Result<(), OutOfMemory>
    ensures { OnOk result (now_of found.new.items
        ≡ now_of found.old.items ++ flat_map (λ (v : Values). flat_map (words_unknown (now_of known.now)) v.values) params.now) }
{
    for param in params {
        add_unknown_values(alloc, found, known, param.values.as_slice())?;
    }
    Ok(())
}

// Adds the names in the resources that are texts that aren't known.
fn add_unknown_resources<'p>(
    alloc: Global,
    found: &mut Vec<&'p str>,
    known: &[&'p str],
    words: &'p [Pair],
) -> Result<(), OutOfMemory>
    ensures { OnOk result (now_of found.new.items
        ≡ now_of found.old.items ++ flat_map (λ (w : Pair). words_unknown (now_of known.now) w.value) words.now) }
{
    for word in words {
        add_unknown_words(alloc, found, known, word.value.as_str())?;
    }
    Ok(())
}

// Adds the wildcards of the checkpoint from which the item is gathered that aren't known.
fn add_unknown_checkpoint<'p>(
    alloc: Global,
    found: &mut Vec<&'p str>,
    above: &BTreeMap<&'p str, &'p RulePart>,
    known: &[&'p str],
    item: &'p InPart,
) -> Result<(), OutOfMemory>
    ensures { OnOk result (now_of found.new.items
        ≡ now_of found.old.items ++ flat_map (checkpoint_unknown (rule_at above.now) (now_of known.now)) (or_nothing item.now.gather)) }
{
    match &item.gather {
        None => Ok(()),
        Some(gather) => {
            let names = wildcards_at(alloc, rule_at(above, gather.checkpoint.as_str()))?;
            add_unknown(found, known, &names)
        }
    }
}

// Adds the wildcards of checkpoints that aren't known.
fn add_unknown_checkpoints<'p>(
    alloc: Global,
    found: &mut Vec<&'p str>,
    above: &BTreeMap<&'p str, &'p RulePart>,
    known: &[&'p str],
    part: &'p RulePart,
) -> Result<(), OutOfMemory>
    ensures { OnOk result (now_of found.new.items
        ≡ now_of found.old.items ++ flat_map (checkpoint_unknown (rule_at above.now) (now_of known.now)) (gather_parts part.now)) }
{
    for item in part.inputs.as_slice() {
        add_unknown_checkpoint(alloc, found, above, known, item)?;
    }
    Ok(())
}

// Adds the names in the rule that aren't known.
fn add_unknown_beside<'p>(
    alloc: Global,
    found: &mut Vec<&'p str>,
    above: &BTreeMap<&'p str, &'p RulePart>,
    known: &[&'p str],
    part: &'p RulePart,
) -> Result<(), OutOfMemory>
    ensures { OnOk result (now_of found.new.items ≡ now_of found.old.items ++ unknown_beside (rule_at above.now) (now_of known.now) part.now) }
{
    add_unknown_texts(alloc, found, known, part.logs.as_slice())?;
    add_unknown_inputs(alloc, found, known, part.inputs.as_slice())?;
    add_unknown_params(alloc, found, known, part.params.as_slice())?;
    add_unknown_resources(alloc, found, known, part.words.as_slice())?;
    add_unknown_checkpoints(alloc, found, above, known, part)?;
    Ok(())
}

// The wildcards in the rule that its outputs don't have.
pub(crate) fn unknown<'p>(
    alloc: Global,
    above: &BTreeMap<&'p str, &'p RulePart>,
    part: &'p RulePart,
) -> Result<Vec<&'p str>, OutOfMemory>
    ensures { IfOk result (λ names. now_of names.items ≡ unknown (rule_at above.now) part.now) }
{
    let known = wildcards(alloc, part)?;
    let mut found = Vec::new(alloc);
    add_unknown_beside(alloc, &mut found, above, &known, part)?;
    Ok(found)
}
