//! Flags that don't stand where they are.

ghost use Rattle.std.specs.Prelude.{◌≡◌, ◌++◌, ◌≤◌, [], length, filter, option_map, IfOk, OnOk};
ghost use Rattle.std.specs.List.{list_any, flat_map};
ghost use Rattle.smk_pattern.specs.Searching.{now_of};
ghost use Rattle.smk_flow.specs.declared.rule.FlaggedText.{FlaggedText};
ghost use Rattle.smk_flow.specs.Flows.{makes_folder, outs};
ghost use Rattle.smk_flow.specs.Lent.{all_lent};
ghost use Rattle.smk_flow.specs.Named.{rule_at};
ghost use Rattle.smk_flow.specs.Checks.{has, excludes, flag_word, is_bad_flag, bad_flags, is_source, is_gather, bad_gather, bad_words, gather_parts, or_nothing};

use crate::named::rule_at;
use crate::names::has;
use smk_base::OutOfMemory;
use smk_flow::flags::makes_folder;
use smk_flow::names::{names_of, wildcards};
use smk_flow::texts::outs;
use smk_flow::{Flag, FlaggedText, GatherPart, InPart, RulePart};
use std::alloc::Global;
use std::collections::BTreeMap;

// The word for the flag.
fn flag_word(flag: Flag) -> &'static str
    ensures { result.now ≡ flag_word flag }
{
    match flag {
        Flag::Temp => "temp",
        Flag::Protected => "protected",
        Flag::Folder => "directory",
    }
}

// Whether the two don't stand together.
fn excludes(flag: Flag, other: Flag) -> bool
    ensures { result ≡ excludes flag other }
{
    match (flag, other) {
        (Flag::Temp, Flag::Folder) | (Flag::Folder, Flag::Temp) => false,
        _ => true,
    }
}

// Whether one of these excludes the flag.
fn is_excluded(before: &[Flag], flag: Flag) -> bool
    ensures { result ≡ list_any (excludes flag) before.now }
{
    for other in before {
        if excludes(flag, *other) {
            return true;
        }
    }
    false
}

// Whether the flag may not stand after these.
fn is_bad_flag(checkpoint: bool, before: &[Flag], flag: Flag) -> bool
    ensures { result ≡ is_bad_flag checkpoint before.now flag }
{
    is_excluded(before, flag) || (checkpoint && flag == Flag::Temp)
}

// Adds the words of those of these flags that don't stand where they are. They are few, so each is compared with all before it.
fn add_bad_flags<'p>(
    found: &mut Vec<&'p str>,
    checkpoint: bool,
    flags: &[Flag],
) -> Result<(), OutOfMemory>
    ensures { OnOk result (now_of found.new.items ≡ now_of found.old.items ++ bad_flags checkpoint [] flags.now) }
{
    for (at, flag) in flags.iter().enumerate() {
        if is_bad_flag(checkpoint, &flags[..at], *flag) {
            found.push(flag_word(*flag))?;
        }
    }
    Ok(())
}

// How many of these are flagged as directories.
fn folder_count(outs: &[&FlaggedText]) -> usize
    ensures value { result ≡ length (filter makes_folder (all_lent outs.now)) }
    ensures within { result ≤ length outs.now }
{
    let mut count = 0;
    for out in outs {
        if makes_folder(out) {
            count += 1;
        }
    }
    count
}

// Whether the rule is a checkpoint with one directory as its only directory output.
fn is_source(alloc: Global, part: Option<&RulePart>) -> Result<bool, OutOfMemory>
    ensures { IfOk result (λ source. source ≡ is_source (option_map (λ r. r.now) part.entry)) }
{
    match part {
        None => Ok(false),
        Some(part) => {
            let found = outs(alloc, part)?;
            Ok(part.checkpoint && folder_count(&found) == 1)
        }
    }
}

// Whether one of the others is one of the names.
fn has_any(names: &[&str], others: &[&str]) -> bool
    ensures { result ≡ list_any (has (now_of names.now)) (now_of others.now) }
{
    for other in others {
        if has(names, other) {
            return true;
        }
    }
    false
}

// Whether the rule may gather so.
fn is_gather<'p>(
    alloc: Global,
    above: &BTreeMap<&'p str, &'p RulePart>,
    part: &RulePart,
    gather: &GatherPart,
) -> Result<bool, OutOfMemory>
    ensures { IfOk result (λ good. good ≡ is_gather (rule_at above.now) part.now gather.now) }
{
    let found = outs(alloc, part)?;
    if found.len() == 0 {
        return Ok(false);
    }
    if !is_source(alloc, rule_at(above, gather.checkpoint.as_str()))? {
        return Ok(false);
    }
    let known = wildcards(alloc, part)?;
    let listed = names_of(alloc, gather.listed.as_str())?;
    Ok(!has_any(&known, &listed))
}

// Adds the word for what the item gathers, where it may not.
fn add_bad_gather<'p>(
    alloc: Global,
    found: &mut Vec<&'p str>,
    above: &BTreeMap<&'p str, &'p RulePart>,
    part: &RulePart,
    item: &InPart,
) -> Result<(), OutOfMemory>
    ensures { OnOk result (now_of found.new.items
        ≡ now_of found.old.items ++ flat_map (bad_gather (rule_at above.now) part.now) (or_nothing item.now.gather)) }
{
    match &item.gather {
        None => Ok(()),
        Some(gather) => {
            if !is_gather(alloc, above, part, gather)? {
                found.push("from_checkpoint")?;
            }
            Ok(())
        }
    }
}

// Adds the words for what the rule gathers and may not.
fn add_bad_gathers<'p>(
    alloc: Global,
    found: &mut Vec<&'p str>,
    above: &BTreeMap<&'p str, &'p RulePart>,
    part: &RulePart,
) -> Result<(), OutOfMemory>
    ensures { OnOk result (now_of found.new.items
        ≡ now_of found.old.items ++ flat_map (bad_gather (rule_at above.now) part.now) (gather_parts part.now)) }
{
    for item in part.inputs.as_slice() {
        add_bad_gather(alloc, found, above, part, item)?;
    }
    Ok(())
}

// Adds the words of the flags of these outputs that don't stand where they are.
fn add_bad_outs<'p>(
    found: &mut Vec<&'p str>,
    checkpoint: bool,
    outs: &[&FlaggedText],
) -> Result<(), OutOfMemory>
    ensures { OnOk result (now_of found.new.items
        ≡ now_of found.old.items ++ flat_map (λ (o : FlaggedText). bad_flags checkpoint [] o.flags) (all_lent outs.now)) }
{
    for out in outs {
        add_bad_flags(found, checkpoint, out.flags.as_slice())?;
    }
    Ok(())
}

// The words of flags and gathers of the rule that don't stand where they are.
pub(crate) fn bad_words<'p>(
    alloc: Global,
    above: &BTreeMap<&'p str, &'p RulePart>,
    part: &RulePart,
) -> Result<Vec<&'p str>, OutOfMemory>
    ensures { IfOk result (λ words. now_of words.items ≡ bad_words (rule_at above.now) part.now) }
{
    let flagged = outs(alloc, part)?;
    let mut found = Vec::new(alloc);
    add_bad_outs(&mut found, part.checkpoint, &flagged)?;
    add_bad_gathers(alloc, &mut found, above, part)?;
    Ok(found)
}
