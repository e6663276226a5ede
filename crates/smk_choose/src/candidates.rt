//! The jobs that may make a path.

ghost use Rattle.std.specs.Prelude.{◌≡◌, ◌<◌, ◌&&◌, ◌++◌, ◌∷◌, [], filter, not, map, take, length, slice_index, option_map, IfOk, OnOk};
ghost use Rattle.std.specs.List.{flat_map, list_all};
ghost use Rattle.smk_base.specs.Path.{is_path};
ghost use Rattle.smk_world.specs.World.{folders_above};
ghost use Rattle.smk_flow.specs.PatternsOf.{rule_of};
ghost use Rattle.smk_choose.specs.Choose.{candidates};
ghost use Rattle.smk_choose.specs.Told.{told_by, making};
ghost use Rattle.smk_choose.specs.Index.{directories_at, outputs_at, IsIndex, AreFolders, AreReadings};
ghost use Rattle.smk_choose.specs.Readings.{is_apart_by, first_bound, filled_by, folder_at, by_folder, by_folders, members_from, outputs_from, or_others, is_free};

use crate::binding::by_name;
use crate::index::Index;
use crate::readings::Reading;
use crate::{Making, Readings, Sources};
use smk_base::{OutOfMemory, PathFault, PathText, Text};
use smk_flow::{Rule, Workflow};
use smk_pattern::{Binding, Pattern, fill, fits};
use std::alloc::Global;

// The binding of the path by the first of these patterns that fits it.
fn first_fit(
    alloc: Global,
    patterns: &[Pattern],
    path: &PathText,
) -> Result<Option<Binding>, OutOfMemory>
    ensures { IfOk result (λ found. found ≡ first_bound patterns.now path.now) }
{
    for pattern in patterns {
        if let Some(binding) = fits(alloc, pattern, path)? {
            return Ok(Some(by_name(alloc, binding)?));
        }
    }
    Ok(None)
}

// The folder that ends before this slash. A folder above a path is a path, so nothing but memory is wanting here.
fn folder_before(alloc: Global, path: &str, slash: usize) -> Result<PathText, OutOfMemory>
    requires within { slash < length path.now }
    requires is { slice_index path.now slash ≡ 47 }
    ensures { IfOk result (λ folder. folder ≡ take slash path.now) }
{
    match PathText::read(alloc, &path[..slash]) {
        Ok(folder) => Ok(folder),
        Err(_) => Err(OutOfMemory),
    }
}

// Adds the folder that ends before this byte, if it is a slash.
fn add_folder(
    alloc: Global,
    folders: &mut Vec<PathText>,
    path: &str,
    at: usize,
    byte: u8,
) -> Result<(), OutOfMemory>
    requires within { at < length path.now }
    requires is { slice_index path.now at ≡ byte }
    ensures { OnOk result (folders.new.items ≡ folders.old.items ++ folder_at path.now at byte) }
{
    if byte == b'/' {
        folders.push(folder_before(alloc, path, at)?)?;
    }
    Ok(())
}

/// The folders above the path, the shorter ones first. `OutOfMemory` where there is no memory for them.
pub fn folders_above(alloc: Global, path: &PathText) -> Result<Vec<PathText>, OutOfMemory>
    ensures { IfOk result (λ folders. folders.items ≡ folders_above path.now) }
{
    let text = path.as_str();
    let mut folders = Vec::new(alloc);
    for (at, byte) in text.as_bytes().iter().enumerate() {
        add_folder(alloc, &mut folders, text, at, *byte)?;
    }
    Ok(folders)
}

// Adds the job of the rule that makes the folder.
fn add_by_folder(
    alloc: Global,
    found: &mut Vec<Making>,
    rule: u32,
    patterns: &[Pattern],
    folder: &PathText,
) -> Result<(), OutOfMemory>
    ensures { OnOk result (found.new.items ≡ found.old.items ++ by_folder rule patterns.now folder.now) }
{
    match first_fit(alloc, patterns, folder)? {
        Some(binding) => {
            found.push(Making { rule, binding })?;
            Ok(())
        }
        None => Ok(()),
    }
}

// Adds the jobs of the rule that make one of these folders.
fn add_by_folders(
    alloc: Global,
    found: &mut Vec<Making>,
    rule: u32,
    patterns: &[Pattern],
    folders: &[PathText],
) -> Result<(), OutOfMemory>
    ensures { OnOk result (found.new.items ≡ found.old.items ++ by_folders rule patterns.now folders.now) }
{
    for folder in folders {
        add_by_folder(alloc, found, rule, patterns, folder)?;
    }
    Ok(())
}

// Adds the jobs of the rule with this number that make one of these folders.
fn add_members(
    alloc: Global,
    found: &mut Vec<Making>,
    readings: &[Reading],
    number: u32,
    folders: &[PathText],
) -> Result<(), OutOfMemory>
    ensures { OnOk result (found.new.items ≡ found.old.items ++ by_folders number (directories_at readings.now number) folders.now) }
{
    match readings.get(number as usize) {
        Some(reading) => add_by_folders(alloc, found, number, reading.folders.as_slice(), folders),
        None => Ok(()),
    }
}

// The jobs of the rules with these numbers that make one of these folders.
fn members_by(
    alloc: Global,
    readings: &[Reading],
    numbers: &[u32],
    folders: &[PathText],
) -> Result<Vec<Making>, OutOfMemory>
    ensures { IfOk result (λ found. found.items ≡ flat_map (λ n. by_folders n (directories_at readings.now n) folders.now) numbers.now) }
{
    let mut found = Vec::new(alloc);
    for number in numbers {
        add_members(alloc, &mut found, readings, *number, folders)?;
    }
    Ok(found)
}

// The jobs of which the path would be a member. Only the rules that make directories are tried.
fn members(
    alloc: Global,
    readings: &[Reading],
    numbers: &[u32],
    path: &PathText,
) -> Result<Vec<Making>, OutOfMemory>
    requires { AreFolders readings.now numbers.now }
    ensures { IfOk result (λ found. found.items ≡ members_from 0 readings.now (folders_above path.now)) }
{
    let folders = folders_above(alloc, path)?;
    members_by(alloc, readings, numbers, &folders)
}

// Adds the job of the rule with this number of which the path would be an output.
fn add_output(
    alloc: Global,
    found: &mut Vec<Making>,
    rules: &[Rule],
    number: u32,
    path: &PathText,
) -> Result<(), OutOfMemory>
    ensures { OnOk result (found.new.items ≡ found.old.items ++ by_folder number (outputs_at rules.now number) path.now) }
{
    match rules.get(number as usize) {
        Some(rule) => add_by_folder(alloc, found, number, rule.outputs.as_slice(), path),
        None => Ok(()),
    }
}

// The jobs of the rules with these numbers of which the path would be an output.
fn outputs_by(
    alloc: Global,
    rules: &[Rule],
    numbers: &[u32],
    path: &PathText,
) -> Result<Vec<Making>, OutOfMemory>
    ensures { IfOk result (λ found. found.items ≡ flat_map (λ n. by_folder n (outputs_at rules.now n) path.now) numbers.now) }
{
    let mut found = Vec::new(alloc);
    for number in numbers {
        add_output(alloc, &mut found, rules, *number, path)?;
    }
    Ok(found)
}

// The jobs of which the path would be an output. Rules whose outputs have no wildcards are found by the path's text; those that have an
// output with wildcards are tried for each path, behind the quick refusal of `fits` by the fixed front and end.
fn by_outputs(
    alloc: Global,
    rules: &[Rule],
    index: &Index,
    path: &PathText,
) -> Result<Vec<Making>, OutOfMemory>
    requires { IsIndex rules.now index.now }
    ensures { IfOk result (λ found. found.items ≡ outputs_from 0 rules.now path.now) }
{
    let numbers = index.tried(alloc, path)?;
    outputs_by(alloc, rules, numbers.as_slice(), path)
}

// The jobs that may make the path, those of its directories before all others.
pub(crate) fn makings(
    alloc: Global,
    rules: &[Rule],
    readings: &Readings,
    path: &PathText,
) -> Result<Vec<Making>, OutOfMemory>
    requires folders { AreFolders readings.now.rules.items readings.now.folders }
    requires outputs { IsIndex rules.now readings.now.index }
    ensures { IfOk result (λ found. found.items
        ≡ or_others (members_from 0 readings.now.rules.items (folders_above path.now)) (outputs_from 0 rules.now path.now)) }
{
    let found = members(alloc, &readings.rules, readings.folders.as_slice(), path)?;
    if found.is_empty() {
        return by_outputs(alloc, rules, &readings.index, path);
    }
    Ok(found)
}

// The pattern with the values of the binding. Each of its names has one in a checked workflow, so nothing but memory is wanting here.
pub(crate) fn filled(
    alloc: Global,
    pattern: &Pattern,
    binding: &Binding,
) -> Result<Text, OutOfMemory>
    ensures { IfOk result (λ text. text ≡ filled_by binding.now pattern.now) }
{
    match fill(alloc, pattern, binding) {
        Ok(text) => Ok(text),
        Err(_) => Err(OutOfMemory),
    }
}

// Whether the text is a path that holds no source.
fn is_free_text(alloc: Global, sources: &Sources, text: &str) -> Result<bool, OutOfMemory>
    ensures { IfOk result (λ free. free ≡ (is_path text.now && not ((told_by sources.now).holds text.now))) }
{
    match PathText::read(alloc, text) {
        Ok(path) => Ok(!sources.holds(&path)),
        Err(PathFault::BadPath) => Ok(false),
        Err(PathFault::OutOfMemory) => Err(OutOfMemory),
    }
}

// Whether the patterns, filled, are paths that hold no source.
fn are_free(
    alloc: Global,
    sources: &Sources,
    patterns: &[Pattern],
    binding: &Binding,
) -> Result<bool, OutOfMemory>
    ensures { IfOk result (λ free. free ≡ list_all (is_free (told_by sources.now).holds binding.now) patterns.now) }
{
    for pattern in patterns {
        let text = filled(alloc, pattern, binding)?;
        if !is_free_text(alloc, sources, text.as_str())? {
            return Ok(false);
        }
    }
    Ok(true)
}

// Whether the outputs and logs of the job are paths that hold no source.
fn is_apart(
    alloc: Global,
    sources: &Sources,
    rule: &Rule,
    binding: &Binding,
) -> Result<bool, OutOfMemory>
    ensures { IfOk result (λ apart. apart
        ≡ (list_all (is_free (told_by sources.now).holds binding.now) rule.now.outputs
        && list_all (is_free (told_by sources.now).holds binding.now) rule.now.logs)) }
{
    if !are_free(alloc, sources, rule.outputs.as_slice(), binding)? {
        return Ok(false);
    }
    are_free(alloc, sources, rule.logs.as_slice(), binding)
}

// Whether the outputs and logs of this job are paths that hold no source.
fn is_apart_by(
    alloc: Global,
    sources: &Sources,
    rules: &[Rule],
    made: &Making,
) -> Result<bool, OutOfMemory>
    ensures { IfOk result (λ apart. apart ≡ is_apart_by (told_by sources.now).holds rules.now made.now) }
{
    match rules.get(made.rule as usize) {
        Some(rule) => is_apart(alloc, sources, rule, &made.binding),
        None => Ok(false),
    }
}

// Keeps the job where its outputs and logs are paths that hold no source.
fn keep_apart(
    alloc: Global,
    sources: &Sources,
    rules: &[Rule],
    kept: &mut Vec<Making>,
    made: Making,
) -> Result<(), OutOfMemory>
    ensures { OnOk result (kept.new.items ≡ kept.old.items ++ filter (is_apart_by (told_by sources.now).holds rules.now) (made ∷ [])) }
{
    if is_apart_by(alloc, sources, rules, &made)? {
        kept.push(made)?;
    }
    Ok(())
}

// Those of these jobs whose outputs and logs are paths that hold no source.
pub(crate) fn all_apart(
    alloc: Global,
    sources: &Sources,
    rules: &[Rule],
    found: Vec<Making>,
) -> Result<Vec<Making>, OutOfMemory>
    ensures { IfOk result (λ kept. kept.items ≡ filter (is_apart_by (told_by sources.now).holds rules.now) found.items) }
{
    let mut kept = Vec::new(alloc);
    for made in found {
        keep_apart(alloc, sources, rules, &mut kept, made)?;
    }
    Ok(kept)
}

/// The jobs that may make the path, by their rules and bindings, in the order of preference that the file gives.
pub(crate) fn candidates(
    alloc: Global,
    flow: &Workflow,
    readings: &Readings,
    sources: &Sources,
    path: &PathText,
) -> Result<Vec<Making>, OutOfMemory>
    requires { AreReadings flow.now readings.now }
    ensures { IfOk result (λ found. found.items ≡ map making (candidates flow.now (told_by sources.now) path.now)) }
{
    let rules = flow.rules().as_slice();
    let found = makings(alloc, rules, readings, path)?;
    all_apart(alloc, sources, rules, found)
}
