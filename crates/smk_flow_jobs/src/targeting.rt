//! What words stand for as targets.

ghost use Rattle.std.specs.Prelude.{◌≡◌, ◌≢◌, ◌++◌, ◌∷◌, [], ◌&&◌, ◌||◌, if◌then◌else◌, Some, None, true, false, not, map, option_map, option_to_list, is_none, IfOk, IfErr, OnOk};
ghost use Rattle.smk_base.specs.Path.{is_path};
ghost use Rattle.smk_pattern.specs.Reading.{fill};
ghost use Rattle.smk_pattern.specs.Searching.{now_of};
ghost use Rattle.smk_flow.specs.declared.rule.FlaggedText.{FlaggedText};
ghost use Rattle.smk_flow.specs.declared.rule.InPart.{InPart};
ghost use Rattle.smk_flow.specs.declared.rule.RulePart.{RulePart};
ghost use Rattle.smk_flow.specs.declared.fault.TargetFault.{TargetFault};
ghost use Rattle.smk_flow.specs.Flows.{outs};
ghost use Rattle.smk_flow.specs.Lent.{all_lent};
ghost use Rattle.smk_flow.specs.Numbers.{parts_of};
ghost use Rattle.smk_flow.specs.Targets.{is_empty, is_target, plain_inputs, stands_for, paths_of, or_none, default_rule, words_of, all_paths, first_bad};

use crate::filling::path_of;
use crate::gathers::rule_named;
use smk_base::{List, OutOfMemory, PathFault, PathText, Text, one};
use smk_flow::names::wildcards;
use smk_flow::texts::{add_texts, outs};
use smk_flow::{FlaggedText, InPart, Rule, RulePart, TargetFault, Workflow};
use std::alloc::Global;

// Adds the text of a rule without wildcards as a path. In a checked workflow it is one.
fn add_plain(alloc: Global, made: &mut List<PathText>, text: &str) -> Result<(), OutOfMemory>
    ensures { OnOk result (made.new ≡ made.old ++ fill [] text.now ∷ []) }
{
    match path_of(alloc, text, &List::new(alloc)) {
        Ok(path) => made.push(path),
        Err(_) => Err(OutOfMemory),
    }
}

// The outputs of a rule without wildcards.
fn out_paths(alloc: Global, outs: &[&FlaggedText]) -> Result<List<PathText>, OutOfMemory>
    ensures { IfOk result (λ made. made ≡ map (λ (o : FlaggedText). fill [] o.text) (all_lent outs.now)) }
{
    let mut made = List::new(alloc);
    for out in outs {
        add_plain(alloc, &mut made, out.text.as_str())?;
    }
    Ok(made)
}

// Adds the inputs of an item that are written out.
fn add_inputs(alloc: Global, made: &mut List<PathText>, item: &InPart) -> Result<(), OutOfMemory>
    ensures { OnOk result (made.new ≡ made.old ++ map (fill []) item.now.texts) }
{
    for text in item.texts.as_slice() {
        add_plain(alloc, made, text.as_str())?;
    }
    Ok(())
}

// The inputs of a rule without wildcards that are written out.
fn in_paths(alloc: Global, part: &RulePart) -> Result<List<PathText>, OutOfMemory>
    ensures { IfOk result (λ made. made ≡ plain_inputs part.now) }
{
    let mut made = List::new(alloc);
    for item in part.inputs.as_slice() {
        add_inputs(alloc, &mut made, item)?;
    }
    Ok(made)
}

// What a rule stands for.
fn rule_paths(
    alloc: Global,
    part: &RulePart,
    outs: &[&FlaggedText],
) -> Result<List<PathText>, OutOfMemory>
    ensures { IfOk result (λ made. made ≡ stands_for part.now (all_lent outs.now)) }
{
    match outs {
        [] => in_paths(alloc, part),
        [_, ..] => out_paths(alloc, outs),
    }
}

// Whether the rule, which has these outputs and wildcards, is a target.
fn is_target(part: &RulePart, outs: &[&FlaggedText], names: &[&str]) -> bool
    ensures { result ≡ (is_empty (now_of names.now) && (not (is_empty (all_lent outs.now)) || is_none part.now.command)) }
{
    names.is_empty() && (!outs.is_empty() || part.command.is_none())
}

// What a rule stands for, where it is a target.
fn paths_of_rule(alloc: Global, part: &RulePart) -> Result<Option<List<PathText>>, OutOfMemory>
    ensures { IfOk result (λ paths. paths ≡ (if is_target part.now then Some (stands_for part.now (outs part.now)) else None)) }
{
    let found = outs(alloc, part)?;
    let names = wildcards(alloc, part)?;
    if is_target(part, &found, &names) {
        Ok(Some(rule_paths(alloc, part, &found)?))
    } else {
        Ok(None)
    }
}

// The path that the word is, where it is one.
fn path_itself(alloc: Global, word: &str) -> Result<Option<List<PathText>>, OutOfMemory>
    ensures { IfOk result (λ paths. paths ≡ (if is_path word.now then Some (word.now ∷ []) else None)) }
{
    match PathText::read(alloc, word) {
        Ok(path) => Ok(Some(one(alloc, path)?)),
        Err(PathFault::BadPath) => Ok(None),
        Err(PathFault::OutOfMemory) => Err(OutOfMemory),
    }
}

// The paths that the word stands for, where it is a target.
fn paths_of(
    alloc: Global,
    flow: &Workflow,
    word: &str,
) -> Result<Option<List<PathText>>, OutOfMemory>
    ensures { IfOk result (λ paths. paths ≡ paths_of flow.now word.now) }
{
    match rule_named(flow, word) {
        Some(rule) => paths_of_rule(alloc, &rule.part),
        None => path_itself(alloc, word),
    }
}

// The default rule, where there is a rule.
fn default_rule(rules: &[Rule]) -> Option<&Rule>
    ensures { option_map (λ r. r.now.part) result ≡ default_rule (parts_of rules.now) }
{
    for rule in rules {
        if rule.part.default_target {
            return Some(rule);
        }
    }
    match rules {
        [] => None,
        [rule, ..] => Some(rule),
    }
}

// The name of the default rule, where there is a rule.
fn default_name(flow: &Workflow) -> Option<&str>
    ensures { option_map (λ n. n.now) result ≡ option_map (λ (r : RulePart). r.name) (default_rule flow.now.rules) }
{
    match default_rule(flow.rules().as_slice()) {
        Some(rule) => Some(rule.part.name.as_str()),
        None => None,
    }
}

// The name of the default rule as the only word, where there is a rule.
fn default_words(alloc: Global, flow: &Workflow) -> Result<Vec<&str>, OutOfMemory>
    ensures { IfOk result (λ found. now_of found.items ≡ option_to_list (option_map (λ (r : RulePart). r.name) (default_rule flow.now.rules))) }
{
    let mut found = Vec::new(alloc);
    match default_name(flow) {
        Some(name) => {
            found.push(name)?;
            Ok(found)
        }
        None => Ok(found),
    }
}

// The words, lent.
fn lent(alloc: Global, words: &[Text]) -> Result<Vec<&str>, OutOfMemory>
    ensures { IfOk result (λ found. now_of found.items ≡ words.now) }
{
    let mut found = Vec::new(alloc);
    add_texts(&mut found, words)?;
    Ok(found)
}

// The words that count: those that there are, or the name of the default rule.
fn words_of<'w>(
    alloc: Global,
    flow: &'w Workflow,
    words: &'w [Text],
) -> Result<Vec<&'w str>, OutOfMemory>
    ensures { IfOk result (λ found. now_of found.items ≡ words_of flow.now words.now) }
{
    match words {
        [] => default_words(alloc, flow),
        [_, ..] => lent(alloc, words),
    }
}

// Adds copies of the paths.
fn add_paths(
    alloc: Global,
    made: &mut List<PathText>,
    paths: &[PathText],
) -> Result<(), OutOfMemory>
    ensures { OnOk result (made.new ≡ made.old ++ paths.now) }
{
    for path in paths {
        made.push(path.copy(alloc)?)?;
    }
    Ok(())
}

// Adds the paths that the word stands for.
fn add_word(
    alloc: Global,
    made: &mut List<PathText>,
    flow: &Workflow,
    word: &str,
) -> Result<(), TargetFault>
    ensures paths { OnOk result (made.new ≡ made.old ++ or_none (paths_of flow.now word.now)) }
    ensures good { OnOk result (is_none (paths_of flow.now word.now) ≡ false) }
    ensures bad { IfErr result (λ f. f ≢ TargetFault.OutOfMemory → (is_none (paths_of flow.now word.now) ≡ true) × (f ≡ TargetFault.BadTarget word.now)) }
{
    match paths_of(alloc, flow, word)? {
        Some(paths) => {
            add_paths(alloc, made, paths.as_slice())?;
            Ok(())
        }
        None => Err(TargetFault::BadTarget(Text::of(alloc, word)?)),
    }
}

// The paths that these words stand for.
fn paths_of_all(
    alloc: Global,
    flow: &Workflow,
    words: &[&str],
) -> Result<List<PathText>, TargetFault>
    ensures paths { IfOk result (λ paths. paths ≡ all_paths flow.now (now_of words.now)) }
    ensures good { OnOk result (first_bad flow.now (now_of words.now) ≡ None) }
    ensures bad { IfErr result (λ f. f ≢ TargetFault.OutOfMemory → option_map TargetFault.BadTarget (first_bad flow.now (now_of words.now)) ≡ Some f) }
{
    let mut made = List::new(alloc);
    for word in words {
        match add_word(alloc, &mut made, flow, word) {
            Ok(()) => {}
            Err(fault) => return Err(fault),
        }
    }
    Ok(made)
}

/// The paths that the words stand for, in order. A rule's name stands for its outputs, or where it has none, for its inputs; any other
/// word is a path. Without a word it is the first rule with `default_target`, else the first rule; without any rule there is no target.
///
/// `BadTarget` exactly where a word is neither a rule nor a path, or names a rule that has wildcards, or one that has a command and no
/// outputs: the first such word, which may be the name of the default rule. `OutOfMemory` where there is no memory for the paths.
pub fn targets(
    alloc: Global,
    flow: &Workflow,
    words: &List<Text>,
) -> Result<List<PathText>, TargetFault>
    ensures paths { IfOk result (λ paths. paths ≡ all_paths flow.now (words_of flow.now words.now)) }
    ensures good { OnOk result (first_bad flow.now (words_of flow.now words.now) ≡ None) }
    ensures bad { IfErr result (λ f. f ≢ TargetFault.OutOfMemory
        → option_map TargetFault.BadTarget (first_bad flow.now (words_of flow.now words.now)) ≡ Some f) }
{
    let found = words_of(alloc, flow, words.as_slice())?;
    match paths_of_all(alloc, flow, &found) {
        Ok(paths) => Ok(paths),
        Err(fault) => Err(fault),
    }
}
