//! The checks of a rule.

ghost use Rattle.std.specs.Prelude.{◌≡◌, ◌≢◌, ◌++◌, [], ℕ, List as Items, None, Some, map, IfOk, IfErr, OnOk};
ghost use Rattle.smk_pattern.specs.Reading.{shape_of};
ghost use Rattle.smk_pattern.specs.Searching.{now_of};
ghost use Rattle.smk_flow.specs.declared.fault.FlowFault.{FlowFault};
ghost use Rattle.smk_flow.specs.Named.{rule_at};
ghost use Rattle.smk_flow.specs.PatternsOf.{patterns_of};
ghost use Rattle.smk_flow.specs.Checks.{out_texts, unequal, unknown_fault, flag_fault, rule_fault, rule_in, or_else, stranger, contradiction, Passes, Fails, AllPass, OneFails, IsWorkflow, IsFault};

use crate::faults::{bad_flag, doubled_rule, unequal_wildcards, unknown_wildcard};
use crate::flags::bad_words;
use crate::named::{add_rule, has_rule};
use crate::names::are_all_same;
use crate::orders::{check_all_known, check_orders};
use crate::reading::read_texts;
use crate::unknown::unknown;
use smk_base::{List, OutOfMemory};
use smk_flow::texts::{add_texts, out_texts};
use smk_flow::{Clause, FlowFault, Patterns, RulePart};
use smk_pattern::Limits;
use std::alloc::Global;
use std::collections::BTreeMap;

// The texts of the outputs and of the logs.
fn named_texts(alloc: Global, part: &RulePart) -> Result<Vec<&str>, OutOfMemory>
    ensures { IfOk result (λ texts. now_of texts.items ≡ out_texts part.now ++ part.now.logs) }
{
    let mut texts = out_texts(alloc, part)?;
    add_texts(&mut texts, part.logs.as_slice())?;
    Ok(texts)
}

// Whether the outputs and logs all have the same wildcards.
fn check_equal(alloc: Global, part: &RulePart) -> Result<(), FlowFault>
    ensures ok { OnOk result (unequal part.now ≡ None) }
    ensures fault { IfErr result (λ f. f ≢ FlowFault.OutOfMemory → unequal part.now ≡ Some f) }
{
    let texts = named_texts(alloc, part)?;
    if !are_all_same(alloc, &texts)? {
        return Err(unequal_wildcards(alloc, part)?);
    }
    Ok(())
}

// Looks for the first wildcard in the rule that its outputs don't have.
fn check_unknown<'p>(
    alloc: Global,
    above: &BTreeMap<&'p str, &'p RulePart>,
    part: &'p RulePart,
) -> Result<(), FlowFault>
    ensures ok { OnOk result (unknown_fault (rule_at above.now) part.now ≡ None) }
    ensures fault { IfErr result (λ f. f ≢ FlowFault.OutOfMemory → unknown_fault (rule_at above.now) part.now ≡ Some f) }
{
    let names = unknown(alloc, above, part)?;
    match names.as_slice() {
        [] => Ok(()),
        [name, ..] => Err(unknown_wildcard(alloc, part, name)?),
    }
}

// Looks for the first flag or gather in the rule that doesn't stand where it is.
fn check_words<'p>(
    alloc: Global,
    above: &BTreeMap<&'p str, &'p RulePart>,
    part: &RulePart,
) -> Result<(), FlowFault>
    ensures ok { OnOk result (flag_fault (rule_at above.now) part.now ≡ None) }
    ensures fault { IfErr result (λ f. f ≢ FlowFault.OutOfMemory → flag_fault (rule_at above.now) part.now ≡ Some f) }
{
    let words = bad_words(alloc, above, part)?;
    match words.as_slice() {
        [] => Ok(()),
        [word, ..] => Err(bad_flag(alloc, part, word)?),
    }
}

// Looks for what is wrong with a rule whose texts are read.
#[tactic(auto, using(crate::proofs::RuleFaults::or_none, crate::proofs::RuleFaults::or_first, crate::proofs::RuleFaults::or_second, crate::proofs::RuleFaults::or_third))]
fn check_names<'p>(
    alloc: Global,
    above: &BTreeMap<&'p str, &'p RulePart>,
    part: &'p RulePart,
) -> Result<(), FlowFault>
    ensures ok { OnOk result (rule_fault (rule_at above.now) part.now ≡ None) }
    ensures fault { IfErr result (λ f. f ≢ FlowFault.OutOfMemory → rule_fault (rule_at above.now) part.now ≡ Some f) }
{
    match check_equal(alloc, part) {
        Ok(()) => {}
        Err(fault) => return Err(fault),
    }
    match check_unknown(alloc, above, part) {
        Ok(()) => {}
        Err(fault) => return Err(fault),
    }
    match check_words(alloc, above, part) {
        Ok(()) => Ok(()),
        Err(fault) => Err(fault),
    }
}

// Checks a rule after these, and gives the patterns of its outputs and of its logs.
#[tactic(auto, using(crate::proofs::RuleFaults::passes, crate::proofs::RuleFaults::is_doubled, crate::proofs::RuleFaults::is_unread, crate::proofs::RuleFaults::is_wrong))]
pub(crate) fn check_rule<'p>(
    alloc: Global,
    above: &BTreeMap<&'p str, &'p RulePart>,
    part: &'p RulePart,
    shared: &mut Limits,
) -> Result<Patterns, FlowFault>
    ensures outputs { IfOk result (λ ps. ps.outputs ≡ map (shape_of part.now.limits) (out_texts part.now)) }
    ensures logs { IfOk result (λ ps. ps.logs ≡ map (shape_of []) part.now.logs) }
    ensures passes { OnOk result (Passes (rule_at above.now) part.now) }
    ensures fails { IfErr result (λ f. f ≢ FlowFault.OutOfMemory → Fails (rule_at above.now) part.now f) }
{
    if has_rule(above, part.name.as_str()) {
        return Err(doubled_rule(alloc, part)?);
    }
    match read_texts(alloc, part, shared) {
        Err(fault) => Err(fault),
        Ok(patterns) => match check_names(alloc, above, part) {
            Ok(()) => Ok(patterns),
            Err(fault) => Err(fault),
        },
    }
}

// Checks the rules in order, and keeps each under its name. No rule is kept before.
pub(crate) fn check_rules<'p>(
    alloc: Global,
    rules: &mut BTreeMap<&'p str, &'p RulePart>,
    parts: &'p [RulePart],
) -> Result<List<Patterns>, FlowFault>
    requires { (q : Items ℕ) → rule_at rules.old q ≡ None }
    ensures look { OnOk result ((q : Items ℕ) → rule_at rules.new q ≡ rule_in parts.now q) }
    ensures patterns { IfOk result (λ ps. ps ≡ map patterns_of parts.now) }
    ensures passes { OnOk result (AllPass [] parts.now) }
    ensures fails { IfErr result (λ f. f ≢ FlowFault.OutOfMemory → OneFails [] parts.now f) }
{
    let mut shared = Limits::new(alloc);
    let mut patterns = List::new(alloc);
    for part in parts {
        match check_rule(alloc, rules, part, &mut shared) {
            Err(fault) => return Err(fault),
            Ok(made) => {
                patterns.push(made)?;
                add_rule(rules, part)?;
            }
        }
    }
    Ok(patterns)
}

// Checks the clauses: that their names are rules', then that they don't contradict each other.
#[tactic(auto, using(crate::proofs::RulesPass::clause_first, crate::proofs::RulesPass::clause_second))]
fn check_clauses<'p>(
    alloc: Global,
    rules: &BTreeMap<&'p str, &'p RulePart>,
    orders: &[Clause],
) -> Result<(), FlowFault>
    ensures known { OnOk result (stranger (rule_at rules.now) orders.now ≡ None) }
    ensures settled { OnOk result (contradiction orders.now orders.now ≡ None) }
    ensures fault { IfErr result (λ f. f ≢ FlowFault.OutOfMemory
        → or_else (stranger (rule_at rules.now) orders.now) (contradiction orders.now orders.now) ≡ Some f) }
{
    match check_all_known(alloc, rules, orders) {
        Err(fault) => Err(fault),
        Ok(()) => match check_orders(alloc, orders) {
            Ok(()) => Ok(()),
            Err(fault) => Err(fault),
        },
    }
}

/// Checks that the rules and the clauses make a workflow, and gives the patterns of each rule, in order. Otherwise the first fault.
#[tactic(auto, using(crate::proofs::RulesPass::is_workflow, crate::proofs::RulesPass::is_rule_fault, crate::proofs::RulesPass::is_clause_fault))]
pub(crate) fn check(
    alloc: Global,
    parts: &[RulePart],
    orders: &[Clause],
) -> Result<List<Patterns>, FlowFault>
    ensures patterns { IfOk result (λ ps. ps ≡ map patterns_of parts.now) }
    ensures is { OnOk result (IsWorkflow parts.now orders.now) }
    ensures fault { IfErr result (λ f. f ≢ FlowFault.OutOfMemory → IsFault parts.now orders.now f) }
{
    let mut rules = BTreeMap::new(alloc);
    match check_rules(alloc, &mut rules, parts) {
        Err(fault) => Err(fault),
        Ok(patterns) => match check_clauses(alloc, &rules, orders) {
            Ok(()) => Ok(patterns),
            Err(fault) => Err(fault),
        },
    }
}
