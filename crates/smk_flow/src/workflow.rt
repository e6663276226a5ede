//! Checked workflows.

ghost use Rattle.std.specs.Prelude.{◌≡◌, ◌<◌, [], length, map, reverse, IfOk};
ghost use Rattle.smk_flow.specs.Checks.{AllPass, IsWorkflow};
ghost use Rattle.smk_flow.specs.Flows.{number_of};
ghost use Rattle.smk_flow.specs.Numbers.{AreNames, parts_of};
ghost use Rattle.smk_flow.specs.PatternsOf.{patterns_of, rule_of};

use crate::{Clause, RulePart};
use indexmap::IndexSet;
use smk_base::{List, OutOfMemory};
use smk_pattern::Pattern;
use std::alloc::Global;
use std::marker::Model;

/// The patterns of a rule's outputs and of its logs, in order.
#[derive(Drop)]
pub struct Patterns {
    pub outputs: List<Pattern>,
    pub logs: List<Pattern>,
}

/// A rule with the patterns of its outputs and of its logs, in order.
#[derive(Drop)]
pub struct Rule {
    pub part: RulePart,
    pub outputs: List<Pattern>,
    pub logs: List<Pattern>,
}

/// A checked workflow.
#[derive(Drop)]
pub struct Workflow {
    rules: List<Rule>,
    orders: List<Clause>,
    /// The name of each rule, in order: a rule's number is the place of its name.
    names: IndexSet<String>,
}

impl Model for Workflow {
    ghost use Rattle.std.specs.Prelude.{map};
    ghost use Rattle.smk_flow.specs.Flows.{Flow};

    ghost Value = { Flow };

    ghost view = { λ a. record { rules = map (λ r. r.part) a.rules; orders = a.orders } };

    ghost use Rattle.smk_flow.specs.PatternsOf.{IsChecked};
    ghost use Rattle.smk_flow.specs.Numbers.{AreNames};

    ghost invariant = { λ a. IsChecked a.rules a.orders × AreNames a.rules a.names.keys };
}

// The list, the last one first.
fn turned<T: Drop>(alloc: Global, list: List<T>) -> Result<List<T>, OutOfMemory>
    ensures { IfOk result (λ made. made ≡ reverse list) }
{
    let mut left = list;
    let mut made = List::new(alloc);
    'items: while let Some(item) = left.pop() {
        made.push(item)?;
    }
    Ok(made)
}

// Each rule with its patterns, the last one first.
fn paired(
    alloc: Global,
    parts: List<RulePart>,
    patterns: List<Patterns>,
) -> Result<List<Rule>, OutOfMemory>
    requires { patterns ≡ map patterns_of parts }
    ensures { IfOk result (λ rules. reverse rules ≡ map rule_of parts) }
{
    let mut parts = parts;
    let mut patterns = patterns;
    let mut rules = List::new(alloc);
    'parts: while let Some(part) = parts.pop() {
        if let Some(made) = patterns.pop() {
            rules.push(Rule {
                part,
                outputs: made.outputs,
                logs: made.logs,
            })?;
        }
    }
    Ok(rules)
}

// The names of the rules, in order. `OutOfMemory` also where there are more rules than numbers.
fn rule_names(alloc: Global, rules: &[Rule]) -> Result<IndexSet<String>, OutOfMemory>
    requires { AllPass [] (parts_of rules.now) }
    ensures { IfOk result (λ names. AreNames rules.now names.keys) }
{
    if rules.len() > u32::MAX as usize {
        return Err(OutOfMemory);
    }
    let mut names = IndexSet::new(alloc);
    for rule in rules {
        let name = String::from_str(alloc, rule.part.name.as_str())?;
        names.insert(name)?;
    }
    Ok(names)
}

impl Workflow {
    /// The workflow of these rules, whose patterns these are, and of these clauses, in order. They pass all checks. `OutOfMemory` where
    /// there is no memory for it, which is also the answer where the rules are 2^32 or more.
    pub fn checked(
        alloc: Global,
        parts: List<RulePart>,
        patterns: List<Patterns>,
        orders: List<Clause>,
    ) -> Result<Workflow, OutOfMemory>
        requires workflow { IsWorkflow parts orders }
        requires patterns { patterns ≡ map patterns_of parts }
        ensures { IfOk result (λ flow. flow ≡ record { rules = parts; orders = orders }) }
    {
        let rules = turned(alloc, paired(alloc, parts, patterns)?)?;
        let names = rule_names(alloc, rules.as_slice())?;
        Ok(Workflow {
            rules,
            orders,
            names,
        })
    }

    /// The rules in order, lent, each with the patterns of its texts. A rule's number is its place, from 0. With the clauses they pass all
    /// checks.
    pub fn rules(&self) -> &List<Rule>
        ensures rules { result.now ≡ map rule_of self.now.rules }
        ensures few { length self.now.rules < 4294967296 }
        ensures checked { IsWorkflow self.now.rules self.now.orders }
    {
        &self.rules
    }

    /// The number of the rule with this name. None exactly where no rule has it. It takes no memory.
    pub fn rule(&self, name: &str) -> Option<u32>
        ensures { result ≡ number_of self.now name.now }
    {
        match self.names.get_index_of(name) {
            Some(number) => Some(number as u32),
            None => None,
        }
    }

    /// The clauses that say which of two rules is preferred, in order, lent.
    pub fn orders(&self) -> &List<Clause>
        ensures { result.now ≡ self.now.orders }
    {
        &self.orders
    }
}
