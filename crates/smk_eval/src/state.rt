//! What the statements so far lead to.

ghost use Rattle.std.specs.Prelude.{◌≡◌, ◌++◌, ◌∷◌, [], map, reverse, ◌&&◌, IfOk};
ghost use Rattle.std.specs.List.{list_any};
ghost use Rattle.smk_eval_rules.specs.Rules as parts;
ghost use Rattle.smk_eval.specs.Statements.{begun, with_constant, with_rule, with_limits, with_order, is_default, marked, stands_in, flow_of};
ghost use Rattle.smk_eval.specs.Seen.{state_of};
ghost use Rattle.smk_eval.specs.Marking.{marked_if};

use crate::above::Above;
use smk_base::{Copied, List, OutOfMemory, Pair, PathText, Text};
use smk_eval_rules::with_globals;
use smk_eval_values::Value;
use smk_flow::{Clause, RulePart};
use std::alloc::Global;
use std::collections::BTreeMap;

/// What the statements so far lead to.
#[derive(Drop)]
pub(crate) struct State<'p> {
    /// The values of constants, by name.
    pub(crate) constants: BTreeMap<&'p str, Value>,
    /// The rules, in order.
    pub(crate) rules: Above,
    /// The constraints of the whole file, later ones first.
    pub(crate) limits: List<Pair>,
    /// The clauses of `ruleorder`, in order.
    pub(crate) orders: List<Clause>,
}

/// The rules and the clauses that files say.
#[derive(Drop)]
pub(crate) struct Said {
    pub(crate) rules: List<RulePart>,
    pub(crate) orders: List<Clause>,
}

// The list with more after it.
fn joined(alloc: Global, list: List<Pair>, more: &[Pair]) -> Result<List<Pair>, OutOfMemory>
    ensures { IfOk result (λ all. all ≡ list ++ more.now) }
{
    let mut all = list;
    for pair in more {
        all.push(pair.copied(alloc)?)?;
    }
    Ok(all)
}

// Whether one of the rules says that it is the default target.
fn has_default(parts: &[RulePart]) -> bool
    ensures { result ≡ list_any is_default parts.now }
{
    for part in parts {
        if part.default_target {
            return true;
        }
    }
    false
}

// The rule, marked as the default target where it is to be.
fn marked(part: RulePart, wanted: bool) -> RulePart
    ensures { result ≡ marked wanted part }
{
    let mut part = part;
    if wanted {
        part.default_target = true;
    }
    part
}

// Whether the rule is to be marked, and stands in this file.
fn is_next(part: &RulePart, file: &str, marks: bool) -> bool
    ensures { result ≡ (marks && stands_in file.now part.now) }
{
    marks && part.file.as_str() == file
}

// The list, the last one first. Where a rule is to be marked as the default target, the first is that stands in this file.
fn turned(
    alloc: Global,
    list: List<RulePart>,
    file: &str,
    marks: bool,
) -> Result<List<RulePart>, OutOfMemory>
    ensures { IfOk result (λ made. made ≡ marked_if marks file.now (reverse list)) }
{
    let mut left = list;
    let mut marks = marks;
    let mut made = List::new(alloc);
    'items: while let Some(item) = left.pop() {
        let here = is_next(&item, file, marks);
        made.push(marked(item, here))?;
        marks = marks && !here;
    }
    Ok(made)
}

// The rules with the constraints of the whole file, the last one first.
fn limited(
    alloc: Global,
    rules: List<RulePart>,
    limits: &List<Pair>,
) -> Result<List<RulePart>, OutOfMemory>
    ensures { IfOk result (λ made. reverse made ≡ map (parts.with_globals limits.now) rules) }
{
    let mut left = rules;
    let mut made = List::new(alloc);
    'rules: while let Some(part) = left.pop() {
        made.push(with_globals(alloc, part, limits)?)?;
    }
    Ok(made)
}

impl<'p> State<'p> {
    /// What holds before all statements.
    pub(crate) fn new(alloc: Global) -> State<'p>
        ensures { state_of result ≡ begun }
    {
        State {
            constants: BTreeMap::new(alloc),
            rules: Above::new(alloc),
            limits: List::new(alloc),
            orders: List::new(alloc),
        }
    }

    /// With the value of a constant, in the place of an earlier one. `OutOfMemory` where there is no memory for it.
    pub(crate) fn with_constant(self, name: &'p str, value: Value) -> Result<State<'p>, OutOfMemory>
        ensures { IfOk result (λ s. state_of s ≡ with_constant name.now (state_of self.entry) value) }
    {
        let mut state = self;
        drop(state.constants.insert(name, value)?);
        Ok(state)
    }

    /// With one more rule. `OutOfMemory` where there is no memory for it.
    pub(crate) fn with_rule(self, alloc: Global, part: RulePart) -> Result<State<'p>, OutOfMemory>
        ensures { IfOk result (λ s. state_of s ≡ with_rule (state_of self.entry) part) }
    {
        Ok(State {
            constants: self.constants,
            rules: self.rules.with(alloc, part)?,
            limits: self.limits,
            orders: self.orders,
        })
    }

    /// With more constraints of the whole file. `OutOfMemory` where there is no memory for them.
    pub(crate) fn with_limits(
        self,
        alloc: Global,
        more: List<Pair>,
    ) -> Result<State<'p>, OutOfMemory>
        ensures { IfOk result (λ s. state_of s ≡ with_limits (state_of self.entry) more) }
    {
        let limits = joined(alloc, more, self.limits.as_slice())?;
        Ok(State {
            constants: self.constants,
            rules: self.rules,
            limits,
            orders: self.orders,
        })
    }

    /// With one more clause, which stands in this file and line. `OutOfMemory` where there is no memory for it.
    pub(crate) fn with_order(
        self,
        alloc: Global,
        file: &PathText,
        line: u64,
        names: &List<Text>,
    ) -> Result<State<'p>, OutOfMemory>
        ensures { IfOk result (λ s. state_of s ≡ with_order (state_of self.entry) file.now line names.now) }
    {
        let mut orders = self.orders;
        orders.push(Clause {
            names: names.copied(alloc)?,
            file: file.copy(alloc)?,
            line,
        })?;
        Ok(State {
            constants: self.constants,
            rules: self.rules,
            limits: self.limits,
            orders,
        })
    }

    /// The rules and the clauses, with the constraints of the whole file in all rules. Where no rule says that it is the default target, the
    /// first rule of this file, which is the one to begin with, is marked so. `OutOfMemory` where there is no memory for them.
    pub(crate) fn said(self, alloc: Global, file: &str) -> Result<Said, OutOfMemory>
        ensures { IfOk result (λ said. flow_of file.now (state_of self.entry) ≡ record { rules = said.rules; orders = said.orders }) }
    {
        let rules = self.rules.parts();
        let marks = !has_default(rules.as_slice());
        let made = limited(alloc, rules, &self.limits)?;
        Ok(Said {
            rules: turned(alloc, made, file, marks)?,
            orders: self.orders,
        })
    }
}
