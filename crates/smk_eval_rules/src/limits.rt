//! Constraints of wildcards, those of a rule and those of the whole file.

ghost use Rattle.std.specs.Prelude.{◌≡◌, ◌++◌, ℕ, List, not, filter, map, IfOk};
ghost use Rattle.smk_eval_values.specs.Values.{Tells};
ghost use Rattle.smk_eval_values.specs.Expressions.{named_in};
ghost use Rattle.smk_base.specs.declared.tree.Pair.{Pair};
ghost use Rattle.smk_eval_rules.specs.Kept.{holds, all_lent};
ghost use Rattle.smk_eval_rules.specs.Rules as spec;

use crate::items::each_item;
use smk_base::{Copied, List, OutOfMemory, Pair, Text};
use smk_eval_values::{Scope, ValueFault};
use smk_flow::RulePart;
use smk_parse_tree::ItemForm;
use std::alloc::Global;
use std::collections::BTreeMap;

/// The constraints that the items of a `wildcard_constraints` statement of the whole file give, in order. The fault is that of the
/// first item that has one: that of its value; or `BadFlag` where it has no name, or its value is no text, with the word of the
/// value's outermost flag, where it has one, else `wildcard_constraints`. `OutOfMemory` where there is no memory for them.
pub fn global_limits<S: Scope>(
    alloc: Global,
    items: &[ItemForm],
    scope: &S,
) -> Result<List<Pair>, ValueFault>
    ensures { Tells result (spec.global_limits (S.seen scope.now) items.now) }
{
    let word = Text::of(alloc, "wildcard_constraints")?;
    each_item(alloc, items, scope, &word)
}

// The constraints by their names.
fn by_name(alloc: Global, limits: &[Pair]) -> Result<BTreeMap<&str, &Pair>, OutOfMemory>
    ensures { IfOk result (λ kept. (q : List ℕ) → holds kept q ≡ spec.is_among limits.now q) }
{
    let mut kept = BTreeMap::new(alloc);
    for limit in limits {
        kept.insert(limit.name.as_str(), limit)?;
    }
    Ok(kept)
}

// Whether nothing is kept under the name.
fn is_other(kept: &BTreeMap<&str, &Pair>, name: &str) -> bool
    ensures { result ≡ not (holds kept.now name.now) }
{
    match kept.get(name) {
        Some(_) => false,
        None => true,
    }
}

// Those of the constraints under whose names nothing is kept.
fn others<'g>(
    alloc: Global,
    kept: &BTreeMap<&str, &Pair>,
    globals: &'g [Pair],
) -> Result<Vec<&'g Pair>, OutOfMemory>
    ensures { IfOk result (λ found. all_lent found.items ≡ filter (λ (g : Pair). not (holds kept.now g.name)) globals.now) }
{
    let mut found = Vec::new(alloc);
    for limit in globals {
        if is_other(kept, limit.name.as_str()) {
            found.push(limit)?;
        }
    }
    Ok(found)
}

// Those of the constraints that have other names than the rule's own.
fn others_than<'g>(
    alloc: Global,
    own: &[Pair],
    globals: &'g [Pair],
) -> Result<Vec<&'g Pair>, OutOfMemory>
    ensures { IfOk result (λ found. all_lent found.items ≡ spec.others own.now globals.now) }
{
    let kept = by_name(alloc, own)?;
    others(alloc, &kept, globals)
}

// The list with copies of these after it.
fn joined(alloc: Global, own: List<Pair>, more: &[&Pair]) -> Result<List<Pair>, OutOfMemory>
    ensures { IfOk result (λ all. all ≡ own ++ all_lent more.now) }
{
    let mut all = own;
    for pair in more {
        all.push(pair.copied(alloc)?)?;
    }
    Ok(all)
}

// The rule's own constraints, and the others for all other names.
fn with_others(alloc: Global, own: List<Pair>, globals: &[Pair]) -> Result<List<Pair>, OutOfMemory>
    ensures { IfOk result (λ all. all ≡ own ++ spec.others own globals.now) }
{
    let more = others_than(alloc, own.as_slice(), globals)?;
    joined(alloc, own, &more)
}

/// The rule with the constraints of the whole file for all names but those of its own constraints. `OutOfMemory` where there is no
/// memory for them.
pub fn with_globals(
    alloc: Global,
    part: RulePart,
    globals: &List<Pair>,
) -> Result<RulePart, OutOfMemory>
    ensures { IfOk result (λ p. p ≡ spec.with_globals globals.now part) }
{
    let mut part = part;
    part.limits = with_others(alloc, part.limits, globals.as_slice())?;
    Ok(part)
}
