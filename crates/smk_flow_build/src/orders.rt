//! Clauses that say which of two rules is preferred, checked.

ghost use Rattle.std.specs.Prelude.{◌≡◌, ◌≢◌, [], None, Some, option_map, IfErr, OnOk};
ghost use Rattle.std.specs.List.{list_any};
ghost use Rattle.smk_pattern.specs.Shapes.{Text};
ghost use Rattle.smk_flow.specs.declared.fault.FlowFault.{FlowFault};
ghost use Rattle.smk_flow.specs.declared.rule.Clause.{Clause};
ghost use Rattle.smk_flow.specs.Named.{rule_at};
ghost use Rattle.smk_flow.specs.Checks.{has, first_as, strangers, stranger, has_before, is_against, against, contradiction_in, contradiction};

use crate::faults::{contradictory_order, unknown_name};
use crate::named::rule_at;
use smk_base::Text;
use smk_flow::{Clause, FlowFault, RulePart};
use std::alloc::Global;
use std::collections::BTreeMap;

// Looks for the first name in the clause that is no rule's.
fn check_known<'p>(
    alloc: Global,
    rules: &BTreeMap<&'p str, &'p RulePart>,
    clause: &Clause,
) -> Result<(), FlowFault>
    ensures ok { OnOk result (strangers (rule_at rules.now) clause.now.names ≡ []) }
    ensures fault { IfErr result (λ f. f ≢ FlowFault.OutOfMemory
        → first_as (FlowFault.UnknownName clause.now.file clause.now.line) (strangers (rule_at rules.now) clause.now.names) ≡ Some f) }
{
    for name in clause.names.as_slice() {
        if rule_at(rules, name.as_str()).is_none() {
            return Err(unknown_name(alloc, clause, name)?);
        }
    }
    Ok(())
}

// Looks for the first name in these clauses that is no rule's.
pub(crate) fn check_all_known<'p>(
    alloc: Global,
    rules: &BTreeMap<&'p str, &'p RulePart>,
    orders: &[Clause],
) -> Result<(), FlowFault>
    ensures ok { OnOk result (stranger (rule_at rules.now) orders.now ≡ None) }
    ensures fault { IfErr result (λ f. f ≢ FlowFault.OutOfMemory → stranger (rule_at rules.now) orders.now ≡ Some f) }
{
    for clause in orders {
        check_known(alloc, rules, clause)?;
    }
    Ok(())
}

// Whether the name is one of these.
fn has(names: &[Text], name: &Text) -> bool
    ensures { result ≡ has names.now name.now }
{
    for other in names {
        if name.as_str() == other.as_str() {
            return true;
        }
    }
    false
}

// Whether the second of two names stands after the first place of the first.
fn has_before(a: &Text, b: &Text, names: &[Text]) -> bool
    ensures { result ≡ has_before a.now b.now names.now }
{
    for (at, name) in names.iter().enumerate() {
        if a.as_str() == name.as_str() {
            return has(&names[at + 1..], b);
        }
    }
    false
}

// Whether a clause has the second name after the first.
fn any_has_before(orders: &[Clause], b: &Text, a: &Text) -> bool
    ensures { result ≡ list_any (λ (c : Clause). has_before b.now a.now c.names) orders.now }
{
    for clause in orders {
        if has_before(b, a, clause.names.as_slice()) {
            return true;
        }
    }
    false
}

// Whether the second may not stand before the first.
fn is_against(orders: &[Clause], b: &Text, a: &Text) -> bool
    ensures { result ≡ is_against orders.now b.now a.now }
{
    a.as_str() == b.as_str() || any_has_before(orders, b, a)
}

// The first of the names before this one in its clause that may not stand there.
fn first_against<'c>(orders: &[Clause], before: &'c [Text], b: &Text) -> Option<&'c Text>
    ensures { (fault : Text → FlowFault) → first_as fault (against orders.now before.now b.now) ≡ option_map (λ a. fault a.now) result }
{
    for a in before {
        if is_against(orders, b, a) {
            return Some(a);
        }
    }
    None
}

// Looks for the first name in the clause that contradicts a clause. Each name is compared with all before it, and each two with all
// clauses. Clauses are few, and short: their names are rules', which is checked before, and the first that stands twice ends the
// search, so no more names are looked at in a clause than there are rules.
fn check_order(alloc: Global, orders: &[Clause], names: &[Text]) -> Result<(), FlowFault>
    ensures ok { OnOk result (contradiction_in orders.now [] names.now ≡ None) }
    ensures fault { IfErr result (λ f. f ≢ FlowFault.OutOfMemory → contradiction_in orders.now [] names.now ≡ Some f) }
{
    for (at, b) in names.iter().enumerate() {
        if let Some(a) = first_against(orders, &names[..at], b) {
            return Err(contradictory_order(alloc, a, b)?);
        }
    }
    Ok(())
}

// Looks for the first two names that these clauses have both ways round.
pub(crate) fn check_orders(alloc: Global, orders: &[Clause]) -> Result<(), FlowFault>
    ensures ok { OnOk result (contradiction orders.now orders.now ≡ None) }
    ensures fault { IfErr result (λ f. f ≢ FlowFault.OutOfMemory → contradiction orders.now orders.now ≡ Some f) }
{
    for clause in orders {
        check_order(alloc, orders, clause.names.as_slice())?;
    }
    Ok(())
}
