//! Which of two rules is preferred.

ghost use Rattle.std.specs.Prelude.{◌≡◌};
ghost use Rattle.std.specs.List.{list_any};
ghost use Rattle.smk_pattern.specs.Reading.{has_wildcards};
ghost use Rattle.smk_flow.specs.declared.rule.FlaggedText.{FlaggedText};
ghost use Rattle.smk_flow.specs.declared.rule.OutPart.{OutPart};
ghost use Rattle.smk_flow.specs.declared.rule.RulePart.{RulePart};
ghost use Rattle.smk_flow.specs.Flows.{has_wildcards_in};
ghost use Rattle.smk_choose.specs.Choose.{has_before, orders, precedes};

use smk_base::Text;
use smk_flow::{Clause, FlaggedText, OutPart, RulePart, Workflow};

// Whether a wildcard stands in the text: a brace closes where one is open.
fn has_wildcards(text: &[u8]) -> bool
    ensures { result ≡ has_wildcards text.now }
{
    let mut depth: usize = 0;
    for byte in text {
        if *byte == b'{' {
            depth += 1;
        } else if *byte == b'}' {
            if depth == 1 {
                return true;
            }
            depth = depth.saturating_sub(1);
        }
    }
    false
}

// Whether one of these has a wildcard.
fn any_wildcards(outs: &[FlaggedText]) -> bool
    ensures { result ≡ list_any (λ (o : FlaggedText). has_wildcards o.text) outs.now }
{
    for out in outs {
        if has_wildcards(out.text.as_str().as_bytes()) {
            return true;
        }
    }
    false
}

// Whether an output of these items has a wildcard.
fn any_items_wildcards(items: &[OutPart]) -> bool
    ensures { result ≡ list_any (λ (i : OutPart). list_any (λ (o : FlaggedText). has_wildcards o.text) i.outs) items.now }
{
    for item in items {
        if any_wildcards(item.outs.as_slice()) {
            return true;
        }
    }
    false
}

// Whether an output of the rule has a wildcard.
fn rule_has_wildcards(part: &RulePart) -> bool
    ensures { result ≡ has_wildcards_in part.now }
{
    any_items_wildcards(part.outputs.as_slice())
}

// Whether the names have the first before the second.
fn has_before(a: &str, b: &str, names: &[Text]) -> bool
    ensures { result ≡ has_before a.now b.now names.now }
{
    let mut seen = false;
    for name in names {
        if seen && b == name.as_str() {
            return true;
        }
        seen |= a == name.as_str();
    }
    false
}

// Whether some clause has the first before the second. A workflow has few clauses, and each is gone over once.
fn any_orders(a: &str, b: &str, clauses: &[Clause]) -> bool
    ensures { result ≡ list_any (orders a.now b.now) clauses.now }
{
    for clause in clauses {
        if has_before(a, b, clause.names.as_slice()) {
            return true;
        }
    }
    false
}

/// Whether the first rule precedes the second: some clause has it before that one; or no clause has both, and only the second has
/// wildcards. Clauses aren't chained. It takes no memory.
pub(crate) fn part_precedes(flow: &Workflow, a: &RulePart, b: &RulePart) -> bool
    ensures { result ≡ precedes flow.now a.now b.now }
{
    let clauses = flow.orders().as_slice();
    any_orders(a.name.as_str(), b.name.as_str(), clauses)
        || (!any_orders(b.name.as_str(), a.name.as_str(), clauses)
            && (!rule_has_wildcards(a) && rule_has_wildcards(b)))
}
