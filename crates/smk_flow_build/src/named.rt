//! Rules by their names.

ghost use Rattle.std.specs.Prelude.{◌≡◌, ◌∷◌, ◌++◌, [], List, ℕ, false, is_some, option_map, IfOk, OnOk};
ghost use Rattle.smk_pattern.specs.Searching.{now_of};
ghost use Rattle.smk_flow.specs.Named.{rule_at};
ghost use Rattle.smk_flow.specs.declared.rule.RulePart.{RulePart};
ghost use Rattle.smk_flow.specs.Checks.{rule_in, wildcards_at};

use smk_base::OutOfMemory;
use smk_flow::RulePart;
use smk_flow::names::wildcards;
use std::alloc::Global;
use std::collections::BTreeMap;

// The rule of this name.
pub(crate) fn rule_at<'p>(
    rules: &BTreeMap<&'p str, &'p RulePart>,
    name: &str,
) -> Option<&'p RulePart>
    ensures { option_map (λ r. r.now) result ≡ rule_at rules.now name.now }
{
    match rules.get(name) {
        Some(part) => Some(*part),
        None => None,
    }
}

// The wildcards of the rule, where there is one.
pub(crate) fn wildcards_at(alloc: Global, part: Option<&RulePart>) -> Result<Vec<&str>, OutOfMemory>
    ensures { IfOk result (λ names. now_of names.items ≡ wildcards_at (option_map (λ r. r.now) part.entry)) }
{
    match part {
        None => Ok(Vec::new(alloc)),
        Some(part) => wildcards(alloc, part),
    }
}

// Whether there is a rule of this name.
pub(crate) fn has_rule<'p>(rules: &BTreeMap<&'p str, &'p RulePart>, name: &str) -> bool
    ensures { result ≡ is_some (rule_at rules.now name.now) }
{
    rule_at(rules, name).is_some()
}

// Adds the rule under its name, which no rule has.
pub(crate) fn add_rule<'p>(
    rules: &mut BTreeMap<&'p str, &'p RulePart>,
    part: &'p RulePart,
) -> Result<(), OutOfMemory>
    requires { is_some (rule_at rules.old part.now.name) ≡ false }
    ensures { OnOk result ((above : List RulePart) → ((q : List ℕ) → rule_at rules.old q ≡ rule_in above q)
        → (q : List ℕ) → rule_at rules.new q ≡ rule_in (above ++ part.now ∷ []) q) }
{
    rules.insert(part.name.as_str(), part)?;
    Ok(())
}
