//! The names of rules.

ghost use Rattle.std.specs.Prelude.{◌≡◌, option_map, slice_get};
ghost use Rattle.smk_pattern.specs.Reading.{or_empty};
ghost use Rattle.smk_flow.specs.Flows.{rule_name};

use smk_flow::Workflow;

// The name of the rule at this place.
fn name_at(flow: &Workflow, number: u32) -> &str
    ensures { result.now ≡ or_empty (option_map (λ r. r.name) (slice_get flow.now.rules number)) }
{
    match flow.rules().as_slice().get(number as usize) {
        Some(rule) => rule.part.name.as_str(),
        None => "",
    }
}

/// The name of the rule with this number; nothing where there is none.
pub fn rule_name(flow: &Workflow, number: u32) -> &str
    ensures { result.now ≡ rule_name flow.now number }
{
    name_at(flow, number)
}
