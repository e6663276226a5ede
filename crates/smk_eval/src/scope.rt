//! What names stand for after some statements.

ghost use Rattle.std.specs.Prelude.{◌≡◌, ◌≢◌, option_map};
ghost use Rattle.smk_eval_values.specs.declared.fault.ValueFault.{ValueFault};
ghost use Rattle.smk_eval_values.specs.Values.{Tells};
ghost use Rattle.smk_eval_values.specs.Expressions.{known};
ghost use Rattle.smk_eval.specs.Statements.{outputs_in};
ghost use Rattle.smk_eval.specs.Kept.{kept};

use crate::config::config_value;
use crate::state::State;
use crate::values::copy;
use smk_base::{List, Text};
use smk_config::Config;
use smk_eval_rules::outputs_of;
use smk_eval_values::{Scope, Value, ValueFault};
use smk_flow::RulePart;
use smk_parse_tree::OutputPick;
use std::alloc::Global;

/// What the statements so far lead to, and the configuration.
#[derive(Clone, Copy)]
pub(crate) struct Known<'s, 'p> {
    pub(crate) state: &'s State<'p>,
    pub(crate) config: &'s Config,
}

// The fault that tells this name.
fn unknown(alloc: Global, name: &Text) -> ValueFault
    ensures { result ≢ ValueFault.OutOfMemory → result ≡ ValueFault.UnknownName name.now }
{
    match name.copy(alloc) {
        Ok(name) => ValueFault::UnknownName(name),
        Err(_) => ValueFault::OutOfMemory,
    }
}

// The value of a constant.
fn constant(alloc: Global, state: &State, name: &Text) -> Result<Value, ValueFault>
    ensures { Tells result (known name.now (kept state.now.constants name.now)) }
{
    match state.constants.get(name.as_str()) {
        Some(value) => Ok(copy(alloc, value)?),
        None => Err(unknown(alloc, name)),
    }
}

// The outputs of a rule, where it is one.
fn outputs(
    alloc: Global,
    name: &Text,
    part: Option<&RulePart>,
    pick: &OutputPick,
) -> Result<Value, ValueFault>
    ensures { Tells result (outputs_in name.now (option_map (λ r. r.now) part.entry) pick.now) }
{
    match part {
        Some(part) => outputs_of(alloc, part, pick),
        None => Err(unknown(alloc, name)),
    }
}

impl<'s, 'p> Scope for Known<'s, 'p> {
    ghost use Rattle.smk_config.specs.Settings.{members};
    ghost use Rattle.smk_eval.specs.Statements.{scope};
    ghost use Rattle.smk_eval.specs.Seen.{state_of};

    ghost seen = { λ known. scope (members known.config.now) (state_of known.state.now) };

    fn constant(&self, alloc: Global, name: &Text) -> Result<Value, ValueFault> {
        constant(alloc, self.state, name)
    }

    fn outputs(&self, alloc: Global, rule: &Text, pick: &OutputPick) -> Result<Value, ValueFault> {
        outputs(alloc, rule, self.state.rules.named(rule.as_str()), pick)
    }

    fn config(&self, alloc: Global, keys: &List<Text>) -> Result<Value, ValueFault> {
        config_value(alloc, self.config, keys)
    }
}
