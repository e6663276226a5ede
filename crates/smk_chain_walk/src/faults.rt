//! The faults of a walk.

ghost use Rattle.std.specs.Prelude.{◌≡◌, IfOk, Some};
ghost use Rattle.smk_flow.specs.Flows.{rule_name};
ghost use Rattle.smk_chain.specs.declared.fault.ChainFault.TheVariants as told;
ghost use Rattle.smk_chain_walk.specs.Stepping.{lack_fault};

use crate::parts::part_at;
use smk_base::{OutOfMemory, PathText, Text};
use smk_chain::ChainFault;
use smk_choose::Lack;
use smk_flow::Workflow;
use std::alloc::Global;

// The name of the rule with this number.
fn name_of(alloc: Global, flow: &Workflow, rule: u32) -> Result<Text, OutOfMemory>
    ensures { IfOk result (λ name. name ≡ rule_name flow.now rule) }
{
    match part_at(flow, rule) {
        Some(part) => part.name.copy(alloc),
        None => Text::of(alloc, ""),
    }
}

/// A job of this rule that makes the path wants something that isn't there.
pub(crate) fn no_input(
    alloc: Global,
    flow: &Workflow,
    path: &PathText,
    rule: u32,
    wanted: &Text,
) -> Result<ChainFault, OutOfMemory>
    ensures { IfOk result (λ fault. fault ≡ told.NoInput path.now (rule_name flow.now rule) wanted.now) }
{
    Ok(ChainFault::NoInput {
        path: path.copy(alloc)?,
        rule: name_of(alloc, flow, rule)?,
        wanted: wanted.copy(alloc)?,
    })
}

fn no_rule(alloc: Global, path: &PathText) -> Result<ChainFault, OutOfMemory>
    ensures { IfOk result (λ fault. fault ≡ told.NoRule path.now) }
{
    Ok(ChainFault::NoRule {
        path: path.copy(alloc)?,
    })
}

/// Nothing makes the path.
pub(crate) fn nothing(
    alloc: Global,
    flow: &Workflow,
    path: &PathText,
    lack: &Option<Lack>,
) -> Result<ChainFault, OutOfMemory>
    ensures { IfOk result (λ fault. fault ≡ lack_fault flow.now path.now lack.now) }
{
    match lack {
        Some(lack) => no_input(alloc, flow, path, lack.rule, &lack.wanted),
        None => no_rule(alloc, path),
    }
}

/// Neither of these rules is preferred for the path.
pub(crate) fn ambiguous(
    alloc: Global,
    flow: &Workflow,
    path: &PathText,
    one: u32,
    other: u32,
) -> Result<ChainFault, OutOfMemory>
    ensures { IfOk result (λ fault. fault ≡ told.Ambiguous path.now (rule_name flow.now one) (rule_name flow.now other)) }
{
    Ok(ChainFault::Ambiguous {
        path: path.copy(alloc)?,
        a: name_of(alloc, flow, one)?,
        b: name_of(alloc, flow, other)?,
    })
}

/// The path's directory is known, and doesn't have it.
pub(crate) fn missing(alloc: Global, path: &PathText) -> Result<ChainFault, OutOfMemory>
    ensures { IfOk result (λ fault. fault ≡ told.MissingMember path.now) }
{
    Ok(ChainFault::MissingMember {
        path: path.copy(alloc)?,
    })
}

/// The rule has no command.
pub(crate) fn no_command(
    alloc: Global,
    flow: &Workflow,
    rule: u32,
) -> Result<ChainFault, OutOfMemory>
    ensures { IfOk result (λ fault. fault ≡ told.NoCommand (rule_name flow.now rule)) }
{
    Ok(ChainFault::NoCommand {
        rule: name_of(alloc, flow, rule)?,
    })
}
