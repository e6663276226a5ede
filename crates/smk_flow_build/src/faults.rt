//! Faults of rules, made.

ghost use Rattle.std.specs.Prelude.{◌≡◌, IfOk};
ghost use Rattle.smk_flow.specs.declared.fault.FlowFault.{FlowFault};

use smk_base::{OutOfMemory, PathText, Text};
use smk_flow::{Clause, FlowFault, RulePart};
use std::alloc::Global;

fn file_text(alloc: Global, file: &PathText) -> Result<Text, OutOfMemory>
    ensures { IfOk result (λ text. text ≡ file.now) }
{
    Text::of(alloc, file.as_str())
}

pub(crate) fn doubled_rule(alloc: Global, part: &RulePart) -> Result<FlowFault, OutOfMemory>
    ensures { IfOk result (λ fault. fault ≡ FlowFault.DoubledRule part.now.file part.now.line part.now.name) }
{
    Ok(FlowFault::DoubledRule {
        file: file_text(alloc, &part.file)?,
        line: part.line,
        name: part.name.copy(alloc)?,
    })
}

pub(crate) fn bad_pattern(
    alloc: Global,
    part: &RulePart,
    text: &str,
) -> Result<FlowFault, OutOfMemory>
    ensures { IfOk result (λ fault. fault ≡ FlowFault.BadPattern part.now.file part.now.line text.now) }
{
    Ok(FlowFault::BadPattern {
        file: file_text(alloc, &part.file)?,
        line: part.line,
        text: Text::of(alloc, text)?,
    })
}

pub(crate) fn bad_constraint(
    alloc: Global,
    part: &RulePart,
    name: Text,
) -> Result<FlowFault, OutOfMemory>
    ensures { IfOk result (λ fault. fault ≡ FlowFault.BadConstraint part.now.file part.now.line name) }
{
    Ok(FlowFault::BadConstraint {
        file: file_text(alloc, &part.file)?,
        line: part.line,
        name,
    })
}

pub(crate) fn unequal_wildcards(alloc: Global, part: &RulePart) -> Result<FlowFault, OutOfMemory>
    ensures { IfOk result (λ fault. fault ≡ FlowFault.UnequalWildcards part.now.file part.now.line part.now.name) }
{
    Ok(FlowFault::UnequalWildcards {
        file: file_text(alloc, &part.file)?,
        line: part.line,
        rule: part.name.copy(alloc)?,
    })
}

pub(crate) fn unknown_wildcard(
    alloc: Global,
    part: &RulePart,
    name: &str,
) -> Result<FlowFault, OutOfMemory>
    ensures { IfOk result (λ fault. fault ≡ FlowFault.UnknownWildcard part.now.file part.now.line part.now.name name.now) }
{
    Ok(FlowFault::UnknownWildcard {
        file: file_text(alloc, &part.file)?,
        line: part.line,
        rule: part.name.copy(alloc)?,
        name: Text::of(alloc, name)?,
    })
}

pub(crate) fn bad_flag(alloc: Global, part: &RulePart, word: &str) -> Result<FlowFault, OutOfMemory>
    ensures { IfOk result (λ fault. fault ≡ FlowFault.BadFlag part.now.file part.now.line part.now.name word.now) }
{
    Ok(FlowFault::BadFlag {
        file: file_text(alloc, &part.file)?,
        line: part.line,
        rule: part.name.copy(alloc)?,
        word: Text::of(alloc, word)?,
    })
}

pub(crate) fn unknown_name(
    alloc: Global,
    clause: &Clause,
    name: &Text,
) -> Result<FlowFault, OutOfMemory>
    ensures { IfOk result (λ fault. fault ≡ FlowFault.UnknownName clause.now.file clause.now.line name.now) }
{
    Ok(FlowFault::UnknownName {
        file: file_text(alloc, &clause.file)?,
        line: clause.line,
        name: name.copy(alloc)?,
    })
}

pub(crate) fn contradictory_order(
    alloc: Global,
    a: &Text,
    b: &Text,
) -> Result<FlowFault, OutOfMemory>
    ensures { IfOk result (λ fault. fault ≡ FlowFault.ContradictoryOrder a.now b.now) }
{
    Ok(FlowFault::ContradictoryOrder {
        a: a.copy(alloc)?,
        b: b.copy(alloc)?,
    })
}
