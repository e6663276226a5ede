//! The texts of a rule, read as patterns.

ghost use Rattle.std.specs.Prelude.{◌≡◌, ◌≢◌, ◌++◌, ◌∷◌, [], map, IfOk, IfErr, OnOk};
ghost use Rattle.std.specs.List.{flat_map};
ghost use Rattle.smk_pattern.specs.Reading.{shape_of};
ghost use Rattle.smk_pattern.specs.Searching.{now_of};
ghost use Rattle.smk_flow.specs.declared.fault.FlowFault.{FlowFault};
ghost use Rattle.smk_flow.specs.Checks.{Written, limited, bare, in_texts, out_texts, texts_of, IsRead, IsUnread, AreRead, AreUnread};

use crate::faults::{bad_constraint, bad_pattern};
use smk_base::{List, Pair};
use smk_flow::texts::{add_texts, out_texts};
use smk_flow::{FlowFault, GatherPart, InPart, Patterns, RulePart};
use smk_pattern::{Limits, Pattern, PatternFault, has_no_constraint};
use std::alloc::Global;

// The text as a pattern for whose names the rule's constraints count.
fn read_limited(
    alloc: Global,
    part: &RulePart,
    text: &str,
    shared: &mut Limits,
) -> Result<Pattern, FlowFault>
    ensures shape { IfOk result (λ p. p ≡ shape_of part.now.limits text.now) }
    ensures read { OnOk result (IsRead part.now.limits (limited text.now)) }
    ensures unread { IfErr result (λ f. f ≢ FlowFault.OutOfMemory → IsUnread part.now (limited text.now) f) }
{
    match Pattern::read_sharing(alloc, text, &part.limits, shared) {
        Ok(pattern) => Ok(pattern),
        Err(PatternFault::BadPattern) => Err(bad_pattern(alloc, part, text)?),
        Err(PatternFault::BadConstraint(name)) => Err(bad_constraint(alloc, part, name)?),
        Err(PatternFault::OutOfMemory) => Err(FlowFault::OutOfMemory),
    }
}

// The text as a pattern in which no constraint stands.
fn read_bare(
    alloc: Global,
    part: &RulePart,
    text: &str,
    shared: &mut Limits,
) -> Result<Pattern, FlowFault>
    ensures shape { IfOk result (λ p. p ≡ shape_of [] text.now) }
    ensures read { OnOk result (IsRead part.now.limits (bare text.now)) }
    ensures unread { IfErr result (λ f. f ≢ FlowFault.OutOfMemory → IsUnread part.now (bare text.now) f) }
{
    if !has_no_constraint(alloc, text)? {
        return Err(bad_pattern(alloc, part, text)?);
    }
    let none: List<Pair> = List::new(alloc);
    match Pattern::read_sharing(alloc, text, &none, shared) {
        Ok(pattern) => Ok(pattern),
        Err(PatternFault::BadPattern) => Err(bad_pattern(alloc, part, text)?),
        Err(PatternFault::BadConstraint(_)) => Err(bad_pattern(alloc, part, text)?),
        Err(PatternFault::OutOfMemory) => Err(FlowFault::OutOfMemory),
    }
}

// The texts as patterns for whose names the rule's constraints count.
fn read_all_limited(
    alloc: Global,
    part: &RulePart,
    texts: &[&str],
    shared: &mut Limits,
) -> Result<List<Pattern>, FlowFault>
    ensures shapes { IfOk result (λ ps. ps ≡ map (shape_of part.now.limits) (now_of texts.now)) }
    ensures read { OnOk result (AreRead part.now.limits (map limited (now_of texts.now))) }
    ensures unread { IfErr result (λ f. f ≢ FlowFault.OutOfMemory → AreUnread part.now (map limited (now_of texts.now)) f) }
{
    let mut patterns = List::new(alloc);
    for text in texts {
        patterns.push(read_limited(alloc, part, text, shared)?)?;
    }
    Ok(patterns)
}

// The texts as patterns in which no constraint stands.
fn read_all_bare(
    alloc: Global,
    part: &RulePart,
    texts: &[&str],
    shared: &mut Limits,
) -> Result<List<Pattern>, FlowFault>
    ensures shapes { IfOk result (λ ps. ps ≡ map (shape_of []) (now_of texts.now)) }
    ensures read { OnOk result (AreRead part.now.limits (map bare (now_of texts.now))) }
    ensures unread { IfErr result (λ f. f ≢ FlowFault.OutOfMemory → AreUnread part.now (map bare (now_of texts.now)) f) }
{
    let mut patterns = List::new(alloc);
    for text in texts {
        patterns.push(read_bare(alloc, part, text, shared)?)?;
    }
    Ok(patterns)
}

// Reads what is listed and what is wanted.
fn read_gather(
    alloc: Global,
    part: &RulePart,
    gather: &GatherPart,
    shared: &mut Limits,
) -> Result<(), FlowFault>
    ensures read { OnOk result (AreRead part.now.limits (limited gather.now.listed ∷ bare gather.now.wanted ∷ [])) }
    ensures unread { IfErr result (λ f. f ≢ FlowFault.OutOfMemory
        → AreUnread part.now (limited gather.now.listed ∷ bare gather.now.wanted ∷ []) f) }
{
    let _listed = read_limited(alloc, part, gather.listed.as_str(), shared)?;
    let _wanted = read_bare(alloc, part, gather.wanted.as_str(), shared)?;
    Ok(())
}

// Reads the texts of an item of inputs.
#[tactic(auto, using(crate::proofs::TextsRead::read_both, crate::proofs::TextsRead::unread_first, crate::proofs::TextsRead::unread_later))]
fn read_input(
    alloc: Global,
    part: &RulePart,
    item: &InPart,
    shared: &mut Limits,
) -> Result<(), FlowFault>
    ensures read { OnOk result (AreRead part.now.limits (in_texts item.now)) }
    ensures unread { IfErr result (λ f. f ≢ FlowFault.OutOfMemory → AreUnread part.now (in_texts item.now) f) }
{
    let mut texts = Vec::new(alloc);
    add_texts(&mut texts, item.texts.as_slice())?;
    let _patterns = read_all_bare(alloc, part, &texts, shared)?;
    match &item.gather {
        None => Ok(()),
        Some(gather) => read_gather(alloc, part, gather, shared),
    }
}

// Reads the texts of the inputs.
#[tactic(auto)]
fn read_inputs(
    alloc: Global,
    part: &RulePart,
    inputs: &[InPart],
    shared: &mut Limits,
) -> Result<(), FlowFault>
    ensures read { OnOk result (AreRead part.now.limits (flat_map in_texts inputs.now)) }
    ensures unread { IfErr result (λ f. f ≢ FlowFault.OutOfMemory → AreUnread part.now (flat_map in_texts inputs.now) f) }
{
    for item in inputs {
        match read_input(alloc, part, item, shared) {
            Ok(()) => {}
            Err(fault) => return Err(fault),
        }
    }
    Ok(())
}

// Reads the texts of the outputs.
fn read_outputs(
    alloc: Global,
    part: &RulePart,
    shared: &mut Limits,
) -> Result<List<Pattern>, FlowFault>
    ensures shapes { IfOk result (λ ps. ps ≡ map (shape_of part.now.limits) (out_texts part.now)) }
    ensures read { OnOk result (AreRead part.now.limits (map limited (out_texts part.now))) }
    ensures unread { IfErr result (λ f. f ≢ FlowFault.OutOfMemory → AreUnread part.now (map limited (out_texts part.now)) f) }
{
    let texts = out_texts(alloc, part)?;
    read_all_limited(alloc, part, &texts, shared)
}

// Reads the texts of the logs.
fn read_logs(
    alloc: Global,
    part: &RulePart,
    shared: &mut Limits,
) -> Result<List<Pattern>, FlowFault>
    ensures shapes { IfOk result (λ ps. ps ≡ map (shape_of []) part.now.logs) }
    ensures read { OnOk result (AreRead part.now.limits (map bare part.now.logs)) }
    ensures unread { IfErr result (λ f. f ≢ FlowFault.OutOfMemory → AreUnread part.now (map bare part.now.logs) f) }
{
    let mut texts = Vec::new(alloc);
    add_texts(&mut texts, part.logs.as_slice())?;
    read_all_bare(alloc, part, &texts, shared)
}

/// Reads the texts of a rule: of its outputs, its logs and its inputs. The patterns of the inputs aren't kept.
#[tactic(auto, using(crate::proofs::TextsRead::read_both, crate::proofs::TextsRead::unread_first, crate::proofs::TextsRead::unread_later))]
pub(crate) fn read_texts(
    alloc: Global,
    part: &RulePart,
    shared: &mut Limits,
) -> Result<Patterns, FlowFault>
    ensures outputs { IfOk result (λ ps. ps.outputs ≡ map (shape_of part.now.limits) (out_texts part.now)) }
    ensures logs { IfOk result (λ ps. ps.logs ≡ map (shape_of []) part.now.logs) }
    ensures read { OnOk result (AreRead part.now.limits (texts_of part.now)) }
    ensures unread { IfErr result (λ f. f ≢ FlowFault.OutOfMemory → AreUnread part.now (texts_of part.now) f) }
{
    let outputs = read_outputs(alloc, part, shared)?;
    let logs = read_logs(alloc, part, shared)?;
    match read_inputs(alloc, part, part.inputs.as_slice(), shared) {
        Ok(()) => Ok(Patterns { outputs, logs }),
        Err(fault) => Err(fault),
    }
}
