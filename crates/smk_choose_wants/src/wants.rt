//! What a job wants.

ghost use Rattle.std.specs.Prelude.{◌≡◌, ◌++◌, ◌∷◌, [], map, slice_get, Some, IfOk, OnOk};
ghost use Rattle.std.specs.List.{flat_map};
ghost use Rattle.smk_pattern.specs.Reading.{fill};
ghost use Rattle.smk_flow.specs.declared.rule.InPart.{InPart};
ghost use Rattle.smk_flow.specs.Flows.{Candidate, first_wants};
ghost use Rattle.smk_choose.specs.Told.{making as told_of};
ghost use Rattle.smk_chain.specs.Derive.{wants, gathered_in, gathered_files};
ghost use Rattle.smk_choose_wants.specs.Wants.{ArePlaces, candidate_of, folder_in, want_of};

use crate::gathering::{folder_from, gathered_in};
use crate::parts::part_at;
use crate::texts::{add_want, add_wants, all_filled};
use crate::{Places, Want};
use smk_base::{List, OutOfMemory};
use smk_chain::Listings;
use smk_choose::Making;
use smk_flow::{InPart, RulePart, Workflow};
use smk_pattern::Binding;
use std::alloc::Global;

// Adds the inputs that are written out.
fn add_inputs(
    alloc: Global,
    found: &mut List<Want>,
    inputs: &[InPart],
    binding: &Binding,
) -> Result<(), OutOfMemory>
    ensures { OnOk result (found.new ≡ found.old ++ map want_of (flat_map (λ (i : InPart). map (fill binding.now) i.texts) inputs.now)) }
{
    for input in inputs {
        let texts = all_filled(alloc, input.texts.as_slice(), binding)?;
        add_wants(alloc, found, texts.as_slice())?;
    }
    Ok(())
}

// Adds the directory that the item gathers from.
fn add_folder(
    alloc: Global,
    found: &mut List<Want>,
    flow: &Workflow,
    part: &RulePart,
    making: &Making,
    input: &InPart,
) -> Result<(), OutOfMemory>
    ensures { OnOk result (found.new ≡ found.old ++ map want_of (folder_in flow.now (candidate_of making.now part.now) input.now.gather)) }
{
    match &input.gather {
        None => Ok(()),
        Some(gather) => {
            add_want(alloc, found, folder_from(alloc, flow, making, gather)?)?;
            Ok(())
        }
    }
}

// Adds the directories that are gathered from.
fn add_folders(
    alloc: Global,
    found: &mut List<Want>,
    flow: &Workflow,
    part: &RulePart,
    making: &Making,
) -> Result<(), OutOfMemory>
    ensures { OnOk result (found.new
        ≡ found.old ++ map want_of (flat_map (λ (i : InPart). folder_in flow.now (candidate_of making.now part.now) i.gather) part.now.inputs)) }
{
    for input in part.inputs.as_slice() {
        add_folder(alloc, found, flow, part, making, input)?;
    }
    Ok(())
}

// Adds the files that are gathered.
fn add_files(
    alloc: Global,
    found: &mut List<Want>,
    flow: &Workflow,
    lists: &Listings,
    places: &Places,
    part: &RulePart,
    making: &Making,
) -> Result<(), OutOfMemory>
    requires { ArePlaces lists.now places.now }
    ensures { OnOk result (found.new
        ≡ found.old ++ map want_of (flat_map (λ (i : InPart). gathered_in flow.now lists.now (candidate_of making.now part.now) i.gather) part.now.inputs)) }
{
    for input in part.inputs.as_slice() {
        let texts = gathered_in(alloc, flow, lists, places, part, making, input)?;
        add_wants(alloc, found, texts.as_slice())?;
    }
    Ok(())
}

// What the job of this rule wants whatever the listings are.
#[tactic(auto, using(crate::proofs::Composed::first_are))]
fn first_with(
    alloc: Global,
    flow: &Workflow,
    part: &RulePart,
    making: &Making,
) -> Result<List<Want>, OutOfMemory>
    ensures { IfOk result (λ found. found ≡ map want_of (first_wants flow.now (candidate_of making.now part.now))) }
{
    let mut found = List::new(alloc);
    add_inputs(alloc, &mut found, part.inputs.as_slice(), &making.binding)?;
    add_folders(alloc, &mut found, flow, part, making)?;
    Ok(found)
}

// What the job of this rule wants.
#[tactic(auto, using(crate::proofs::Composed::wants_are))]
fn wants_with(
    alloc: Global,
    flow: &Workflow,
    lists: &Listings,
    places: &Places,
    part: &RulePart,
    making: &Making,
) -> Result<List<Want>, OutOfMemory>
    requires { ArePlaces lists.now places.now }
    ensures { IfOk result (λ found. found ≡ map want_of (wants flow.now lists.now (candidate_of making.now part.now))) }
{
    let mut found = first_with(alloc, flow, part, making)?;
    add_files(alloc, &mut found, flow, lists, places, part, making)?;
    Ok(found)
}

// The files that the job of this rule gathers.
fn files_with(
    alloc: Global,
    flow: &Workflow,
    lists: &Listings,
    places: &Places,
    part: &RulePart,
    making: &Making,
) -> Result<List<Want>, OutOfMemory>
    requires { ArePlaces lists.now places.now }
    ensures { IfOk result (λ found. found ≡ map want_of (gathered_files flow.now lists.now (candidate_of making.now part.now))) }
{
    let mut found = List::new(alloc);
    add_files(alloc, &mut found, flow, lists, places, part, making)?;
    Ok(found)
}

/// What the job of this rule and these values wants whatever the listings are, in order: its inputs that are written out, and the
/// directories that it gathers from. `OutOfMemory` as for `wants_of`.
pub fn first_wants_of(
    alloc: Global,
    flow: &Workflow,
    making: &Making,
) -> Result<List<Want>, OutOfMemory>
    ensures { (c : Candidate) → slice_get flow.now.rules c.rule ≡ Some c.part → making.now ≡ told_of c
        → IfOk result (λ found. found ≡ map want_of (first_wants flow.now c)) }
{
    match part_at(flow, making) {
        Some(part) => first_with(alloc, flow, part, making),
        None => Ok(List::new(alloc)),
    }
}

/// The files that the job of this rule and these values gathers from the directories whose listings are known. `OutOfMemory` as for
/// `wants_of`.
pub fn gathered_files_of(
    alloc: Global,
    flow: &Workflow,
    lists: &Listings,
    places: &Places,
    making: &Making,
) -> Result<List<Want>, OutOfMemory>
    requires places { ArePlaces lists.now places.now }
    ensures { (c : Candidate) → slice_get flow.now.rules c.rule ≡ Some c.part → making.now ≡ told_of c
        → IfOk result (λ found. found ≡ map want_of (gathered_files flow.now lists.now c)) }
{
    match part_at(flow, making) {
        Some(part) => files_with(alloc, flow, lists, places, part, making),
        None => Ok(List::new(alloc)),
    }
}

/// What the job of this rule and these values wants, in order: its inputs that are written out, the directories that it gathers from, and
/// the files that it gathers from those whose listings are known. `OutOfMemory` where there is no memory for them; so it answers too where a
/// text of the rule were no pattern, which a checked workflow doesn't have, though no clause says so.
pub fn wants_of(
    alloc: Global,
    flow: &Workflow,
    lists: &Listings,
    places: &Places,
    making: &Making,
) -> Result<List<Want>, OutOfMemory>
    requires places { ArePlaces lists.now places.now }
    ensures { (c : Candidate) → slice_get flow.now.rules c.rule ≡ Some c.part → making.now ≡ told_of c
        → IfOk result (λ found. found ≡ map want_of (wants flow.now lists.now c)) }
{
    match part_at(flow, making) {
        Some(part) => wants_with(alloc, flow, lists, places, part, making),
        None => Ok(List::new(alloc)),
    }
}
