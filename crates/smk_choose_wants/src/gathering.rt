//! The files that a job gathers.

ghost use Rattle.std.specs.Prelude.{◌≡◌, ◌++◌, ◌∷◌, [], map, IfOk, OnOk};
ghost use Rattle.std.specs.List.{filter_map};
ghost use Rattle.smk_pattern.specs.Reading.{shape_of};
ghost use Rattle.smk_flow.specs.Flows.{folder_from};
ghost use Rattle.smk_choose.specs.Readings.{bound_by};
ghost use Rattle.smk_chain.specs.Derive.{item_paths, gathered_in, gathered};
ghost use Rattle.smk_choose_wants.specs.Wants.{ArePlaces, candidate_of, gathered_one, wanted_by};

use crate::Places;
use crate::texts::{all_filled, filled, filled_by, pattern_of};
use smk_base::{Copied, List, OutOfMemory, Pair, PathText, Text};
use smk_chain::Listings;
use smk_choose::{Making, by_name, gathered_from};
use smk_flow::{GatherPart, InPart, RulePart, Workflow};
use smk_pattern::{Binding, Pattern, fits};
use std::alloc::Global;

// The patterns of what is gathered.
#[derive(Drop)]
struct Patterns {
    listed: Pattern,
    wanted: Pattern,
}

// The binding of the file by the pattern, by name.
fn bound_by(
    alloc: Global,
    pattern: &Pattern,
    file: &PathText,
) -> Result<Option<Binding>, OutOfMemory>
    ensures { IfOk result (λ found. found ≡ bound_by file.now pattern.now) }
{
    match fits(alloc, pattern, file)? {
        Some(binding) => Ok(Some(by_name(alloc, binding)?)),
        None => Ok(None),
    }
}

// The pairs of both.
fn both(alloc: Global, first: Binding, more: &[Pair]) -> Result<Binding, OutOfMemory>
    ensures { IfOk result (λ made. made ≡ first ++ more.now) }
{
    let mut made = first;
    for pair in more {
        made.push(pair.copied(alloc)?)?;
    }
    Ok(made)
}

// What is wanted for the file of the directory, where it is one of those that are listed.
fn wanted_for(
    alloc: Global,
    patterns: &Patterns,
    binding: &Binding,
    file: &PathText,
) -> Result<Option<Text>, OutOfMemory>
    ensures { IfOk result (λ made. made ≡ wanted_by binding.now patterns.now.listed patterns.now.wanted file.now) }
{
    match bound_by(alloc, &patterns.listed, file)? {
        Some(bound) => {
            let whole = both(alloc, bound, binding.as_slice())?;
            Ok(Some(filled_by(alloc, &patterns.wanted, &whole)?))
        }
        None => Ok(None),
    }
}

// Adds what is wanted for the file.
fn add_file(
    alloc: Global,
    made: &mut List<Text>,
    patterns: &Patterns,
    binding: &Binding,
    file: &PathText,
) -> Result<(), OutOfMemory>
    ensures { OnOk result (made.new ≡ made.old ++ filter_map (wanted_by binding.now patterns.now.listed patterns.now.wanted) (file.now ∷ [])) }
{
    match wanted_for(alloc, patterns, binding, file)? {
        Some(text) => {
            made.push(text)?;
            Ok(())
        }
        None => Ok(()),
    }
}

// What is wanted for the files.
fn wanted_for_all(
    alloc: Global,
    patterns: &Patterns,
    binding: &Binding,
    files: &[PathText],
) -> Result<List<Text>, OutOfMemory>
    ensures { IfOk result (λ made. made ≡ filter_map (wanted_by binding.now patterns.now.listed patterns.now.wanted) files.now) }
{
    let mut made = List::new(alloc);
    for file in files {
        add_file(alloc, &mut made, patterns, binding, file)?;
    }
    Ok(made)
}

// The patterns of what is gathered. Constraints are compiled here, so it is called where there are files.
fn patterns_of(alloc: Global, part: &RulePart, gather: &GatherPart) -> Result<Patterns, OutOfMemory>
    ensures listed { IfOk result (λ made. made.listed ≡ shape_of part.now.limits gather.now.listed) }
    ensures wanted { IfOk result (λ made. made.wanted ≡ shape_of [] gather.now.wanted) }
{
    let listed = pattern_of(alloc, gather.listed.as_str(), &part.limits)?;
    let wanted = pattern_of(alloc, gather.wanted.as_str(), &List::new(alloc))?;
    Ok(Patterns { listed, wanted })
}

// The files that are gathered of these.
#[tactic(auto, using(crate::proofs::Composed::all_same))]
fn gathered_of(
    alloc: Global,
    part: &RulePart,
    making: &Making,
    gather: &GatherPart,
    files: &[PathText],
) -> Result<List<Text>, OutOfMemory>
    ensures { IfOk result (λ made. made ≡ filter_map (gathered_one (candidate_of making.now part.now) gather.now) files.now) }
{
    if files.is_empty() {
        return Ok(List::new(alloc));
    }
    let patterns = patterns_of(alloc, part, gather)?;
    let made = wanted_for_all(alloc, &patterns, &making.binding, files)?;
    Ok(made)
}

/// The directory that is gathered from.
pub(crate) fn folder_from(
    alloc: Global,
    flow: &Workflow,
    making: &Making,
    gather: &GatherPart,
) -> Result<Text, OutOfMemory>
    ensures { IfOk result (λ made. made ≡ folder_from flow.now making.now.binding gather.now.checkpoint) }
{
    filled(
        alloc,
        gathered_from(flow, gather.checkpoint.as_str()),
        &making.binding,
    )
}

// The files that are gathered by this, in the order of the listing.
fn gathered(
    alloc: Global,
    flow: &Workflow,
    lists: &Listings,
    places: &Places,
    part: &RulePart,
    making: &Making,
    gather: &GatherPart,
) -> Result<List<Text>, OutOfMemory>
    requires { ArePlaces lists.now places.now }
    ensures { IfOk result (λ made. made
        ≡ gathered lists.now (candidate_of making.now part.now) (folder_from flow.now making.now.binding gather.now.checkpoint) gather.now) }
{
    let folder = folder_from(alloc, flow, making, gather)?;
    let files = places.files(lists, folder.as_str());
    let made = gathered_of(alloc, part, making, gather, files)?;
    Ok(made)
}

/// The files that the item gathers.
pub(crate) fn gathered_in(
    alloc: Global,
    flow: &Workflow,
    lists: &Listings,
    places: &Places,
    part: &RulePart,
    making: &Making,
    input: &InPart,
) -> Result<List<Text>, OutOfMemory>
    requires { ArePlaces lists.now places.now }
    ensures { IfOk result (λ made. made ≡ gathered_in flow.now lists.now (candidate_of making.now part.now) input.now.gather) }
{
    match &input.gather {
        None => Ok(List::new(alloc)),
        Some(gather) => gathered(alloc, flow, lists, places, part, making, gather),
    }
}

/// The texts of an item: those that are written out, or the files that it gathers.
pub(crate) fn item_texts(
    alloc: Global,
    flow: &Workflow,
    lists: &Listings,
    places: &Places,
    part: &RulePart,
    making: &Making,
    input: &InPart,
) -> Result<List<Text>, OutOfMemory>
    requires { ArePlaces lists.now places.now }
    ensures { IfOk result (λ made. made ≡ item_paths flow.now lists.now (candidate_of making.now part.now) input.now.texts input.now.gather) }
{
    match &input.gather {
        None => all_filled(alloc, input.texts.as_slice(), &making.binding),
        Some(gather) => gathered(alloc, flow, lists, places, part, making, gather),
    }
}
