//! The reasons of one job.

ghost use Rattle.std.specs.Prelude.{◌≡◌, ◌++◌, [], ◌||◌, IfOk, OnOk, if◌then◌else◌};
ghost use Rattle.std.specs.List.{list_any, flat_map, zip};
ghost use Rattle.smk_world.specs.World.{in_paths};
ghost use Rattle.smk_trigger.specs.Reasons.{lacks_record, has_bad_record, held, when, changes, changes_from, reasons_of};

use crate::kept::{first_record, has_bad_record, lacks_record};
use crate::same::{is_same_code, is_same_inputs, is_same_params};
use crate::updates::push_updates;
use crate::{JobFacts, Reason};
use smk_base::{List, OutOfMemory};
use smk_record::{Record, Stamp};
use smk_world::Recipe;
use std::alloc::Global;

// Adds the reason where it holds.
fn push_if(found: &mut List<Reason>, holds: bool, reason: Reason) -> Result<(), OutOfMemory>
    ensures { OnOk result (found.new ≡ found.old ++ when holds reason) }
{
    if !holds {
        return Ok(());
    }
    found.push(reason)?;
    Ok(())
}

// Whether one of them is true.
fn is_any(flags: &[bool]) -> bool
    ensures { result ≡ list_any (λ b. b) flags.now }
{
    for flag in flags {
        if *flag {
            return true;
        }
    }
    false
}

// Adds what differs from the record.
fn push_changes(
    alloc: Global,
    found: &mut List<Reason>,
    recipe: &Recipe,
    stamps: &[Option<Stamp>],
    earlier: &Record,
) -> Result<(), OutOfMemory>
    ensures { OnOk result (found.new ≡ found.old ++ changes recipe.now (zip (in_paths recipe.now) stamps.now) earlier.now) }
{
    let then = earlier.recipe();
    push_if(found, !is_same_code(recipe, then), Reason::Code)?;
    push_if(found, !is_same_params(recipe, then), Reason::Params)?;
    push_if(found, !is_same_inputs(recipe, then), Reason::Inputs)?;
    push_updates(alloc, found, recipe.inputs.as_slice(), stamps, earlier)?;
    Ok(())
}

// Adds what differs from the first record, if there is one, unless it isn't looked at.
fn push_changes_unless(
    alloc: Global,
    found: &mut List<Reason>,
    passed: bool,
    facts: &JobFacts,
) -> Result<(), OutOfMemory>
    ensures { OnOk result (found.new ≡ found.old ++ (if passed then []
        else changes_from facts.now.recipe (zip (in_paths facts.now.recipe) facts.now.stamps) (flat_map held facts.now.kept))) }
{
    if passed {
        return Ok(());
    }
    match first_record(facts.kept.as_slice()) {
        None => Ok(()),
        Some(record) => {
            push_changes(alloc, found, &facts.recipe, facts.stamps.as_slice(), record)?;
            Ok(())
        }
    }
}

/// The reasons of a job, but for the inputs whose jobs have to run. The time is near linear in the size of the facts.
///
/// `kept` and `marked` of the facts are about the outputs of the recipe, `stamps` about its inputs, each in order.
pub fn reasons(alloc: Global, facts: &JobFacts) -> Result<List<Reason>, OutOfMemory>
    ensures { IfOk result (λ found. found ≡ reasons_of facts.now) }
{
    let kept = facts.kept.as_slice();
    let lacks = lacks_record(kept);
    let bad = has_bad_record(kept);
    let mut found = List::new(alloc);
    push_if(&mut found, lacks, Reason::New)?;
    push_if(&mut found, is_any(facts.marked.as_slice()), Reason::Marked)?;
    push_if(&mut found, bad, Reason::BadRecord)?;
    push_changes_unless(alloc, &mut found, lacks || bad, facts)?;
    push_if(&mut found, facts.forced, Reason::Forced)?;
    Ok(found)
}
