//! The items of a job's inputs, once it is known what is gathered.

ghost use Rattle.std.specs.Prelude.{◌≡◌, map, IfOk};
ghost use Rattle.smk_choose_wants.specs.Wants.{ArePlaces, candidate_of, item_with};

use crate::Places;
use crate::gathering::item_texts;
use crate::texts::paths_of;
use smk_base::{List, OutOfMemory};
use smk_chain::Listings;
use smk_choose::Making;
use smk_flow::{InPart, RulePart, Workflow};
use smk_world::Item;
use std::alloc::Global;

// The item with those of its texts that are paths.
fn item_with(
    alloc: Global,
    flow: &Workflow,
    lists: &Listings,
    places: &Places,
    part: &RulePart,
    making: &Making,
    input: &InPart,
) -> Result<Item, OutOfMemory>
    requires { ArePlaces lists.now places.now }
    ensures { IfOk result (λ made. made ≡ item_with flow.now lists.now (candidate_of making.now part.now) input.now) }
{
    let texts = item_texts(alloc, flow, lists, places, part, making, input)?;
    let paths = paths_of(alloc, texts.as_slice())?;
    let name = input.name.copy(alloc)?;
    Ok(Item { name, paths })
}

/// The items of the inputs. A text that is no path is left out.
pub(crate) fn items_with(
    alloc: Global,
    flow: &Workflow,
    lists: &Listings,
    places: &Places,
    part: &RulePart,
    making: &Making,
) -> Result<List<Item>, OutOfMemory>
    requires { ArePlaces lists.now places.now }
    ensures { IfOk result (λ made. made ≡ map (item_with flow.now lists.now (candidate_of making.now part.now)) part.now.inputs) }
{
    let mut made = List::new(alloc);
    for input in part.inputs.as_slice() {
        made.push(item_with(alloc, flow, lists, places, part, making, input)?)?;
    }
    Ok(made)
}
