//! Items with names and values, and which values a field asks for.

ghost use Rattle.std.specs.Prelude.{◌≡◌, ◌++◌, ◌∷◌, [], List as Items, Option, option_map, map, slice_get, IfOk, OnOk};
ghost use Rattle.smk_pattern.specs.Searching.{now_of};
ghost use Rattle.smk_world.specs.declared.recipe.Values.{Values as Shape};
ghost use Rattle.smk_format.specs.Fields as spec;
ghost use Rattle.smk_format.specs.Found.{found_of, pick_of};

use crate::picks::Pick;
use smk_base::{OutOfMemory, PathText};
use smk_world::{Item, OutItem, Values};
use std::alloc::Global;

/// What a field stands for.
#[derive(Drop)]
pub(crate) enum Found<'j> {
    Nothing,
    Number(u64),
    Words(Vec<&'j str>),
}

/// An item with a name, which may be empty, and values.
pub(crate) trait Valued {
    ghost shape: { Self → Shape };

    fn name(&self) -> &str
        ensures { result.now ≡ (shape self.now).name };

    /// Adds the values.
    fn add_values<'j>(&'j self, values: &mut Vec<&'j str>) -> Result<(), OutOfMemory>
        ensures { OnOk result (now_of values.new.items ≡ now_of values.old.items ++ (shape self.now).values) };
}

impl Valued for Item {
    ghost shape = { spec.input_values };

    fn name(&self) -> &str {
        self.name.as_str()
    }

    fn add_values<'j>(&'j self, values: &mut Vec<&'j str>) -> Result<(), OutOfMemory> {
        for path in self.paths.as_slice() {
            values.push(path.as_str())?;
        }
        Ok(())
    }
}

impl Valued for OutItem {
    ghost shape = { spec.output_values };

    fn name(&self) -> &str {
        self.name.as_str()
    }

    fn add_values<'j>(&'j self, values: &mut Vec<&'j str>) -> Result<(), OutOfMemory> {
        for out in self.outs.as_slice() {
            values.push(out.path.as_str())?;
        }
        Ok(())
    }
}

impl Valued for Values {
    ghost shape = { λ item. item };

    fn name(&self) -> &str {
        self.name.as_str()
    }

    fn add_values<'j>(&'j self, values: &mut Vec<&'j str>) -> Result<(), OutOfMemory> {
        for value in self.values.as_slice() {
            values.push(value.as_str())?;
        }
        Ok(())
    }
}

/// A log.
impl Valued for PathText {
    ghost shape = { spec.log_values };

    fn name(&self) -> &str {
        ""
    }

    fn add_values<'j>(&'j self, values: &mut Vec<&'j str>) -> Result<(), OutOfMemory> {
        values.push(self.as_str())?;
        Ok(())
    }
}

// All values of the items.
fn all_values<'j, V: Valued>(alloc: Global, items: &'j [V]) -> Result<Vec<&'j str>, OutOfMemory>
    ensures { IfOk result (λ values. now_of values.items ≡ spec.all_values (map V.shape items.now)) }
{
    let mut values = Vec::new(alloc);
    for item in items {
        item.add_values(&mut values)?;
    }
    Ok(values)
}

// The values of the item.
fn values_of<'j, V: Valued>(alloc: Global, item: Option<&'j V>) -> Result<Found<'j>, OutOfMemory>
    ensures { IfOk result (λ found. found_of found ≡ option_map (λ i. (V.shape i.now).values) item.entry) }
{
    match item {
        Some(item) => {
            let mut values = Vec::new(alloc);
            item.add_values(&mut values)?;
            Ok(Found::Words(values))
        }
        None => Ok(Found::Nothing),
    }
}

// The first item with this name.
fn with_name<'j, V: Valued>(items: &'j [V], name: &[u8]) -> Option<&'j V>
    ensures { option_map (λ i. V.shape i.now) result ≡ spec.item_in (map V.shape items.now) name.now }
{
    for item in items {
        if item.name().as_bytes() == name {
            return Some(item);
        }
    }
    None
}

// The values of the first item with this name, which isn't the empty one.
fn named<'j, V: Valued>(
    alloc: Global,
    items: &'j [V],
    name: &[u8],
) -> Result<Found<'j>, OutOfMemory>
    ensures { IfOk result (λ found. found_of found ≡ spec.named (map V.shape items.now) name.now) }
{
    match name {
        [] => Ok(Found::Nothing),
        _ => values_of(alloc, with_name(items, name)),
    }
}

// The value at this place.
fn one_at<'j>(alloc: Global, values: &[&'j str], place: u64) -> Result<Found<'j>, OutOfMemory>
    ensures { IfOk result (λ found. found_of found ≡ option_map spec.single (slice_get (now_of values.now) place)) }
{
    match values.get(place as usize) {
        Some(value) => {
            let mut values = Vec::new(alloc);
            values.push(*value)?;
            Ok(Found::Words(values))
        }
        None => Ok(Found::Nothing),
    }
}

/// The values that the field asks for, a place being that of a value.
pub(crate) fn picked<'j, V: Valued>(
    alloc: Global,
    items: &'j [V],
    pick: Pick<'_>,
) -> Result<Found<'j>, OutOfMemory>
    ensures { IfOk result (λ found. found_of found ≡ spec.picked (map V.shape items.now) (pick_of pick.entry)) }
{
    match pick {
        Pick::All => Ok(Found::Words(all_values(alloc, items)?)),
        Pick::Named(name) => named(alloc, items, name),
        Pick::Place(place) => one_at(alloc, &all_values(alloc, items)?, place),
        Pick::Strange => Ok(Found::Nothing),
    }
}

/// The values that the field asks for, a place being that of an item.
pub(crate) fn picked_param<'j>(
    alloc: Global,
    items: &'j [Values],
    pick: Pick<'_>,
) -> Result<Found<'j>, OutOfMemory>
    ensures { IfOk result (λ found. found_of found ≡ spec.picked_param items.now (pick_of pick.entry)) }
{
    match pick {
        Pick::All => Ok(Found::Words(all_values(alloc, items)?)),
        Pick::Named(name) => named(alloc, items, name),
        Pick::Place(place) => values_of(alloc, items.get(place as usize)),
        Pick::Strange => Ok(Found::Nothing),
    }
}
