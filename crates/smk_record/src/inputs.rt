//! Inputs, each path with its stamp.

ghost use Rattle.std.specs.Prelude.{◌≡◌, ◌++◌, drop, length, OnOk, string_bytes};
ghost use Rattle.smk_record.specs.Spelling.{num, stamped_paths, items};
ghost use Rattle.smk_record.specs.Reading.{Gives, each_in, stamped_in, item_in, inputs_in, alone, all};

use crate::bytes::number;
use crate::record::Stamp;
use crate::spelled::{Spelled, push_number};
use crate::stop::Stop;
use smk_base::{List, OutOfMemory, PathText};
use smk_world::Item;
use std::alloc::{AllocError, Global};

// A path with its stamp.
#[tactic(auto, unfolding(crate::specs::Reading::stamped_in))]
fn stamped(alloc: Global, bytes: &[u8]) -> Result<((PathText, Stamp), &[u8]), Stop>
    ensures { Gives (λ x. (x.0, x.1.now)) result (stamped_in bytes.now) }
{
    let (path, rest) = Spelled::read(alloc, bytes)?;
    let (stamp, rest) = Stamp::read(alloc, rest)?;
    Ok(((path, stamp), rest))
}

// So many paths, each with its stamp.
fn stamped_of(
    alloc: Global,
    count: u64,
    bytes: &[u8],
) -> Result<((List<PathText>, List<Stamp>), &[u8]), Stop>
    ensures { Gives (λ x. (x.0, x.1.now)) result (each_in alone stamped_in count bytes.now) }
{
    let mut paths = List::new(alloc);
    let mut stamps = List::new(alloc);
    let mut rest = bytes;
    for _ in 0..count {
        let ((path, stamp), after) = stamped(alloc, rest)?;
        paths.push(path)?;
        stamps.push(stamp)?;
        rest = after;
    }
    Ok(((paths, stamps), rest))
}

// An item, and the stamps of its paths.
#[tactic(auto, unfolding(crate::specs::Reading::item_in))]
fn item(alloc: Global, bytes: &[u8]) -> Result<((Item, List<Stamp>), &[u8]), Stop>
    ensures { Gives (λ x. (x.0, x.1.now)) result (item_in bytes.now) }
{
    let (name, rest) = Spelled::read(alloc, bytes)?;
    let (count, rest) = number(b'\n', rest)?;
    let ((paths, stamps), rest) = stamped_of(alloc, count, rest)?;
    Ok(((Item { name, paths }, stamps), rest))
}

// Adds the stamps at the end.
fn append(stamps: &mut List<Stamp>, more: &[Stamp]) -> Result<(), OutOfMemory>
    ensures { OnOk result (stamps.new ≡ stamps.old ++ more.now) }
{
    for stamp in more {
        stamps.push(*stamp)?;
    }
    Ok(())
}

// So many items, and the stamps of all their paths.
fn items_of(
    alloc: Global,
    count: u64,
    bytes: &[u8],
) -> Result<((List<Item>, List<Stamp>), &[u8]), Stop>
    ensures { Gives (λ x. (x.0, x.1.now)) result (each_in all item_in count bytes.now) }
{
    let mut items = List::new(alloc);
    let mut stamps = List::new(alloc);
    let mut rest = bytes;
    for _ in 0..count {
        let ((item, more), after) = item(alloc, rest)?;
        items.push(item)?;
        append(&mut stamps, more.as_slice())?;
        rest = after;
    }
    Ok(((items, stamps), rest))
}

/// The inputs at the front, and the stamps of their paths.
#[tactic(auto, unfolding(crate::specs::Reading::inputs_in))]
pub(crate) fn inputs(
    alloc: Global,
    bytes: &[u8],
) -> Result<((List<Item>, List<Stamp>), &[u8]), Stop>
    ensures { Gives (λ x. (x.0, x.1.now)) result (inputs_in bytes.now) }
{
    let (count, rest) = number(b'\n', bytes)?;
    items_of(alloc, count, rest)
}

// The stamps behind as many of them; none where there are no more.
fn beyond(stamps: &[Stamp], count: usize) -> &[Stamp]
    ensures { result.now ≡ drop count stamps.now }
{
    if count < stamps.len() {
        return &stamps[count..];
    }
    &[]
}

// Adds each path with its stamp, as far as there are stamps.
fn push_stamped(text: &mut String, paths: &[PathText], stamps: &[Stamp]) -> Result<(), AllocError>
    ensures { OnOk result (string_bytes text.new ≡ string_bytes text.old ++ stamped_paths paths.now stamps.now) }
{
    for (path, stamp) in paths.iter().zip(stamps) {
        path.push_to(text)?;
        stamp.push_to(text)?;
    }
    Ok(())
}

/// Adds the inputs, each path with its stamp.
pub(crate) fn push_inputs(
    text: &mut String,
    inputs: &[Item],
    stamps: &[Stamp],
) -> Result<(), AllocError>
    ensures { OnOk result (string_bytes text.new ≡ string_bytes text.old ++ (num (length inputs.now) ++ items inputs.now stamps.now)) }
{
    push_number(text, inputs.len() as u64)?;
    let mut rest = stamps;
    for item in inputs {
        item.name.push_to(text)?;
        let paths = item.paths.as_slice();
        push_number(text, paths.len() as u64)?;
        push_stamped(text, paths, rest)?;
        rest = beyond(rest, paths.len());
    }
    Ok(())
}
