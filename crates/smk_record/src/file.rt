//! Records as the bytes of a file.

ghost use Rattle.std.specs.Prelude.{◌≡◌, ◌↔◌, ◌^◌, ◌<◌, ◌&&◌, ◌++◌, length, IfOk, OnOk, IsTrue, string_bytes, Some};
ghost use Rattle.smk_record.specs.Records.{is_valid};
ghost use Rattle.smk_record.specs.Spelling.{spelling, first_line, head, list, member, IsReadAs};
ghost use Rattle.smk_record.specs.Reading.{Gives, recipe_in, format_in, fields_in, record_in, after_front};

use crate::bytes::number;
use crate::inputs::{inputs, push_inputs};
use crate::record::{Record, Stamp};
use crate::spelled::{Spelled, push_number};
use crate::stop::Stop;
use smk_base::{Bytes, List, OutOfMemory};
use smk_world::Recipe;
use std::alloc::{AllocError, Global};

// A recipe, and the stamps of its inputs.
#[tactic(auto, unfolding(crate::specs::Reading::recipe_in))]
fn recipe(alloc: Global, bytes: &[u8]) -> Result<((Recipe, List<Stamp>), &[u8]), Stop>
    ensures { Gives (λ x. (x.0, x.1.now)) result (recipe_in bytes.now) }
{
    let (template, rest) = Spelled::read(alloc, bytes)?;
    let (wildcards, rest) = Spelled::read(alloc, rest)?;
    let (params, rest) = Spelled::read(alloc, rest)?;
    let ((inputs, stamps), rest) = inputs(alloc, rest)?;
    let (outputs, rest) = Spelled::read(alloc, rest)?;
    let recipe = Recipe {
        template,
        wildcards,
        params,
        inputs,
        outputs,
    };
    Ok(((recipe, stamps), rest))
}

// What follows the front, which the bytes must begin with.
fn after_front<'a>(front: &[u8], bytes: &'a [u8]) -> Result<&'a [u8], Stop>
    ensures { Gives (λ rest. rest.now) result (after_front front.now bytes.now) }
{
    let mut left = front;
    let mut rest = bytes;
    while let [f, more @ ..] = left {
        match rest {
            [b, after @ ..] if *b == *f => {
                rest = after;
                left = more;
            }
            _ => return Err(Stop::Unread),
        }
    }
    Ok(rest)
}

// Adds the line that names the format.
fn push_first_line(text: &mut String, format: u8) -> Result<(), AllocError>
    ensures { OnOk result (string_bytes text.new ≡ string_bytes text.old ++ first_line format) }
{
    writeln!(text, "SMK{format}")
}

// Adds all but the members.
fn push_head(text: &mut String, kept: &Record) -> Result<(), AllocError>
    ensures { OnOk result (string_bytes text.new ≡ string_bytes text.old ++ head kept.now) }
{
    push_first_line(text, kept.format)?;
    kept.path.push_to(text)?;
    push_number(text, kept.made)?;
    kept.recipe.template.push_to(text)?;
    kept.recipe.wildcards.push_to(text)?;
    kept.recipe.params.push_to(text)?;
    push_inputs(text, kept.recipe.inputs.as_slice(), kept.stamps.as_slice())?;
    kept.recipe.outputs.push_to(text)
}

/// The bytes of the record. `OutOfMemory` where there is no memory for them.
pub fn write(alloc: Global, kept: &Record) -> Result<Bytes, OutOfMemory>
    ensures { IfOk result (λ bytes. bytes ≡ spelling kept.now) }
{
    let mut text = String::new(alloc);
    push_head(&mut text, kept)?;
    kept.members.push_to(&mut text)?;
    Bytes::of(alloc, text.as_bytes())
}

// A format that is read.
#[tactic(auto, unfolding(crate::specs::Reading::format_in))]
fn format(bytes: &[u8]) -> Result<(u8, &[u8]), Stop>
    ensures { Gives (λ x. (x.0, x.1.now)) result (format_in bytes.now) }
{
    let (number, rest) = number(b'\n', bytes)?;
    match number {
        1 => Ok((1, rest)),
        2 => Ok((2, rest)),
        _ => Err(Stop::Unread),
    }
}

// The record of which these are the fields, valid or not.
#[tactic(auto, unfolding(crate::specs::Reading::fields_in))]
fn fields(alloc: Global, bytes: &[u8]) -> Result<(Record, &[u8]), Stop>
    ensures { Gives (λ x. (x.0, x.1.now)) result (fields_in bytes.now) }
{
    let (format, rest) = format(bytes)?;
    let (path, rest) = Spelled::read(alloc, rest)?;
    let (made, rest) = number(b'\n', rest)?;
    let ((recipe, stamps), rest) = recipe(alloc, rest)?;
    let (members, rest) = Spelled::read(alloc, rest)?;
    let kept = Record {
        format,
        path,
        made,
        recipe,
        stamps,
        members,
    };
    Ok((kept, rest))
}

// The valid record of which these are all the bytes.
#[tactic(auto, unfolding(crate::specs::Reading::record_in))]
fn record(alloc: Global, bytes: &[u8]) -> Result<Record, Stop>
    ensures { Gives (λ kept. kept) result (record_in bytes.now) }
{
    let rest = after_front(b"SMK", bytes)?;
    let (kept, rest) = fields(alloc, rest)?;
    if rest.is_empty() && kept.is_valid() {
        Ok(kept)
    } else {
        Err(Stop::Unread)
    }
}

/// The record that the bytes spell. None exactly where they spell no valid record; `OutOfMemory` where there is no memory for the
/// record. The time grows with the bytes, and nothing is reserved for a length that they only claim.
pub fn read(alloc: Global, bytes: &[u8]) -> Result<Option<Record>, OutOfMemory>
    ensures { IfOk result (λ found. IsReadAs bytes.now found) }
{
    match record(alloc, bytes) {
        Ok(kept) => Ok(Some(kept)),
        Err(Stop::Unread) => Ok(None),
        Err(Stop::OutOfMemory) => Err(OutOfMemory),
    }
}
