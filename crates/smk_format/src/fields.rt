//! What the fields of a command stand for.

ghost use Rattle.std.specs.Prelude.{◌≡◌, ◌++◌, ◌∷◌, [], option_map, map, IfOk, OnOk, string_bytes, decimal, Some, None};
ghost use Rattle.std.specs.List.{flat_map};
ghost use Rattle.smk_pattern.specs.Searching.{now_of};
ghost use Rattle.smk_format.specs.Fields as spec;
ghost use Rattle.smk_format.specs.Commands.{spaced, shown};
ghost use Rattle.smk_format.specs.Found.{found_of, pick_of};

use crate::items::{Found, picked, picked_param};
use crate::picks::{Pick, first_len, pick_in};
use smk_base::{Amount, OutOfMemory, Pair};
use smk_flow::Job;
use std::alloc::{AllocError, Global};

// The value under the name.
fn value<'j>(pairs: &'j [Pair], name: &[u8]) -> Option<&'j str>
    ensures { option_map (λ v. v.now) result ≡ spec.value_in pairs.now name.now }
{
    for pair in pairs {
        if pair.name.as_str().as_bytes() == name {
            return Some(pair.value.as_str());
        }
    }
    None
}

// The number under the name.
fn count(amounts: &[Amount], name: &[u8]) -> Option<u64>
    ensures { result ≡ spec.count_in amounts.now name.now }
{
    for amount in amounts {
        if amount.name.as_str().as_bytes() == name {
            return Some(amount.count);
        }
    }
    None
}

// One value, where there is one.
fn one<'j>(alloc: Global, value: Option<&'j str>) -> Result<Found<'j>, OutOfMemory>
    ensures { IfOk result (λ found. found_of found ≡ option_map spec.single (option_map (λ v. v.now) value.entry)) }
{
    match value {
        Some(value) => {
            let mut values = Vec::new(alloc);
            values.push(value)?;
            Ok(Found::Words(values))
        }
        None => Ok(Found::Nothing),
    }
}

// The wildcard that the field asks for.
fn wildcard<'j>(alloc: Global, job: &'j Job, pick: Pick<'_>) -> Result<Found<'j>, OutOfMemory>
    ensures { IfOk result (λ found. found_of found ≡ spec.under_name (spec.value_in job.now.recipe.wildcards) (pick_of pick.entry)) }
{
    match pick {
        Pick::Named(name) => one(alloc, value(job.recipe.wildcards.as_slice(), name)),
        Pick::All | Pick::Place(_) | Pick::Strange => Ok(Found::Nothing),
    }
}

// The resource of this name.
fn resource_named<'j>(alloc: Global, job: &'j Job, name: &[u8]) -> Result<Found<'j>, OutOfMemory>
    ensures { IfOk result (λ found. found_of found ≡ option_map spec.single (spec.resource job.now name.now)) }
{
    match count(job.amounts.as_slice(), name) {
        Some(number) => Ok(Found::Number(number)),
        None => one(alloc, value(job.words.as_slice(), name)),
    }
}

// The resource that the field asks for.
fn resource<'j>(alloc: Global, job: &'j Job, pick: Pick<'_>) -> Result<Found<'j>, OutOfMemory>
    ensures { IfOk result (λ found. found_of found ≡ spec.under_name (spec.resource job.now) (pick_of pick.entry)) }
{
    match pick {
        Pick::Named(name) => resource_named(alloc, job, name),
        Pick::All | Pick::Place(_) | Pick::Strange => Ok(Found::Nothing),
    }
}

// What the first half of a field says, with this second half.
#[tactic(auto, unfolding(crate::specs::Fields::values_by))]
fn values_by<'j>(
    alloc: Global,
    job: &'j Job,
    first: &[u8],
    pick: Pick<'_>,
) -> Result<Found<'j>, OutOfMemory>
    ensures { IfOk result (λ found. found_of found ≡ spec.values_by job.now first.now (pick_of pick.entry)) }
{
    if first == b"input".as_slice() {
        picked(alloc, job.recipe.inputs.as_slice(), pick)
    } else if first == b"output".as_slice() {
        picked(alloc, job.recipe.outputs.as_slice(), pick)
    } else if first == b"params".as_slice() {
        picked_param(alloc, job.recipe.params.as_slice(), pick)
    } else if first == b"log".as_slice() {
        picked(alloc, job.logs.as_slice(), pick)
    } else if first == b"wildcards".as_slice() {
        wildcard(alloc, job, pick)
    } else if first == b"resources".as_slice() {
        resource(alloc, job, pick)
    } else {
        Ok(Found::Nothing)
    }
}

/// What the field stands for, which isn't `threads`.
pub(crate) fn values_of<'j>(
    alloc: Global,
    job: &'j Job,
    field: &[u8],
) -> Result<Found<'j>, OutOfMemory>
    ensures { IfOk result (λ found. found_of found ≡ spec.values_of job.now field.now) }
{
    let (first, half) = field.split_at(first_len(field));
    values_by(alloc, job, first, pick_in(half))
}

// Adds the texts that stand behind another.
fn push_later(text: &mut String, words: &[&str]) -> Result<(), AllocError>
    ensures { OnOk result (string_bytes text.new ≡ string_bytes text.old ++ flat_map (λ t. 32 ∷ t) (now_of words.now)) }
{
    for word in words {
        text.push_str(" ")?;
        text.push_str(word)?;
    }
    Ok(())
}

// Adds the texts, with a space between.
fn push_words(text: &mut String, words: &[&str]) -> Result<(), AllocError>
    ensures { OnOk result (string_bytes text.new ≡ string_bytes text.old ++ spaced (now_of words.now)) }
{
    if let Some((first, later)) = words.split_first() {
        text.push_str(first)?;
        push_later(text, later)?;
    }
    Ok(())
}

/// Adds a number.
pub(crate) fn push_number(text: &mut String, number: u64) -> Result<(), AllocError>
    ensures { OnOk result (string_bytes text.new ≡ string_bytes text.old ++ decimal number) }
{
    write!(text, "{number}")
}

/// Adds what the field stands for.
pub(crate) fn push_found(text: &mut String, found: &Found<'_>) -> Result<(), AllocError>
    ensures { OnOk result (string_bytes text.new ≡ string_bytes text.old ++ shown (found_of found.now)) }
{
    match found {
        Found::Nothing => Ok(()),
        Found::Number(number) => push_number(text, *number),
        Found::Words(words) => push_words(text, words),
    }
}
