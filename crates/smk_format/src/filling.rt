//! The command of a job.

ghost use Rattle.std.specs.Prelude.{◌≡◌, ◌++◌, ◌∷◌, [], ℕ, List, Option, Ok, Err, Some, None, IfOk, OnOk, string_bytes, true, is_some};
ghost use Rattle.smk_template.specs.Templates.{Field, symbols, braced};
ghost use Rattle.smk_format.specs.Fields as fields;
ghost use Rattle.smk_format.specs.Commands as spec;
ghost use Rattle.smk_template.specs.Symbols.{symbol_of};
ghost use Rattle.smk_format.specs.declared.fault.FormatFault.{FormatFault};

use crate::fault::FormatFault;
use crate::fields::{push_found, push_number, values_of};
use crate::items::Found;
use smk_base::{OutOfMemory, Text};
use smk_flow::Job;
use smk_template::{Symbol, first_brace, symbol_in};
use std::alloc::{AllocError, Global};

// The most bytes that a command may have.
const LIMIT: u64 = 120_000;

// Adds what the field stands for. Answers whether it stands for anything.
fn push_values(
    text: &mut String,
    alloc: Global,
    job: &Job,
    field: &[u8],
) -> Result<bool, OutOfMemory>
    ensures known { IfOk result (λ known. known ≡ is_some (fields.values_of job.now field.now)) }
    ensures filled { OnOk result (string_bytes text.new ≡ string_bytes text.old ++ spec.shown (fields.values_of job.now field.now)) }
{
    let found = values_of(alloc, job, field)?;
    push_found(text, &found)?;
    Ok(!matches!(&found, Found::Nothing))
}

// The same of every field.
fn push_field(
    text: &mut String,
    alloc: Global,
    job: &Job,
    threads: u64,
    field: &[u8],
) -> Result<bool, OutOfMemory>
    ensures known { IfOk result (λ known. known ≡ spec.has_value job.now (Field field.now)) }
    ensures filled { OnOk result (string_bytes text.new ≡ string_bytes text.old ++ spec.field_text job.now threads field.now) }
{
    if field == b"threads".as_slice() {
        push_number(text, threads)?;
        Ok(true)
    } else {
        push_values(text, alloc, job, field)
    }
}

// The field as it is written.
fn braced(alloc: Global, field: &str) -> Result<String, AllocError>
    ensures { IfOk result (λ text. string_bytes text ≡ braced field.now) }
{
    format!(in alloc; "{{{field}}}")
}

// Adds what the symbol stands for. Answers the symbol as it is written where that is nothing.
fn push_symbol(
    text: &mut String,
    alloc: Global,
    job: &Job,
    threads: u64,
    symbol: &Symbol<'_>,
) -> Result<Option<Text>, OutOfMemory>
    ensures missing { IfOk result (λ word. word ≡ spec.first_missing job.now (symbol_of symbol.now ∷ [])) }
    ensures filled { OnOk result (string_bytes text.new ≡ string_bytes text.old ++ spec.symbol_text job.now threads (symbol_of symbol.now)) }
{
    match symbol {
        Symbol::Opening => {
            text.push_str("{")?;
            Ok(None)
        }
        Symbol::Closing => {
            text.push_str("}")?;
            Ok(None)
        }
        Symbol::Field(field) => {
            if push_field(text, alloc, job, threads, field.as_bytes())? {
                Ok(None)
            } else {
                Ok(Some(Text::of(alloc, braced(alloc, field)?.as_str())?))
            }
        }
        Symbol::Loose(loose) => Ok(Some(Text::of(alloc, loose)?)),
    }
}

// Adds the template with what its fields stand for, up to the first symbol that stands for nothing, and answers that as it is written.
fn fill(
    text: &mut String,
    alloc: Global,
    job: &Job,
    threads: u64,
    template: &str,
) -> Result<Option<Text>, OutOfMemory>
    ensures missing { IfOk result (λ word. word ≡ spec.first_missing job.now (symbols template.now)) }
    ensures filled { IfOk result (λ word. word ≡ None
        → string_bytes text.new ≡ string_bytes text.old ++ spec.filled job.now threads (symbols template.now)) }
{
    let mut rest = template;
    'filling: loop {
        let plain = first_brace(rest.as_bytes());
        text.push_str(&rest[..plain])?;
        if plain >= rest.len() {
            return Ok(None);
        }
        let (symbol, after) = symbol_in(&rest[plain..]);
        match push_symbol(text, alloc, job, threads, &symbol)? {
            Some(word) => return Ok(Some(word)),
            None => rest = after,
        }
    }
}

// Whether the text has NUL.
fn has_nul(text: &[u8]) -> bool
    ensures { result ≡ spec.has_nul text.now }
{
    for byte in text {
        if *byte == 0 {
            return true;
        }
    }
    false
}

// What is told of a text that is no command.
fn excess(text: &str) -> Option<u64>
    ensures { result ≡ spec.excess text.now }
{
    if has_nul(text.as_bytes()) {
        return Some(0);
    }
    let length = text.len() as u64;
    if length > LIMIT { Some(length) } else { None }
}

/// The text of the job's command, with so many threads. In the template `{{` and `}}` are one brace, and a field stands for the job's
/// values, with a space between: `{input}`, `{output}`, `{params}`, `{log}`, each also with `.NAME` for the item of that name or with
/// `[K]` for the K-th of all its values, from 0, but of params the K-th item; `{wildcards.NAME}`, `{resources.NAME}` and `{threads}`.
/// `UnknownField` exactly where a field has no value, or a brace belongs to none: the first, as it is written. Otherwise `TooLong`
/// exactly where the text has NUL, with 0, or more than 120,000 bytes, with their number. `OutOfMemory` where there is no memory.
pub fn command(alloc: Global, job: &Job, threads: u64) -> Result<Text, FormatFault>
    ensures text { IfOk result (λ text. text ≡ spec.command job.now threads) }
    ensures known { OnOk result (spec.missing job.now ≡ None) }
    ensures short { OnOk result (spec.excess (spec.command job.now threads) ≡ None) }
    ensures unknown { (word : List ℕ) → result ≡ Err (FormatFault.UnknownField word) → spec.missing job.now ≡ Some word }
    ensures too_long { (bytes : ℕ) → result ≡ Err (FormatFault.TooLong bytes)
        → (spec.missing job.now ≡ None) × (spec.excess (spec.command job.now threads) ≡ Some bytes) }
{
    let mut text = String::new(alloc);
    if let Some(word) = fill(&mut text, alloc, job, threads, job.recipe.template.as_str())? {
        return Err(FormatFault::UnknownField(word));
    }
    if let Some(bytes) = excess(text.as_str()) {
        return Err(FormatFault::TooLong(bytes));
    }
    Ok(Text::of(alloc, text.as_str())?)
}
