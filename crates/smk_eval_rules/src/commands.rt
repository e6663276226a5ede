//! Commands, with places for the items of logs that they name.

ghost use Rattle.std.specs.Prelude.{◌≡◌, ◌++◌, ◌-◌, ◌<◌, ◌≤◌, IfOk, OnOk, option_map, string_bytes};
ghost use Rattle.smk_template.specs.Templates.{symbols};
ghost use Rattle.smk_template.specs.Symbols.{symbol_of};
ghost use Rattle.smk_eval_rules.specs.Logs as spec;

use crate::logs::{LogItem, NamedRule};
use smk_base::{OutOfMemory, Text};
use smk_flow::RulePart;
use smk_template::{Symbol, first_brace, symbol_in};
use std::alloc::{AllocError, Global};

// The item that the field stands for.
fn item_of<'l>(items: &'l [LogItem], field: &str) -> Option<&'l LogItem>
    ensures { option_map (λ i. i.now) result ≡ spec.item_of items.now field.now }
{
    for item in items {
        if item.field.as_str() == field {
            return Some(item);
        }
    }
    None
}

// Adds the field of a place.
fn push_place(text: &mut String, place: usize) -> Result<(), AllocError>
    ensures { OnOk result (string_bytes text.new ≡ string_bytes text.old ++ spec.place_field place) }
{
    write!(text, "{{log[{place}]}}")
}

// Adds the fields of the places, each after a space.
fn push_later(text: &mut String, start: usize, end: usize) -> Result<(), AllocError>
    requires { start ≤ end }
    ensures { OnOk result (string_bytes text.new ≡ string_bytes text.old ++ spec.later_places start (end - start)) }
{
    for place in start..end {
        text.push_str(" ")?;
        push_place(text, place)?;
    }
    Ok(())
}

// Adds the fields of the places, with a space between.
fn push_places(text: &mut String, start: usize, end: usize) -> Result<(), AllocError>
    ensures { OnOk result (string_bytes text.new ≡ string_bytes text.old ++ spec.places start end) }
{
    if start < end {
        push_place(text, start)?;
        push_later(text, start + 1, end)?;
    }
    Ok(())
}

// Adds the field, or the places of the item that it stands for.
fn push_field(text: &mut String, items: &[LogItem], field: &str) -> Result<(), AllocError>
    ensures { OnOk result (string_bytes text.new ≡ string_bytes text.old ++ spec.places_or field.now (spec.item_of items.now field.now)) }
{
    match item_of(items, field) {
        Some(item) => push_places(text, item.start, item.end),
        None => write!(text, "{{{field}}}"),
    }
}

// Adds the symbol. Answers whether it belongs to the command, and else adds nothing.
fn push_symbol(
    text: &mut String,
    items: &[LogItem],
    symbol: &Symbol<'_>,
) -> Result<bool, AllocError>
    ensures told { IfOk result (λ on. on ≡ spec.is_closed (symbol_of symbol.now)) }
    ensures added { OnOk result (string_bytes text.new ≡ string_bytes text.old ++ spec.placed_symbol items.now (symbol_of symbol.now)) }
{
    match symbol {
        Symbol::Opening => {
            text.push_str("{{")?;
            Ok(true)
        }
        Symbol::Closing => {
            text.push_str("}}")?;
            Ok(true)
        }
        Symbol::Field(field) => {
            push_field(text, items, field)?;
            Ok(true)
        }
        Symbol::Loose(_) => Ok(false),
    }
}

// Adds the command with places for the items that it names.
fn push_command(text: &mut String, items: &[LogItem], command: &str) -> Result<(), AllocError>
    ensures { OnOk result (string_bytes text.new ≡ string_bytes text.old ++ spec.placed items.now command.now) }
{
    let mut rest = command;
    'reading: loop {
        let plain = first_brace(rest.as_bytes());
        text.push_str(&rest[..plain])?;
        if plain >= rest.len() {
            return Ok(());
        }
        let at = &rest[plain..];
        let (symbol, after) = symbol_in(at);
        let is_closed = push_symbol(text, items, &symbol)?;
        if !is_closed {
            text.push_str(at)?;
            return Ok(());
        }
        rest = after;
    }
}

// The command with places for the items that it names.
fn placed(alloc: Global, items: &[LogItem], command: &str) -> Result<Text, OutOfMemory>
    ensures { IfOk result (λ text. text ≡ spec.placed items.now command.now) }
{
    let mut text = String::new(alloc);
    push_command(&mut text, items, command)?;
    Text::of(alloc, text.as_str())
}

// The same, where there is one.
fn placed_command(
    alloc: Global,
    items: &[LogItem],
    command: Option<Text>,
) -> Result<Option<Text>, OutOfMemory>
    ensures { IfOk result (λ text. text ≡ option_map (spec.placed items.now) command) }
{
    match command {
        Some(command) => Ok(Some(placed(alloc, items, command.as_str())?)),
        None => Ok(None),
    }
}

// The rule, its command with places for these items.
fn with_command(alloc: Global, part: RulePart, items: &[LogItem]) -> Result<RulePart, OutOfMemory>
    ensures { IfOk result (λ now. now ≡ record part { command = option_map (spec.placed items.now) part.command }) }
{
    let mut part = part;
    part.command = placed_command(alloc, items, part.command)?;
    Ok(part)
}

/// The rule, its command with places for the items of logs that it names. `OutOfMemory` where there is no memory for it.
pub(crate) fn with_places(alloc: Global, rule: NamedRule) -> Result<RulePart, OutOfMemory>
    ensures { IfOk result (λ part. part ≡ spec.with_places rule) }
{
    let NamedRule { part, logs } = rule;
    with_command(alloc, part, logs.as_slice())
}
