//! The logs of a rule, and where the texts of each item that has a name stand among them.

ghost use Rattle.std.specs.Prelude.{◌≡◌, ◌++◌, [], map, IfOk, string_bytes, codes};
ghost use Rattle.smk_eval_values.specs.Expressions.{named_in};
ghost use Rattle.smk_eval_values.specs.Values.{Tells};
ghost use Rattle.smk_eval_rules.specs.Logs as spec;

use crate::items::{Takes, with_items};
use crate::values::texts;
use smk_base::{List, OutOfMemory, Text};
use smk_eval_values::{Scope, Value, ValueFault};
use smk_flow::RulePart;
use smk_parse_tree::ItemForm;
use std::alloc::{AllocError, Global};

/// An item of logs that has a name.
#[derive(Drop)]
pub struct LogItem {
    /// The field of a command that stands for it, without its braces.
    pub field: Text,
    /// The place of its first text among the texts of all items.
    pub start: usize,
    /// The place behind its last text.
    pub end: usize,
}

/// A rule whose command names logs by their items.
#[derive(Drop)]
pub struct NamedRule {
    pub part: RulePart,
    pub logs: List<LogItem>,
}

/// The logs of a rule.
#[derive(Drop)]
pub(crate) struct Logs {
    /// The texts of all items, in order.
    pub(crate) texts: List<Text>,
    /// The items that have a name.
    pub(crate) items: List<LogItem>,
}

// The texts with more after them.
fn joined(alloc: Global, texts: List<Text>, more: &[Text]) -> Result<List<Text>, OutOfMemory>
    ensures { IfOk result (λ all. all ≡ texts ++ more.now) }
{
    let mut texts = texts;
    for text in more {
        texts.push(text.copy(alloc)?)?;
    }
    Ok(texts)
}

// The field for the item of this name.
fn field_text(alloc: Global, name: &str) -> Result<String, AllocError>
    ensures { IfOk result (λ text. string_bytes text ≡ codes "log." ++ name.now) }
{
    format!(in alloc; "log.{name}")
}

// The same as a text.
fn field_of(alloc: Global, name: &str) -> Result<Text, OutOfMemory>
    ensures { IfOk result (λ text. text ≡ codes "log." ++ name.now) }
{
    let text = field_text(alloc, name)?;
    Text::of(alloc, text.as_str())
}

// With an item whose texts stand from the one place up to before the other, where it has a name.
fn with_item(
    alloc: Global,
    items: List<LogItem>,
    name: &Text,
    start: usize,
    end: usize,
) -> Result<List<LogItem>, OutOfMemory>
    ensures { IfOk result (λ all. all ≡ items ++ spec.named_item name.now start end) }
{
    if name.as_str() == "" {
        return Ok(items);
    }
    let mut items = items;
    items.push(LogItem {
        field: field_of(alloc, name.as_str())?,
        start,
        end,
    })?;
    Ok(items)
}

// With the texts of one more item.
fn with_texts(alloc: Global, made: Logs, name: &Text, more: &[Text]) -> Result<Logs, OutOfMemory>
    ensures { IfOk result (λ logs. logs ≡ spec.with_texts made name.now more.now) }
{
    let start = made.texts.len();
    let texts = joined(alloc, made.texts, more)?;
    let items = with_item(alloc, made.items, name, start, texts.len())?;
    Ok(Logs { texts, items })
}

impl Takes for Logs {
    ghost use Rattle.smk_eval_rules.specs.Logs.{with_log};

    ghost taken = { λ word made name v. with_log word made name v };

    fn take(
        self,
        alloc: Global,
        word: &Text,
        name: &Text,
        value: Value,
    ) -> Result<Logs, ValueFault> {
        let more = texts(alloc, word.as_str(), value)?;
        Ok(with_texts(alloc, self, name, more.as_slice())?)
    }
}

// No logs.
fn no_logs(alloc: Global) -> Logs
    ensures { result ≡ record { texts = []; items = [] } }
{
    Logs {
        texts: List::new(alloc),
        items: List::new(alloc),
    }
}

/// The logs.
pub(crate) fn all_logs<S: Scope>(
    alloc: Global,
    items: &[ItemForm],
    scope: &S,
    word: &Text,
) -> Result<Logs, ValueFault>
    ensures { Tells result (spec.all_logs word.now (map (named_in word.now (S.seen scope.now)) items.now)) }
{
    with_items(alloc, no_logs(alloc), items, scope, word)
}
