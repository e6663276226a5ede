//! Directives of one item.

ghost use Rattle.std.specs.Prelude.{◌≡◌, map};
ghost use Rattle.smk_eval_values.specs.Values.{Tells};
ghost use Rattle.smk_eval_values.specs.Expressions.{named_in};
ghost use Rattle.smk_eval_rules.specs.Items as spec;

use crate::values::{number, text, truth, within};
use smk_base::Text;
use smk_eval_values::{Scope, Value, ValueFault, bad_flag, value_of};
use smk_parse_tree::ItemForm;
use std::alloc::Global;

// The value of the only item, which has no name.
fn only<S: Scope>(
    alloc: Global,
    items: &[ItemForm],
    scope: &S,
    word: &Text,
) -> Result<Value, ValueFault>
    ensures { Tells result (spec.only word.now (map (named_in word.now (S.seen scope.now)) items.now)) }
{
    match items {
        [item] => {
            if item.name.as_str() == "" {
                value_of(alloc, &item.value, scope, word)
            } else {
                Err(bad_flag(alloc, word.as_str()))
            }
        }
        _ => Err(bad_flag(alloc, word.as_str())),
    }
}

/// The number that is the only item, neither below the one nor above the other.
pub(crate) fn one_number<S: Scope>(
    alloc: Global,
    items: &[ItemForm],
    scope: &S,
    word: &Text,
    low: u64,
    high: u64,
) -> Result<u64, ValueFault>
    ensures { Tells result (spec.one_number word.now low high (map (named_in word.now (S.seen scope.now)) items.now)) }
{
    let value = only(alloc, items, scope, word)?;
    let number = number(alloc, word.as_str(), &value)?;
    within(alloc, word.as_str(), low, high, number)
}

/// The text that is the only item.
pub(crate) fn one_text<S: Scope>(
    alloc: Global,
    items: &[ItemForm],
    scope: &S,
    word: &Text,
) -> Result<Text, ValueFault>
    ensures { Tells result (spec.one_text word.now (map (named_in word.now (S.seen scope.now)) items.now)) }
{
    let value = only(alloc, items, scope, word)?;
    text(alloc, word.as_str(), value)
}

/// The truth value that is the only item.
pub(crate) fn one_truth<S: Scope>(
    alloc: Global,
    items: &[ItemForm],
    scope: &S,
    word: &Text,
) -> Result<bool, ValueFault>
    ensures { Tells result (spec.one_truth word.now (map (named_in word.now (S.seen scope.now)) items.now)) }
{
    let value = only(alloc, items, scope, word)?;
    truth(alloc, word.as_str(), &value)
}
