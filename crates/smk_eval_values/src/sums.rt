//! Sums.

ghost use Rattle.std.specs.Prelude.{◌≡◌, ◌++◌, IfOk, string_bytes};
ghost use Rattle.smk_eval_values.specs.Values as spec;

use crate::fault::ValueFault;
use crate::operators::bad_flag;
use crate::value::Value;
use smk_base::{List, OutOfMemory, Text};
use std::alloc::{AllocError, Global};

/// A sum so far. A text stands in a `String`, which grows in place.
#[derive(Drop)]
pub(crate) enum Total {
    Text(String),
    Value(Value),
}

/// The sum of this value alone. `OutOfMemory` where there is no memory for a text.
pub(crate) fn begun(alloc: Global, value: Value) -> Result<Total, OutOfMemory>
    ensures { IfOk result (λ t. spec.total t ≡ value) }
{
    match value {
        Value::Word(text) => Ok(Total::Text(String::from_str(alloc, text.as_str())?)),
        other => Ok(Total::Value(other)),
    }
}

/// The value of a sum. `OutOfMemory` where there is no memory for a text.
pub(crate) fn ended(alloc: Global, total: Total) -> Result<Value, OutOfMemory>
    ensures { IfOk result (λ v. v ≡ spec.total total) }
{
    match total {
        Total::Text(text) => Ok(Value::Word(Text::of(alloc, text.as_str())?)),
        Total::Value(value) => Ok(value),
    }
}

// The text with another after it.
fn joined_texts(left: String, right: &Text) -> Result<String, AllocError>
    ensures { IfOk result (λ text. string_bytes text ≡ string_bytes left ++ right.now) }
{
    let mut text = left;
    text.push_str(right.as_str())?;
    Ok(text)
}

// The list with another after it.
fn joined_lists(
    alloc: Global,
    left: List<Text>,
    right: &List<Text>,
) -> Result<List<Text>, OutOfMemory>
    ensures { IfOk result (λ texts. texts ≡ left ++ right.now) }
{
    let mut texts = left;
    for text in right.as_slice() {
        texts.push(text.copy(alloc)?)?;
    }
    Ok(texts)
}

fn plus_text(alloc: Global, left: String, right: &Value) -> Result<Total, ValueFault>
    ensures { spec.TellsTotal result (spec.plus_text (string_bytes left) right.now) }
{
    match right {
        Value::Word(right) => Ok(Total::Text(joined_texts(left, right)?)),
        _ => Err(bad_flag(alloc, "+")),
    }
}

fn plus_list(alloc: Global, left: List<Text>, right: &Value) -> Result<Total, ValueFault>
    ensures { spec.TellsTotal result (spec.plus_list left right.now) }
{
    match right {
        Value::Many(right) => Ok(Total::Value(Value::Many(joined_lists(alloc, left, right)?))),
        _ => Err(bad_flag(alloc, "+")),
    }
}

/// The sum with another term: of two texts a text, of two lists a list. `BadFlag` with the word `+` exactly where they are neither;
/// `OutOfMemory` where there is no memory for the sum or the word.
pub(crate) fn plus(alloc: Global, left: Total, right: &Value) -> Result<Total, ValueFault>
    ensures { spec.TellsTotal result (spec.plus (spec.total left) right.now) }
{
    match left {
        Total::Text(text) => plus_text(alloc, text, right),
        Total::Value(Value::Word(text)) => {
            plus_text(alloc, String::from_str(alloc, text.as_str())?, right)
        }
        Total::Value(Value::Many(texts)) => plus_list(alloc, texts, right),
        Total::Value(_) => Err(bad_flag(alloc, "+")),
    }
}
