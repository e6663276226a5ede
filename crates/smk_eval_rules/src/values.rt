//! What values are, where they stand in a directive.

ghost use Rattle.std.specs.Prelude.{◌≡◌, ◌≢◌};
ghost use Rattle.smk_eval_values.specs.declared.fault.ValueFault.{ValueFault};
ghost use Rattle.smk_eval_values.specs.Values.{Tells, first_flag};
ghost use Rattle.smk_eval_rules.specs.Items as spec;

use smk_base::{List, Text, one};
use smk_eval_values::{Value, ValueFault, bad_flag};
use smk_lex::number_of;
use std::alloc::Global;

// The word of the outermost flag.
fn first_flag(flags: &[Text]) -> &str
    ensures { result.now ≡ first_flag flags.now }
{
    match flags {
        [] => "",
        [first, ..] => first.as_str(),
    }
}

/// The fault of a value that doesn't stand in a directive of this word: `BadFlag` with the word of its outermost flag, where it has
/// one, else with that of the directive. `OutOfMemory` where there is no memory for the word.
pub(crate) fn refused(alloc: Global, word: &str, value: &Value) -> ValueFault
    ensures { result ≢ ValueFault.OutOfMemory → result ≡ ValueFault.BadFlag (spec.refused_word word.now value.now) }
{
    match value {
        Value::Flagged(flagged) => bad_flag(alloc, first_flag(flagged.flags.as_slice())),
        _ => bad_flag(alloc, word),
    }
}

/// The text that the value is.
pub(crate) fn text(alloc: Global, word: &str, value: Value) -> Result<Text, ValueFault>
    ensures { Tells result (spec.or_refused word.now value (spec.text_of value)) }
{
    match value {
        Value::Word(text) => Ok(text),
        other => Err(refused(alloc, word, &other)),
    }
}

/// The texts of a text or a list.
pub(crate) fn texts(alloc: Global, word: &str, value: Value) -> Result<List<Text>, ValueFault>
    ensures { Tells result (spec.or_refused word.now value (spec.texts_of value)) }
{
    match value {
        Value::Word(text) => Ok(one(alloc, text)?),
        Value::Many(texts) => Ok(texts),
        other => Err(refused(alloc, word, &other)),
    }
}

/// The truth value that the value is.
pub(crate) fn truth(alloc: Global, word: &str, value: &Value) -> Result<bool, ValueFault>
    ensures { Tells result (spec.or_refused word.now value.now (spec.truth_of value.now)) }
{
    match value {
        Value::Truth(truth) => Ok(*truth),
        other => Err(refused(alloc, word, other)),
    }
}

/// The number that the value is, or that it is the spelling of.
pub(crate) fn number_in(value: &Value) -> Option<u64>
    ensures { result ≡ spec.number_in value.now }
{
    match value {
        Value::Number(number) => Some(*number),
        Value::Word(text) => number_of(text.as_str().as_bytes()),
        _ => None,
    }
}

/// The same, where the value has to be a number.
pub(crate) fn number(alloc: Global, word: &str, value: &Value) -> Result<u64, ValueFault>
    ensures { Tells result (spec.or_refused word.now value.now (spec.number_in value.now)) }
{
    match number_in(value) {
        Some(number) => Ok(number),
        None => Err(refused(alloc, word, value)),
    }
}

/// The number, where it is neither below the one nor above the other.
pub(crate) fn within(
    alloc: Global,
    word: &str,
    low: u64,
    high: u64,
    number: u64,
) -> Result<u64, ValueFault>
    ensures { Tells result (spec.within word.now low high number) }
{
    if low <= number && number <= high {
        Ok(number)
    } else {
        Err(bad_flag(alloc, word))
    }
}
