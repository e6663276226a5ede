//! What the signs of the language make of values.

ghost use Rattle.std.specs.Prelude.{◌≡◌, ◌≢◌, ◌++◌, ◌∷◌, [], List, ℕ, IfOk, OnOk, MatchOption, Ok, Err, None, Some, string_bytes, codes};
ghost use Rattle.std.specs.Fmt.{decimal};
ghost use Rattle.smk_eval_values.specs.declared.fault.ValueFault.{ValueFault};
ghost use Rattle.smk_eval_values.specs.Values as spec;

use crate::fault::{ValueFault, of_expand};
use crate::value::{Flagged, Value};
use crate::{Choices, expand};
use smk_base::{Copied, List, OutOfMemory, Text, one};
use std::alloc::Global;

/// `BadFlag` with this word, or `OutOfMemory` where there is no memory for it.
pub fn bad_flag(alloc: Global, word: &str) -> ValueFault
    ensures { result ≢ ValueFault.OutOfMemory → result ≡ ValueFault.BadFlag word.now }
{
    match Text::of(alloc, word) {
        Ok(word) => ValueFault::BadFlag(word),
        Err(_) => ValueFault::OutOfMemory,
    }
}

fn number_text(alloc: Global, number: u64) -> Result<Text, OutOfMemory>
    ensures { IfOk result (λ text. text ≡ decimal number) }
{
    let text = format!(in alloc; "{number}")?;
    Text::of(alloc, text.as_str())
}

fn truth_text(alloc: Global, truth: bool) -> Result<Text, OutOfMemory>
    ensures { IfOk result (λ text. text ≡ spec.truth_word truth) }
{
    if truth {
        Text::of(alloc, "True")
    } else {
        Text::of(alloc, "False")
    }
}

/// The text of a text, a number or a truth value, and `None` of anything else. `OutOfMemory` where there is no memory for it.
pub fn spelled(alloc: Global, value: &Value) -> Result<Option<Text>, OutOfMemory>
    ensures { IfOk result (λ text. text ≡ spec.spelled value.now) }
{
    match value {
        Value::Word(text) => Ok(Some(text.copy(alloc)?)),
        Value::Number(number) => Ok(Some(number_text(alloc, *number)?)),
        Value::Truth(truth) => Ok(Some(truth_text(alloc, *truth)?)),
        Value::Many(_) | Value::Flagged(_) | Value::Gathered(_) => Ok(None),
    }
}

// The word of the outermost flag.
fn first_flag(flags: &[Text]) -> &str
    ensures { result.now ≡ spec.first_flag flags.now }
{
    match flags {
        [] => "",
        [first, ..] => first.as_str(),
    }
}

/// What the value adds to a list in a directive of this word: the texts of a list, or the text of a text, a number or a truth value.
/// `BadFlag` exactly where it is flagged, with the word of the outermost flag, or gathered, with that of the directive; `OutOfMemory`
/// where there is no memory for the texts or the word.
pub fn list_items(alloc: Global, value: &Value, word: &str) -> Result<List<Text>, ValueFault>
    ensures { spec.Tells result (spec.list_items word.now value.now) }
{
    match value {
        Value::Word(text) => Ok(one(alloc, text.copy(alloc)?)?),
        Value::Number(number) => Ok(one(alloc, number_text(alloc, *number)?)?),
        Value::Truth(truth) => Ok(one(alloc, truth_text(alloc, *truth)?)?),
        Value::Many(texts) => Ok(texts.copied(alloc)?),
        Value::Flagged(flagged) => Err(bad_flag(alloc, first_flag(flagged.flags.as_slice()))),
        Value::Gathered(_) => Err(bad_flag(alloc, word)),
    }
}

// The words with one in front of them.
fn with_flag(alloc: Global, flag: &str, flags: &List<Text>) -> Result<List<Text>, OutOfMemory>
    ensures { IfOk result (λ words. words ≡ flag.now ∷ flags.now) }
{
    let mut words = one(alloc, Text::of(alloc, flag)?)?;
    for word in flags.as_slice() {
        words.push(word.copy(alloc)?)?;
    }
    Ok(words)
}

/// The value with this flag about it. `BadFlag` with the flag's word exactly where the value is neither a text, a list nor flagged
/// already; `OutOfMemory` where there is no memory for it or the word.
pub fn flag(alloc: Global, flag: &str, value: &Value) -> Result<Value, ValueFault>
    ensures { spec.Tells result (spec.flag flag.now value.now) }
{
    match value {
        Value::Word(text) => Ok(Value::Flagged(Flagged {
            flags: one(alloc, Text::of(alloc, flag)?)?,
            many: false,
            texts: one(alloc, text.copy(alloc)?)?,
        })),
        Value::Many(texts) => Ok(Value::Flagged(Flagged {
            flags: one(alloc, Text::of(alloc, flag)?)?,
            many: true,
            texts: texts.copied(alloc)?,
        })),
        Value::Flagged(flagged) => Ok(Value::Flagged(Flagged {
            flags: with_flag(alloc, flag, &flagged.flags)?,
            many: flagged.many,
            texts: flagged.texts.copied(alloc)?,
        })),
        Value::Number(_) | Value::Truth(_) | Value::Gathered(_) => Err(bad_flag(alloc, flag)),
    }
}

/// The patterns that the value is in a call of `expand`. `BadFlag` with the word `expand` exactly where it is neither a text nor a
/// list; `OutOfMemory` where there is no memory for them or the word.
pub fn patterns(alloc: Global, value: &Value) -> Result<List<Text>, ValueFault>
    ensures { spec.Tells result (spec.patterns value.now) }
{
    match value {
        Value::Word(text) => Ok(one(alloc, text.copy(alloc)?)?),
        Value::Many(texts) => Ok(texts.copied(alloc)?),
        _ => Err(bad_flag(alloc, "expand")),
    }
}

/// The values that this value gives to a name in a call of `expand`: those of a list, or one text. `BadFlag` with the word `expand`
/// exactly where it is flagged or gathered; `OutOfMemory` where there is no memory for them or the word.
pub fn choice_values(alloc: Global, value: &Value) -> Result<List<Text>, ValueFault>
    ensures { spec.Tells result (spec.choice_values value.now) }
{
    match value {
        Value::Word(text) => Ok(one(alloc, text.copy(alloc)?)?),
        Value::Number(number) => Ok(one(alloc, number_text(alloc, *number)?)?),
        Value::Truth(truth) => Ok(one(alloc, truth_text(alloc, *truth)?)?),
        Value::Many(texts) => Ok(texts.copied(alloc)?),
        Value::Flagged(_) | Value::Gathered(_) => Err(bad_flag(alloc, "expand")),
    }
}

/// The truth value that this value is, as `allow_missing` of a call of `expand`. `BadFlag` with the word `expand` exactly where it is
/// none; `OutOfMemory` where there is no memory for the word.
pub fn truth(alloc: Global, value: &Value) -> Result<bool, ValueFault>
    ensures { spec.Tells result (spec.truth value.now) }
{
    match value {
        Value::Truth(truth) => Ok(*truth),
        _ => Err(bad_flag(alloc, "expand")),
    }
}

/// The list that a call of `expand` gives of these patterns. The faults are those of `expand`.
pub fn expansion(
    alloc: Global,
    patterns: &[Text],
    choices: &[Choices],
    zip: bool,
    allow_missing: bool,
) -> Result<Value, ValueFault>
    ensures { spec.Tells result (spec.expansion zip allow_missing choices.now patterns.now) }
{
    match expand(alloc, patterns, choices, zip, allow_missing) {
        Ok(texts) => Ok(Value::Many(texts)),
        Err(fault) => Err(of_expand(fault)),
    }
}
