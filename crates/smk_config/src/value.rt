//! Values of a configuration.

ghost use Rattle.std.specs.Prelude.{◌≡◌, ◌≢◌, IfOk, Some, None, Err};
ghost use Rattle.serde_json.specs.View.{view, items_view, number_view};
ghost use Rattle.smk_config.specs.declared.fault.ConfigFault.{ConfigFault};
ghost use Rattle.smk_config.specs.Settings.{number_word, word, words, given};

use crate::fault::ConfigFault;
use serde_json::{Number, Value as Json};
use smk_base::{List, Text};
use std::alloc::Global;

/// What stands under a key: a text, or a list of texts. A whole number or a truth value is the text of its spelling, `True` or
/// `False`.
#[derive(Drop)]
pub enum Value {
    Word(Text),
    Many(List<Text>),
}

// The text of a value that is a text, a whole number or a truth value.
fn word_of(alloc: Global, value: &Json) -> Result<Text, ConfigFault>
    ensures ok { IfOk result (λ text. word (view value.now) ≡ Some text) }
    ensures bad { result ≡ Err ConfigFault.BadConfig → word (view value.now) ≡ None }
    ensures known { result ≢ Err ConfigFault.NoKey }
{
    match value {
        Json::String(text) => Ok(Text::of(alloc, text.as_str())?),
        Json::Bool(true) => Ok(Text::of(alloc, "True")?),
        Json::Bool(false) => Ok(Text::of(alloc, "False")?),
        Json::Number(number) => number_text(alloc, number),
        Json::Null | Json::Array(_) | Json::Object(_) => Err(ConfigFault::BadConfig),
    }
}

// The spelling of a whole number.
fn number_text(alloc: Global, number: &Number) -> Result<Text, ConfigFault>
    ensures ok { IfOk result (λ text. number_word (number_view number.now) ≡ Some text) }
    ensures bad { result ≡ Err ConfigFault.BadConfig → number_word (number_view number.now) ≡ None }
    ensures known { result ≢ Err ConfigFault.NoKey }
{
    match number.as_i128() {
        Some(whole) => {
            let text = format!(in alloc; "{whole}")?;
            Ok(Text::of(alloc, text.as_str())?)
        }
        None => Err(ConfigFault::BadConfig),
    }
}

// The texts of a list of such values.
fn words_of(alloc: Global, values: &[Json]) -> Result<List<Text>, ConfigFault>
    ensures ok { IfOk result (λ texts. words (items_view values.now) ≡ Some texts) }
    ensures bad { result ≡ Err ConfigFault.BadConfig → words (items_view values.now) ≡ None }
    ensures known { result ≢ Err ConfigFault.NoKey }
{
    let mut texts = List::new(alloc);
    for value in values {
        texts.push(word_of(alloc, value)?)?;
    }
    Ok(texts)
}

/// What a value gives. `BadConfig` exactly where it is neither a text, a whole number of 64 bits, a truth value, nor a list of these;
/// `OutOfMemory` where there is no memory for the texts.
pub(crate) fn value_of(alloc: Global, value: &Json) -> Result<Value, ConfigFault>
    ensures ok { IfOk result (λ gives. given (view value.now) ≡ Some gives) }
    ensures bad { result ≡ Err ConfigFault.BadConfig → given (view value.now) ≡ None }
    ensures known { result ≢ Err ConfigFault.NoKey }
{
    match value {
        Json::Array(values) => Ok(Value::Many(words_of(alloc, values.as_slice())?)),
        other => Ok(Value::Word(word_of(alloc, other)?)),
    }
}
