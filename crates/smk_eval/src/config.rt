//! Values of the configuration.

ghost use Rattle.std.specs.Prelude.{◌≡◌, ◌++◌, IfOk, string_bytes};
ghost use Rattle.smk_config.specs.Settings.{members};
ghost use Rattle.smk_eval_values.specs.Values.{Tells};
ghost use Rattle.smk_eval.specs.Settings.{more_keys, joined, config_value};

use smk_base::{List, OutOfMemory, Text};
use smk_config::{Config, ConfigFault, Value as Setting};
use smk_eval_values::{Value, ValueFault};
use std::alloc::Global;

// The keys with points between them.
fn joined(alloc: Global, keys: &[Text]) -> Result<Text, OutOfMemory>
    ensures { IfOk result (λ text. text ≡ joined keys.now) }
{
    let [first, later @ ..] = keys else {
        return Text::of(alloc, "");
    };
    let mut text = String::from_str(alloc, first.as_str())?;
    for key in later {
        text.push_str(".")?;
        text.push_str(key.as_str())?;
    }
    Text::of(alloc, text.as_str())
}

/// What the configuration has under these keys. `NoKey` where it has nothing there, and `BadConfig` where that is no value, both with
/// the keys joined by points; `OutOfMemory` where there is no memory for it.
#[tactic(auto, using(crate::proofs::Settings::no_key, crate::proofs::Settings::bad_config, crate::proofs::Settings::word, crate::proofs::Settings::many))]
pub(crate) fn config_value(
    alloc: Global,
    config: &Config,
    keys: &List<Text>,
) -> Result<Value, ValueFault>
    ensures { Tells result (config_value (members config.now) keys.now) }
{
    match config.get(alloc, keys) {
        Ok(Setting::Word(text)) => Ok(Value::Word(text)),
        Ok(Setting::Many(texts)) => Ok(Value::Many(texts)),
        Err(ConfigFault::NoKey) => Err(ValueFault::NoKey(joined(alloc, keys.as_slice())?)),
        Err(ConfigFault::BadConfig) => Err(ValueFault::BadConfig(joined(alloc, keys.as_slice())?)),
        Err(ConfigFault::OutOfMemory) => Err(ValueFault::OutOfMemory),
    }
}
