//! Copies of values.

ghost use Rattle.std.specs.Prelude.{◌≡◌, IfOk};

use smk_base::{Copied, OutOfMemory};
use smk_eval_values::{Flagged, Gathered, Value};
use std::alloc::Global;

/// A copy, which is the equal value. `OutOfMemory` where there is no memory for it.
pub(crate) fn copy(alloc: Global, value: &Value) -> Result<Value, OutOfMemory>
    ensures { IfOk result (λ c. c ≡ value.now) }
{
    match value {
        Value::Word(text) => Ok(Value::Word(text.copy(alloc)?)),
        Value::Number(number) => Ok(Value::Number(*number)),
        Value::Truth(truth) => Ok(Value::Truth(*truth)),
        Value::Many(texts) => Ok(Value::Many(texts.copied(alloc)?)),
        Value::Flagged(flagged) => Ok(Value::Flagged(Flagged {
            flags: flagged.flags.copied(alloc)?,
            many: flagged.many,
            texts: flagged.texts.copied(alloc)?,
        })),
        Value::Gathered(gathered) => Ok(Value::Gathered(Gathered {
            checkpoint: gathered.checkpoint.copy(alloc)?,
            listed: gathered.listed.copy(alloc)?,
            wanted: gathered.wanted.copy(alloc)?,
        })),
    }
}
