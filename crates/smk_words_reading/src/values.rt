//! What stands among the parts.

ghost use Rattle.std.specs.Prelude.{◌≡◌, ℕ, IfOk, map, filter, length, ◌≤◌};
ghost use Rattle.smk_words_reading.specs.Asks as spec;

use crate::parts::{Flag, Part, Setting};
use smk_base::{List, OutOfMemory, Text};
use std::alloc::Global;

/// Whether the flag stands.
pub(crate) fn has(flag: Flag, parts: &[Part]) -> bool
    ensures { result ≡ spec.has flag parts.now }
{
    for part in parts {
        if part.is_flag(flag) {
            return true;
        }
    }
    false
}

/// How often the flag stands.
pub(crate) fn times(flag: Flag, parts: &[Part]) -> usize
    ensures { result ≡ spec.times flag parts.now }
{
    parts.iter().filter(|part| part.is_flag(flag)).count()
}

/// The values of the option, in order.
pub(crate) fn values<'p>(
    alloc: Global,
    setting: Setting,
    parts: &'p [Part],
) -> Result<Vec<&'p str>, OutOfMemory>
    ensures { IfOk result (λ found. map (λ v. v.now) found.items ≡ spec.values setting parts.now) }
{
    let mut found = Vec::new(alloc);
    for part in parts {
        let Some(value) = part.value_of(setting) else {
            continue;
        };
        found.push(value)?;
    }
    Ok(found)
}

/// The targets, in order.
pub(crate) fn targets_in(alloc: Global, parts: &[Part]) -> Result<List<Text>, OutOfMemory>
    ensures { IfOk result (λ targets. targets ≡ spec.targets_in parts.now) }
{
    let mut targets = List::new(alloc);
    for part in parts {
        let Some(word) = part.target() else {
            continue;
        };
        targets.push(Text::of(alloc, word)?)?;
    }
    Ok(targets)
}
