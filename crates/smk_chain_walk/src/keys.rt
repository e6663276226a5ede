//! A text for each job.

ghost use Rattle.std.specs.Prelude.{◌≡◌, ◌++◌, IfOk, OnOk, string_bytes};
ghost use Rattle.smk_record.specs.Spelling.{text, pair};
ghost use Rattle.smk_chain_walk.specs.Numbers.{key, IsSmall};

use smk_base::{OutOfMemory, Pair};
use smk_choose::Making;
use std::alloc::{AllocError, Global};

// Adds a text after its length.
fn push_text(key: &mut String, word: &str) -> Result<(), AllocError>
    ensures { OnOk result (string_bytes key.new ≡ string_bytes key.old ++ text word.now) }
{
    let length = word.len();
    writeln!(key, "{length}:{word}")
}

// Adds the name and the value.
fn push_pair(key: &mut String, bound: &Pair) -> Result<(), AllocError>
    ensures { OnOk result (string_bytes key.new ≡ string_bytes key.old ++ pair bound.now) }
{
    push_text(key, bound.name.as_str())?;
    push_text(key, bound.value.as_str())
}

/// A text for the job: no two jobs have the same one.
pub(crate) fn key_of(alloc: Global, making: &Making) -> Result<String, OutOfMemory>
    ensures is { IfOk result (λ made. string_bytes made ≡ key making.now) }
    ensures small { IfOk result (λ made. IsSmall making.now) }
{
    let rule = making.rule;
    let mut made = String::new(alloc);
    writeln!(made, "{rule}")?;
    for bound in making.binding.as_slice() {
        push_pair(&mut made, bound)?;
    }
    Ok(made)
}
