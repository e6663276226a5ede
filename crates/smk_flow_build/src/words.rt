//! The names in texts that aren't read as patterns.

ghost use Rattle.std.specs.Prelude.{◌≡◌, ◌<◌, ◌+◌, ◌++◌, ℕ, Some, IfOk, OnOk, IsCharBoundary};
ghost use Rattle.smk_pattern.specs.Searching.{now_of};
ghost use Rattle.smk_pattern.specs.Splitting.{between};
ghost use Rattle.smk_flow.specs.Begun.{begun_of, brace_after};
ghost use Rattle.smk_flow.specs.Checks.{closing, word_names};

use smk_base::OutOfMemory;
use smk_flow::names::is_name;
use std::alloc::Global;

// What stands behind the brace at this place, up to another place.
fn behind(text: &str, brace: usize, at: usize) -> &str
    requires order { brace < at }
    requires from { IsCharBoundary text.now (brace + 1) }
    requires to { IsCharBoundary text.now at }
    ensures value { result.now ≡ between (brace + 1) at text.now }
{
    &text[brace + 1..at]
}

// Adds the name that the byte at this place ends.
fn add_closed<'t>(
    names: &mut Vec<&'t str>,
    text: &'t str,
    at: usize,
    byte: u8,
    brace: Option<usize>,
) -> Result<(), OutOfMemory>
    requires to { byte ≡ 125 → IsCharBoundary text.now at }
    requires from { (s : ℕ) → brace ≡ Some s → (s < at) × IsCharBoundary text.now (s + 1) }
    ensures { OnOk result (now_of names.new.items ≡ now_of names.old.items ++ closing byte (begun_of text.now at brace)) }
{
    let Some(brace) = brace else {
        return Ok(());
    };
    if byte != b'}' {
        return Ok(());
    }
    let name = behind(text, brace, at);
    if is_name(name) {
        names.push(name)?;
    }
    Ok(())
}

// The place of the last brace that opens, after this byte.
fn brace_after(byte: u8, at: usize, brace: Option<usize>) -> Option<usize>
    ensures { result ≡ brace_after byte at brace }
{
    match byte {
        b'{' => Some(at),
        b'}' => None,
        _ => brace,
    }
}

// The names that stand in braces in the text.
pub(crate) fn word_names(alloc: Global, text: &str) -> Result<Vec<&str>, OutOfMemory>
    ensures { IfOk result (λ names. now_of names.items ≡ word_names text.now) }
{
    let mut names = Vec::new(alloc);
    let mut brace = None;
    for (at, byte) in text.as_bytes().iter().enumerate() {
        add_closed(&mut names, text, at, *byte, brace)?;
        brace = brace_after(*byte, at, brace);
    }
    Ok(names)
}
