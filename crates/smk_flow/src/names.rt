//! The names in texts, and what is one.

ghost use Rattle.std.specs.Prelude.{◌≡◌, ◌||◌, IfOk};
ghost use Rattle.std.specs.List.{list_all};
ghost use Rattle.std.specs.Int.{is_in_range};
ghost use Rattle.smk_pattern.specs.Grammar.{is_letter, is_name};
ghost use Rattle.smk_pattern.specs.Searching.{now_of};
ghost use Rattle.smk_flow.specs.Checks.{names_of, wildcards_of, wildcards};

use crate::rule::RulePart;
use crate::texts::out_texts;
use smk_base::OutOfMemory;
use smk_pattern::wildcard_names;
use std::alloc::Global;

/// The names that stand in a text, each once; none where its braces aren't balanced. `OutOfMemory` where there is no memory for them.
pub fn names_of(alloc: Global, text: &str) -> Result<Vec<&str>, OutOfMemory>
    ensures { IfOk result (λ names. now_of names.items ≡ names_of text.now) }
{
    wildcard_names(alloc, text)
}

/// The names in the first of these texts. `OutOfMemory` where there is no memory for them.
pub fn wildcards_of<'p>(alloc: Global, texts: &[&'p str]) -> Result<Vec<&'p str>, OutOfMemory>
    ensures { IfOk result (λ names. now_of names.items ≡ wildcards_of (now_of texts.now)) }
{
    match texts {
        [] => Ok(Vec::new(alloc)),
        [first, ..] => names_of(alloc, first),
    }
}

/// The wildcards of the rule: those of its first output. `OutOfMemory` where there is no memory for them.
pub fn wildcards(alloc: Global, part: &RulePart) -> Result<Vec<&str>, OutOfMemory>
    ensures { IfOk result (λ names. now_of names.items ≡ wildcards part.now) }
{
    let texts = out_texts(alloc, part)?;
    wildcards_of(alloc, &texts)
}

// Whether the byte may begin a name.
fn is_letter(byte: u8) -> bool
    ensures { result ≡ is_letter byte }
{
    (b'A'..=b'Z').contains(&byte) || (b'a'..=b'z').contains(&byte) || byte == b'_'
}

// Whether the byte may stand in a name.
fn is_name_byte(byte: u8) -> bool
    ensures { result ≡ (is_letter byte || is_in_range 48 57 byte) }
{
    is_letter(byte) || (b'0'..=b'9').contains(&byte)
}

// Whether each byte may stand in a name.
fn are_name_bytes(bytes: &[u8]) -> bool
    ensures { result ≡ list_all (λ c. is_letter c || is_in_range 0x30 0x39 c) bytes.now }
{
    for byte in bytes {
        if !is_name_byte(*byte) {
            return false;
        }
    }
    true
}

/// Whether the text can be the name of a wildcard. It takes no memory.
pub fn is_name(text: &str) -> bool
    ensures { result ≡ is_name text.now }
{
    match text.as_bytes() {
        [] => false,
        [first, later @ ..] => is_letter(*first) && are_name_bytes(later),
    }
}
