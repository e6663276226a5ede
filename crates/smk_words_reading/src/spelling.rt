//! The parts that words spell.

ghost use Rattle.std.specs.Prelude.{◌≡◌, ◌++◌, IfOk, OnOk, map, string_bytes};
ghost use Rattle.smk_words_reading.specs.declared.spelling.Expected.TheVariants as expected;
ghost use Rattle.smk_words_reading.specs.Ending.{may_end};
ghost use Rattle.smk_words_reading.specs.Reading as spec;

use crate::letters::{is_value, read_word};
use crate::parts::{Part, Setting};
use smk_base::{List, OutOfMemory, Text};
use std::alloc::Global;

/// What is expected of the next word.
#[derive(Clone, Copy, PartialEq, Eq)]
pub(crate) enum Expected {
    /// A target or options.
    Word,
    /// The value of the option.
    Value(Setting),
    /// A target, whatever it looks like.
    Target,
}

// Whether words may end where this is expected.
fn may_end(expected: Expected) -> bool
    ensures { result ≡ may_end expected }
{
    !matches!(expected, Expected::Value(_))
}

// Adds the value of the option, where the word may be one.
fn read_value(
    alloc: Global,
    setting: Setting,
    word: &str,
    parts: &mut List<Part>,
) -> Result<Option<Expected>, OutOfMemory>
    ensures parts { OnOk result (parts.new ≡ parts.old ++ (spec.step (expected.Value setting) word.now).0) }
    ensures next { IfOk result (λ next. next ≡ (spec.step (expected.Value setting) word.now).1) }
{
    if !is_value(word) {
        return Ok(None);
    }
    parts.push(Part::Given(setting, Text::of(alloc, word)?))?;
    Ok(Some(Expected::Word))
}

// Adds what the word spells where this is expected, and tells what is expected then: nothing where the word isn't read.
fn read_next(
    alloc: Global,
    expected: Expected,
    word: &str,
    parts: &mut List<Part>,
) -> Result<Option<Expected>, OutOfMemory>
    ensures parts { OnOk result (parts.new ≡ parts.old ++ (spec.step expected word.now).0) }
    ensures next { IfOk result (λ next. next ≡ (spec.step expected word.now).1) }
{
    match expected {
        Expected::Word => read_word(alloc, word, parts),
        Expected::Value(setting) => read_value(alloc, setting, word, parts),
        Expected::Target => {
            parts.push(Part::Target(Text::of(alloc, word)?))?;
            Ok(Some(Expected::Target))
        }
    }
}

/// The parts that the words spell, in order, or nothing where they spell none.
pub(crate) fn parts_of(alloc: Global, words: &[String]) -> Result<Option<List<Part>>, OutOfMemory>
    ensures { IfOk result (λ found. found ≡ spec.spelled expected.Word (map string_bytes words.now)) }
{
    let mut parts = List::new(alloc);
    let mut expected = Expected::Word;
    for word in words {
        let Some(next) = read_next(alloc, expected, word.as_str(), &mut parts)? else {
            return Ok(None);
        };
        expected = next;
    }
    let whole = may_end(expected);
    if whole { Ok(Some(parts)) } else { Ok(None) }
}
