//! One word and its letters.

ghost use Rattle.std.specs.Prelude.{◌≡◌, ◌∷◌, ◌++◌, ◌==◌, ◌&&◌, not, if◌then◌else◌, IfOk, OnOk, IfSome, MatchOption, IsUtf8, false, option_map, length, ◌<◌};
ghost use Rattle.smk_words_reading.specs.Words.{begins_with, is_plain, is_value};
ghost use Rattle.smk_words_reading.specs.Reading as spec;

use crate::numbers::split_sign;
use crate::parts::{Flag, Part, Setting};
use crate::spelling::Expected;
use smk_base::{List, OutOfMemory, Text};
use std::alloc::Global;

// The first letter and what follows it, where the text begins with a letter of ASCII.
fn split_letter(text: &str) -> Option<(u8, &str)>
    ensures cases { MatchOption result (spec.begins_with_ascii text.now ≡ false) (λ found. text.now ≡ found.0 ∷ found.1.now) }
    ensures utf8 { IfSome result (λ found. IsUtf8 found.1.now) }
{
    match text.as_bytes() {
        [letter, ..] if letter.is_ascii() => Some((*letter, &text[1..])),
        _ => None,
    }
}

// Whether the text begins with a dash.
fn begins_with_dash(text: &[u8]) -> bool
    ensures { result ≡ begins_with 45 text.now }
{
    matches!(text, [b'-', ..])
}

// The rest, where the letter before it is a dash and it isn't empty.
fn behind_letter<'w>(letter: u8, rest: &'w str) -> Option<&'w str>
    ensures { option_map (λ text. text.now) result ≡ (if letter == 45 && not (length rest.entry.now == 0) then Some rest.entry.now else None) }
{
    if letter == b'-' && !rest.is_empty() {
        Some(rest)
    } else {
        None
    }
}

// What stands behind the dash, where the word begins with a dash and isn't one alone.
fn behind_dash(word: &str) -> Option<&str>
    ensures { option_map (λ text. text.now) result ≡ spec.behind_dash word.now }
{
    match split_letter(word) {
        Some((letter, rest)) => behind_letter(letter, rest),
        None => None,
    }
}

// Whether the word doesn't begin with a dash, or is one alone.
fn is_plain(word: &str) -> bool
    ensures { result ≡ is_plain word.now }
{
    behind_dash(word).is_none()
}

/// Whether the word may be an option's value where it is the next word.
pub(crate) fn is_value(word: &str) -> bool
    ensures { result ≡ is_value word.now }
{
    !word.is_empty() && is_plain(word)
}

// The flag of the first letter and what follows it.
fn first_flag(text: &str) -> Option<(Flag, &str)>
    ensures found { option_map (λ p. (p.0, p.1.now)) result ≡ spec.first_flag text.now }
    ensures shorter { IfSome result (λ p. length p.1.now < length text.now) }
    ensures utf8 { IfSome result (λ p. IsUtf8 p.1.now) }
{
    let (letter, rest) = split_letter(text)?;
    let flag = Flag::at(letter)?;
    Some((flag, rest))
}

// The option of the first letter and what follows it.
fn first_setting(text: &str) -> Option<(Setting, &str)>
    ensures { option_map (λ p. (p.0, p.1.now)) result ≡ spec.first_setting text.now }
{
    let (letter, rest) = split_letter(text)?;
    let setting = Setting::at(letter)?;
    Some((setting, rest))
}

// The text without `=` in front.
fn unsigned(text: &str) -> &str
    ensures { result.now ≡ spec.unsigned text.now }
{
    match text.strip_prefix('=') {
        Some(value) => value,
        None => text,
    }
}

// Adds the option with the value, unless that is empty.
fn read_given(
    alloc: Global,
    setting: Setting,
    value: &str,
    parts: &mut List<Part>,
) -> Result<Option<Expected>, OutOfMemory>
    ensures parts { OnOk result (parts.new ≡ parts.old ++ (spec.given setting value.now).0) }
    ensures next { IfOk result (λ next. next ≡ (spec.given setting value.now).1) }
{
    if value.is_empty() {
        return Ok(None);
    }
    parts.push(Part::Given(setting, Text::of(alloc, value)?))?;
    Ok(Some(Expected::Word))
}

// Reads what stands behind the option's letter: a value, which may have `=` before it, or nothing where the next word is the value.
fn read_joined(
    alloc: Global,
    setting: Setting,
    text: &str,
    parts: &mut List<Part>,
) -> Result<Option<Expected>, OutOfMemory>
    ensures parts { OnOk result (parts.new ≡ parts.old ++ (spec.joined setting text.now).0) }
    ensures next { IfOk result (λ next. next ≡ (spec.joined setting text.now).1) }
{
    if text.is_empty() {
        return Ok(Some(Expected::Value(setting)));
    }
    read_given(alloc, setting, unsigned(text), parts)
}

// Reads the end of joined letters, where no flag's letter stands first.
fn read_last(
    alloc: Global,
    text: &str,
    parts: &mut List<Part>,
) -> Result<Option<Expected>, OutOfMemory>
    ensures parts { OnOk result (parts.new ≡ parts.old ++ (spec.last_in text.now).0) }
    ensures next { IfOk result (λ next. next ≡ (spec.last_in text.now).1) }
{
    if text.is_empty() {
        return Ok(Some(Expected::Word));
    }
    match first_setting(text) {
        Some((setting, rest)) => read_joined(alloc, setting, rest, parts),
        None => Ok(None),
    }
}

// Reads the letters behind a dash.
fn read_letters(
    alloc: Global,
    text: &str,
    parts: &mut List<Part>,
) -> Result<Option<Expected>, OutOfMemory>
    ensures parts { OnOk result (parts.new ≡ parts.old ++ (spec.letters_in text.now).0) }
    ensures next { IfOk result (λ next. next ≡ (spec.letters_in text.now).1) }
{
    let mut rest = text;
    while let Some((flag, later)) = first_flag(rest) {
        parts.push(Part::Flagged(flag))?;
        rest = later;
    }
    read_last(alloc, rest, parts)
}

// Reads the name of an option and the value behind it.
fn read_named(
    alloc: Global,
    name: &str,
    value: &str,
    parts: &mut List<Part>,
) -> Result<Option<Expected>, OutOfMemory>
    ensures parts { OnOk result (parts.new ≡ parts.old ++ (spec.setting_given (spec.setting_named name.now) value.now).0) }
    ensures next { IfOk result (λ next. next ≡ (spec.setting_given (spec.setting_named name.now) value.now).1) }
{
    match Setting::named(name) {
        Some(setting) => read_given(alloc, setting, value, parts),
        None => Ok(None),
    }
}

// Reads an option that is spelled in full and has no `=`.
fn read_whole(word: &str, parts: &mut List<Part>) -> Result<Option<Expected>, OutOfMemory>
    ensures parts { OnOk result (parts.new ≡ parts.old ++ (spec.whole_flag (spec.flag_named word.now) word.now).0) }
    ensures next { IfOk result (λ next. next ≡ (spec.whole_flag (spec.flag_named word.now) word.now).1) }
{
    match Flag::named(word) {
        Some(flag) => {
            parts.push(Part::Flagged(flag))?;
            Ok(Some(Expected::Word))
        }
        None => Ok(Setting::named(word).map(Expected::Value)),
    }
}

// Reads a word that begins with two dashes.
fn read_long(
    alloc: Global,
    word: &str,
    parts: &mut List<Part>,
) -> Result<Option<Expected>, OutOfMemory>
    ensures parts { OnOk result (parts.new ≡ parts.old ++ (spec.long_in word.now).0) }
    ensures next { IfOk result (λ next. next ≡ (spec.long_in word.now).1) }
{
    if word == "--" {
        return Ok(Some(Expected::Target));
    }
    match split_sign(word) {
        Some((name, value)) => read_named(alloc, name, value, parts),
        None => read_whole(word, parts),
    }
}

/// Adds the parts that the word spells, and tells what is expected behind it: nothing where the word isn't read.
pub(crate) fn read_word(
    alloc: Global,
    word: &str,
    parts: &mut List<Part>,
) -> Result<Option<Expected>, OutOfMemory>
    ensures parts { OnOk result (parts.new ≡ parts.old ++ (spec.word_in word.now).0) }
    ensures next { IfOk result (λ next. next ≡ (spec.word_in word.now).1) }
{
    match behind_dash(word) {
        Some(text) => {
            if begins_with_dash(text.as_bytes()) {
                read_long(alloc, word, parts)
            } else {
                read_letters(alloc, text, parts)
            }
        }
        None => {
            parts.push(Part::Target(Text::of(alloc, word)?))?;
            Ok(Some(Expected::Word))
        }
    }
}
