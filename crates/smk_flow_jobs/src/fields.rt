//! Texts that aren't read as patterns, with the names in their braces filled.

ghost use Rattle.std.specs.Prelude.{◌≡◌, ◌++◌, ◌∷◌, [], true, map, option_map, IfOk};
ghost use Rattle.smk_pattern.specs.Reading.{fill_words};
ghost use Rattle.smk_flow.specs.Begun.{lacks, from_brace};

use crate::filling::value_of;
use smk_base::{List, OutOfMemory, Pair, Text};
use smk_flow::names::is_name;
use std::alloc::Global;

// What stands before the first brace that opens, and what stands behind it.
fn cut(text: &str) -> (&str, Option<&str>)
    ensures text { text.now ≡ result.0.now ++ from_brace (option_map (λ t. t.now) result.1) }
    ensures lacks { lacks 123 result.0.now ≡ true }
{
    match text.split_once('{') {
        Some((front, behind)) => (front, Some(behind)),
        None => (text, None),
    }
}

// What an opened brace stands for with what follows it, in which no other brace opens: the value of a name and what is behind that,
// or itself.
fn braced<'t>(segment: &'t str, binding: &'t [Pair]) -> (&'t str, &'t str)
    requires { lacks 123 segment.now ≡ true }
    ensures { result.0.now ++ result.1.now ≡ fill_words binding.now (123 ∷ segment.now) }
{
    match segment.split_once('}') {
        Some((name, behind)) => {
            if is_name(name) {
                (value_of(binding, name), behind)
            } else {
                ("{", segment)
            }
        }
        None => ("{", segment),
    }
}

// The text with each `{NAME}` replaced by the value of the name. Every other brace stands for itself.
pub(crate) fn with_fields(alloc: Global, text: &str, binding: &[Pair]) -> Result<Text, OutOfMemory>
    ensures { IfOk result (λ made. made ≡ fill_words binding.now text.now) }
{
    let (front, mut rest) = cut(text);
    let mut made = String::from_str(alloc, front)?;
    'braces: while let Some(behind) = rest {
        let (segment, later) = cut(behind);
        let (value, plain) = braced(segment, binding);
        made.push_str(value)?;
        made.push_str(plain)?;
        rest = later;
    }
    Text::of(alloc, made.as_str())
}

// The texts with their names filled.
pub(crate) fn all_with_fields(
    alloc: Global,
    texts: &[Text],
    binding: &[Pair],
) -> Result<List<Text>, OutOfMemory>
    ensures { IfOk result (λ made. made ≡ map (fill_words binding.now) texts.now) }
{
    let mut made = List::new(alloc);
    for text in texts {
        made.push(with_fields(alloc, text.as_str(), binding)?)?;
    }
    Ok(made)
}
