//! Texts of a rule, filled, as what is wanted.

ghost use Rattle.std.specs.Prelude.{◌≡◌, ◌++◌, ◌∷◌, [], map, filter, IfOk, OnOk};
ghost use Rattle.smk_base.specs.Path.{is_path};
ghost use Rattle.smk_pattern.specs.Reading.{fill, shape_of};
ghost use Rattle.smk_choose.specs.Readings.{filled_by};
ghost use Rattle.smk_choose_wants.specs.Wants.{want_of};

use crate::Want;
use smk_base::{List, OutOfMemory, Pair, PathFault, PathText, Text};
use smk_pattern::{Binding, Pattern, fill};
use std::alloc::Global;

// The text as a pattern. The texts of a checked workflow are patterns, so nothing but memory is wanting here.
pub(crate) fn pattern_of(
    alloc: Global,
    text: &str,
    limits: &List<Pair>,
) -> Result<Pattern, OutOfMemory>
    ensures { IfOk result (λ pattern. pattern ≡ shape_of limits.now text.now) }
{
    match Pattern::read(alloc, text, limits) {
        Ok(pattern) => Ok(pattern),
        Err(_) => Err(OutOfMemory),
    }
}

// The pattern with the values of the binding. Each of its names has one in a checked workflow, so nothing but memory is wanting here.
pub(crate) fn filled_by(
    alloc: Global,
    pattern: &Pattern,
    binding: &Binding,
) -> Result<Text, OutOfMemory>
    ensures { IfOk result (λ text. text ≡ filled_by binding.now pattern.now) }
{
    match fill(alloc, pattern, binding) {
        Ok(text) => Ok(text),
        Err(_) => Err(OutOfMemory),
    }
}

/// The text with the values of the binding.
#[tactic(auto, using(crate::proofs::Composed::filled_text))]
pub(crate) fn filled(alloc: Global, text: &str, binding: &Binding) -> Result<Text, OutOfMemory>
    ensures { IfOk result (λ made. made ≡ fill binding.now text.now) }
{
    let pattern = pattern_of(alloc, text, &List::new(alloc))?;
    let made = filled_by(alloc, &pattern, binding)?;
    Ok(made)
}

/// The texts, filled.
pub(crate) fn all_filled(
    alloc: Global,
    texts: &[Text],
    binding: &Binding,
) -> Result<List<Text>, OutOfMemory>
    ensures { IfOk result (λ made. made ≡ map (fill binding.now) texts.now) }
{
    let mut made = List::new(alloc);
    for text in texts {
        made.push(filled(alloc, text.as_str(), binding)?)?;
    }
    Ok(made)
}

// The text as what is wanted.
#[tactic(auto, using(crate::proofs::Composed::want_path, crate::proofs::Composed::want_none))]
fn want_of(alloc: Global, text: Text) -> Result<Want, OutOfMemory>
    ensures { IfOk result (λ made. made ≡ want_of text) }
{
    match PathText::read(alloc, text.as_str()) {
        Ok(path) => Ok(Want::Path(path)),
        Err(PathFault::BadPath) => Ok(Want::NoPath(text)),
        Err(PathFault::OutOfMemory) => Err(OutOfMemory),
    }
}

/// Adds what is wanted by this text.
pub(crate) fn add_want(alloc: Global, found: &mut List<Want>, text: Text) -> Result<(), OutOfMemory>
    ensures { OnOk result (found.new ≡ found.old ++ want_of text ∷ []) }
{
    found.push(want_of(alloc, text)?)?;
    Ok(())
}

/// Adds what is wanted by these texts.
pub(crate) fn add_wants(
    alloc: Global,
    found: &mut List<Want>,
    texts: &[Text],
) -> Result<(), OutOfMemory>
    ensures { OnOk result (found.new ≡ found.old ++ map want_of texts.now) }
{
    for text in texts {
        add_want(alloc, found, text.copy(alloc)?)?;
    }
    Ok(())
}

// Adds the text where it is a path.
fn add_path(alloc: Global, paths: &mut List<PathText>, text: &Text) -> Result<(), OutOfMemory>
    ensures { OnOk result (paths.new ≡ paths.old ++ filter is_path (text.now ∷ [])) }
{
    match PathText::read(alloc, text.as_str()) {
        Ok(path) => {
            paths.push(path)?;
            Ok(())
        }
        Err(PathFault::BadPath) => Ok(()),
        Err(PathFault::OutOfMemory) => Err(OutOfMemory),
    }
}

/// Those of the texts that are paths.
pub(crate) fn paths_of(alloc: Global, texts: &[Text]) -> Result<List<PathText>, OutOfMemory>
    ensures { IfOk result (λ made. made ≡ filter is_path texts.now) }
{
    let mut made = List::new(alloc);
    for text in texts {
        add_path(alloc, &mut made, text)?;
    }
    Ok(made)
}
