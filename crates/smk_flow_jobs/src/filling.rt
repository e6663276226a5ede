//! Texts of a rule, filled by a binding.

ghost use Rattle.std.specs.Prelude.{◌≡◌, ◌≢◌, ◌∷◌, [], Some, None, map, IfOk, IfErr, OnOk};
ghost use Rattle.smk_pattern.specs.Reading.{fill, value, or_empty, shape_of};
ghost use Rattle.smk_flow.specs.declared.fault.JobFault.{JobFault};
ghost use Rattle.smk_flow.specs.Jobs.{path_fault};

use smk_base::{List, OutOfMemory, Pair, PathFault, PathText, Text};
use smk_flow::JobFault;
use smk_pattern::{Binding, Pattern, fill};
use std::alloc::Global;

// The value of the name, where it has one.
pub(crate) fn value_of<'b>(binding: &'b [Pair], name: &str) -> &'b str
    ensures { result.now ≡ or_empty (value binding.now name.now) }
{
    for pair in binding {
        if pair.name.as_str() == name {
            return pair.value.as_str();
        }
    }
    ""
}

// The text as a pattern. The texts of a checked workflow are patterns, so nothing but memory is wanting here.
pub(crate) fn pattern_of(
    alloc: Global,
    text: &str,
    limits: &List<Pair>,
) -> Result<Pattern, OutOfMemory>
    ensures { IfOk result (λ pattern. pattern ≡ shape_of limits.now text.now) }
{
    match Pattern::read(alloc, text, limits) {
        Ok(pattern) => Ok(pattern),
        Err(_) => Err(OutOfMemory),
    }
}

// The text with each wildcard replaced by its value. Each has one, since the texts of a checked workflow have no other names. The text is
// read anew, so a constraint that stands in it is compiled anew; those that are given for names aren't looked at.
pub(crate) fn filled(alloc: Global, text: &str, binding: &Binding) -> Result<Text, OutOfMemory>
    ensures { IfOk result (λ made. made ≡ fill binding.now text.now) }
{
    let pattern = pattern_of(alloc, text, &List::new(alloc))?;
    match fill(alloc, &pattern, binding) {
        Ok(made) => Ok(made),
        Err(_) => Err(OutOfMemory),
    }
}

// The text, filled, as a path.
pub(crate) fn path_of(alloc: Global, text: &str, binding: &Binding) -> Result<PathText, JobFault>
    ensures path { IfOk result (λ path. path ≡ fill binding.now text.now) }
    ensures is { OnOk result (path_fault (fill binding.now text.now ∷ []) ≡ None) }
    ensures not { IfErr result (λ f. f ≢ JobFault.OutOfMemory → path_fault (fill binding.now text.now ∷ []) ≡ Some f) }
{
    let made = filled(alloc, text, binding)?;
    match PathText::read(alloc, made.as_str()) {
        Ok(path) => Ok(path),
        Err(PathFault::BadPath) => Err(JobFault::NotPath(made)),
        Err(PathFault::OutOfMemory) => Err(JobFault::OutOfMemory),
    }
}

// The texts, filled, as paths.
pub(crate) fn paths_of(
    alloc: Global,
    texts: &[Text],
    binding: &Binding,
) -> Result<List<PathText>, JobFault>
    ensures paths { IfOk result (λ paths. paths ≡ map (fill binding.now) texts.now) }
    ensures are { OnOk result (path_fault (map (fill binding.now) texts.now) ≡ None) }
    ensures not { IfErr result (λ f. f ≢ JobFault.OutOfMemory → path_fault (map (fill binding.now) texts.now) ≡ Some f) }
{
    let mut paths = List::new(alloc);
    for text in texts {
        match path_of(alloc, text.as_str(), binding) {
            Ok(path) => paths.push(path)?,
            Err(fault) => return Err(fault),
        }
    }
    Ok(paths)
}
