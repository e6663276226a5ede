//! Which targets are current.

ghost use Rattle.std.specs.Prelude.{◌≡◌, ◌&&◌, true, IfOk};
ghost use Rattle.smk_world.specs.Trees.{is_path_text};
ghost use Rattle.smk_plan_table.specs.Parts.{current_in, first_flag, first_source, is_file_in, is_source_seen, later_flags, later_targets};

use smk_base::{List, OutOfMemory, PathText};
use smk_plan::Told;
use smk_plan_states::Target;
use smk_world::Stat;
use std::alloc::Global;

// Whether a file was seen at the path.
fn is_file<T: Told>(told: &T, path: &PathText) -> bool
    ensures { result ≡ is_file_in (T.seen told.now) path.now }
{
    match told.sight(path) {
        Some(sight) => matches!(sight.stat, Stat::File { .. }),
        None => false,
    }
}

// Looks at the path, which tells that it is one as a text.
fn see_text(path: &PathText)
    ensures { is_path_text path.now ≡ true }
{
    // The call tells it.
    let _text = path.as_str();
}

// Whether the path is told of as a source, a file was seen there, and nothing covers it.
fn is_source<T: Told>(
    alloc: Global,
    told: &T,
    path: &PathText,
    is_told: bool,
) -> Result<bool, OutOfMemory>
    ensures { IfOk result (λ found. found ≡ (is_told && is_source_seen (T.known told.now) (T.seen told.now) path.now)) }
{
    see_text(path);
    if !is_told {
        return Ok(false);
    }
    if !is_file(told, path) {
        return Ok(false);
    }
    let is_covered = told.covered(alloc, path)?;
    Ok(!is_covered)
}

// The first of the flags, false where there is none, and those after it.
fn next_flag(flags: &[bool]) -> (bool, &[bool])
    ensures first { result.0 ≡ first_flag flags.now }
    ensures later { result.1.now ≡ later_flags flags.now }
{
    match flags.split_first() {
        Some((flag, later)) => (*flag, later),
        None => (false, flags),
    }
}

// Whether the first of the targets is told of as a source, false where there is none; and those after it.
fn next_target(targets: &[Target]) -> (bool, &[Target])
    ensures first { result.0 ≡ first_source targets.now }
    ensures later { result.1.now ≡ later_targets targets.now }
{
    match targets.split_first() {
        Some((target, later)) => (target.source, later),
        None => (false, targets),
    }
}

/// For each of these paths of targets whether it is a source, or ready.
pub(crate) fn current<T: Told>(
    alloc: Global,
    told: &T,
    paths: &[PathText],
    targets: &[Target],
    ready: &[bool],
) -> Result<List<bool>, OutOfMemory>
    ensures { IfOk result (λ found. found ≡ current_in (T.known told.now) (T.seen told.now) paths.now targets.now ready.now) }
{
    let mut found = List::new(alloc);
    let mut other_targets = targets;
    let mut other_flags = ready;
    for path in paths {
        let (is_told, later_targets) = next_target(other_targets);
        let (is_ready, later_flags) = next_flag(other_flags);
        let is_source = is_source(alloc, told, path, is_told)?;
        found.push(is_source || is_ready)?;
        other_targets = later_targets;
        other_flags = later_flags;
    }
    Ok(found)
}
