//! Read-only files in the way of outputs.

ghost use Rattle.std.specs.Prelude.{◌≡◌, filter, option_map};
ghost use Rattle.smk_world.specs.Trees.{first};
ghost use Rattle.smk_plan_table.specs.Parts.{shown, is_guarded_in};

use smk_base::PathText;
use smk_plan::Told;

/// Whether a read-only file was seen at the path or under it.
pub(crate) fn is_guarded<T: Told>(told: &T, path: &PathText) -> bool
    ensures { result ≡ is_guarded_in (T.seen told.now) path.now }
{
    match told.sight(path) {
        Some(sight) => sight.guarded,
        None => false,
    }
}

/// The first of these paths at or under which a read-only file was seen.
pub(crate) fn first_guarded<'p, T: Told>(told: &T, paths: &[&'p PathText]) -> Option<&'p PathText>
    ensures { option_map (λ p. p.now) result ≡ first (filter (is_guarded_in (T.seen told.now)) (shown paths.now)) }
{
    for path in paths {
        if is_guarded(told, path) {
            return Some(path);
        }
    }
    None
}
