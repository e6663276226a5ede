//! Whether all that no job makes was seen as sources.

ghost use Rattle.std.specs.Prelude.{◌≡◌, true, IfOk};
ghost use Rattle.std.specs.List.{list_all};
ghost use Rattle.smk_world.specs.Trees.{is_path_text};
ghost use Rattle.smk_plan_table.specs.Parts.{is_file_in};
ghost use Rattle.smk_laws_begins.specs.Sources as spec;

use smk_base::{OutOfMemory, PathText};
use smk_chain::Maker;
use smk_plan::Told;
use smk_world::Stat;
use std::alloc::Global;

// Whether a file was seen at the path.
fn is_file<T: Told>(told: &T, path: &PathText) -> bool
    ensures { result ≡ is_file_in (T.seen told.now) path.now }
{
    match told.sight(path) {
        Some(sight) => matches!(sight.stat, Stat::File { .. }),
        None => false,
    }
}

// The text of the path, which is one as it stands in a contract.
fn text_of(path: &PathText) -> &str
    ensures same { result.now ≡ path.now }
    ensures text { is_path_text path.now ≡ true }
{
    path.as_str()
}

// Whether a file was seen at the path, and nothing that is known covers it.
fn is_seen_source<T: Told>(alloc: Global, told: &T, path: &PathText) -> Result<bool, OutOfMemory>
    ensures { IfOk result (λ seen. seen ≡ spec.is_seen_source (T.known told.now) (T.seen told.now) path.now) }
{
    let _text = text_of(path);
    if !is_file(told, path) {
        return Ok(false);
    }
    let is_covered = told.covered(alloc, path)?;
    Ok(!is_covered)
}

// Whether a job makes the path of the maker, or it was seen as a source.
fn is_made_or_seen<T: Told>(alloc: Global, told: &T, maker: &Maker) -> Result<bool, OutOfMemory>
    ensures { IfOk result (λ found. found ≡ spec.is_made_or_seen (T.known told.now) (T.seen told.now) maker.now) }
{
    match maker.job {
        Some(_) => Ok(true),
        None => is_seen_source(alloc, told, &maker.path),
    }
}

/// Whether so it is of each of them. `OutOfMemory` where there is no memory to tell it.
pub(crate) fn are_made_or_seen<T: Told>(
    alloc: Global,
    told: &T,
    makers: &[Maker],
) -> Result<bool, OutOfMemory>
    ensures { IfOk result (λ found. found ≡ list_all (spec.is_made_or_seen (T.known told.now) (T.seen told.now)) makers.now) }
{
    for maker in makers {
        let is_sound = is_made_or_seen(alloc, told, maker)?;
        if !is_sound {
            return Ok(false);
        }
    }
    Ok(true)
}
