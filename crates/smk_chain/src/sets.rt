//! Sets of paths.

ghost use Rattle.std.specs.Prelude.{◌≡◌, ◌||◌, IfOk, OnOk, bytes_eq};
ghost use Rattle.std.specs.BTreeSet.{contains_text};
ghost use Rattle.smk_world.specs.Trees.{Path, among};

use smk_base::{OutOfMemory, PathText};
use std::alloc::Global;
use std::collections::BTreeSet;

/// Adds the path. `OutOfMemory` where there is no memory for it.
pub fn put(alloc: Global, set: &mut BTreeSet<String>, path: &PathText) -> Result<(), OutOfMemory>
    ensures { OnOk result ((q : Path) → contains_text set.new q ≡ (bytes_eq q path.now || contains_text set.old q)) }
{
    let text = String::from_str(alloc, path.as_str())?;
    set.insert(text)?;
    Ok(())
}

/// The set of the paths. `OutOfMemory` where there is no memory for it.
pub fn set_of(alloc: Global, paths: &[PathText]) -> Result<BTreeSet<String>, OutOfMemory>
    ensures { IfOk result (λ set. (q : Path) → contains_text set q ≡ among paths.now q) }
{
    let mut set = BTreeSet::new(alloc);
    for path in paths {
        put(alloc, &mut set, path)?;
    }
    Ok(set)
}
