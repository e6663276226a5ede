//! Which outputs are marked.

ghost use Rattle.std.specs.Prelude.{◌≡◌, ◌++◌, ◌∷◌, [], filter, IfOk, OnOk, if◌then◌else◌};
ghost use Rattle.smk_plan_table.specs.Parts.{shown, is_marked_in};

use smk_base::{List, OutOfMemory, PathText};
use smk_plan::Told;
use std::alloc::Global;

// Adds a copy of the path where this holds.
fn push_if(
    alloc: Global,
    found: &mut List<PathText>,
    holds: bool,
    path: &PathText,
) -> Result<(), OutOfMemory>
    ensures { OnOk result (found.new ≡ found.old ++ (if holds then path.now ∷ [] else [])) }
{
    if !holds {
        return Ok(());
    }
    found.push(path.copy(alloc)?)?;
    Ok(())
}

/// Those of these paths that have a mark, in order.
pub(crate) fn marked_among<T: Told>(
    alloc: Global,
    told: &T,
    paths: &[&PathText],
) -> Result<List<PathText>, OutOfMemory>
    ensures { IfOk result (λ found. found ≡ filter (is_marked_in (T.known told.now)) (shown paths.now)) }
{
    let mut found = List::new(alloc);
    for path in paths {
        let holds = told.marked(path);
        push_if(alloc, &mut found, holds, path)?;
    }
    Ok(found)
}
