//! What was seen as new jobs came.

ghost use Rattle.std.specs.Prelude.{◌≡◌, ◌||◌, bytes_eq, map, Some, None, IfOk, OnOk, if◌then◌else◌};
ghost use Rattle.std.specs.Option.{option_or};
ghost use Rattle.std.specs.BTreeMap.{get_by_text};
ghost use Rattle.smk_world.specs.Trees.{Path, among};
ghost use Rattle.smk_plan.specs.Sights.{sight_at};
ghost use Rattle.smk_plan_live.specs.Carried.{told_upon};

use crate::base::Base;
use crate::copies::sight_if_any;
use smk_base::{List, OutOfMemory, PathText};
use smk_plan::{Seen, Sight};
use std::alloc::Global;
use std::collections::BTreeMap;

// Keeps the sight at its path.
fn put(alloc: Global, seen: &mut BTreeMap<String, Sight>, sight: Sight) -> Result<(), OutOfMemory>
    ensures { OnOk result ((q : Path) → get_by_text seen.new q ≡ (if bytes_eq sight.path q then Some sight else get_by_text seen.old q)) }
{
    let key = String::from_str(alloc, sight.path.as_str())?;
    seen.insert(key, sight)?;
    Ok(())
}

// Keeps the sight at this path, where there is one.
#[tactic(auto, using(crate::proofs::Grown::upon_none, crate::proofs::Grown::upon_some))]
fn put_at(
    alloc: Global,
    seen: &mut BTreeMap<String, Sight>,
    path: &PathText,
    sight: Option<Sight>,
) -> Result<(), OutOfMemory>
    ensures { OnOk result ((q : Path) → get_by_text seen.new q ≡ told_upon (bytes_eq q path.now) sight (get_by_text seen.old q)) }
{
    match sight {
        None => Ok(()),
        Some(sight) => {
            let key = String::from_str(alloc, path.as_str())?;
            seen.insert(key, sight)?;
            Ok(())
        }
    }
}

// Keeps a copy of what was seen later at the path.
#[tactic(auto, using(crate::proofs::Grown::upon_at))]
fn put_again(
    alloc: Global,
    seen: &mut BTreeMap<String, Sight>,
    later: &BTreeMap<String, Sight>,
    path: &PathText,
) -> Result<(), OutOfMemory>
    ensures { OnOk result ((q : Path) → get_by_text seen.new q ≡ told_upon (bytes_eq q path.now) (get_by_text later.now q) (get_by_text seen.old q)) }
{
    let sight = sight_if_any(alloc, later.get(path.as_str()))?;
    put_at(alloc, seen, path, sight)
}

// A copy of what was seen later at these paths.
#[tactic(auto, using(crate::proofs::Grown::upon_more))]
fn later_again(
    alloc: Global,
    later: &BTreeMap<String, Sight>,
    paths: &[PathText],
) -> Result<BTreeMap<String, Sight>, OutOfMemory>
    ensures { IfOk result (λ seen. (q : Path) → get_by_text seen q ≡ told_upon (among paths.now q) (get_by_text later.now q) None) }
{
    let mut seen = BTreeMap::new(alloc);
    for path in paths {
        put_again(alloc, &mut seen, later, path)?;
    }
    Ok(seen)
}

// Keeps the sights, and their paths; of two for one path the first one counts.
#[tactic(auto, using(crate::proofs::Grown::last_sight, crate::proofs::Grown::last_path))]
fn put_fresh(
    alloc: Global,
    seen: &mut BTreeMap<String, Sight>,
    came: &mut List<PathText>,
    sights: List<Sight>,
) -> Result<(), OutOfMemory>
    ensures seen { OnOk result ((q : Path) → get_by_text seen.new q ≡ option_or (sight_at sights q) (get_by_text seen.old q)) }
    ensures came { OnOk result ((q : Path) → among came.new q ≡ (among (map (λ s. s.path) sights) q || among came.old q)) }
{
    let mut left = sights;
    'sights: while let Some(sight) = left.pop() {
        came.push(sight.path.copy(alloc)?)?;
        put(alloc, seen, sight)?;
    }
    Ok(())
}

// A copy of the paths.
fn paths_again(alloc: Global, paths: &[PathText]) -> Result<List<PathText>, OutOfMemory>
    ensures { IfOk result (λ copy. copy ≡ paths.now) }
{
    let mut copy = List::new(alloc);
    for path in paths {
        copy.push(path.copy(alloc)?)?;
    }
    Ok(copy)
}

/// What was seen as new jobs came, and the paths of this.
#[derive(Drop)]
pub(crate) struct Late {
    pub(crate) later: BTreeMap<String, Sight>,
    pub(crate) came: List<PathText>,
}

/// What was seen later, with what is fresh in the place of that.
pub(crate) fn late_of(alloc: Global, base: &Base, fresh: Seen) -> Result<Late, OutOfMemory>
    ensures later { IfOk result (λ late. (q : Path) → get_by_text late.later q ≡ option_or (sight_at fresh q) (told_upon (among base.now.came q) (get_by_text base.now.later q) None)) }
    ensures came { IfOk result (λ late. (q : Path) → among late.came q ≡ (among (map (λ s. s.path) fresh) q || among base.now.came q)) }
{
    let mut later = later_again(alloc, &base.later, base.came.as_slice())?;
    let mut came = paths_again(alloc, base.came.as_slice())?;
    put_fresh(alloc, &mut later, &mut came, fresh.into_sights())?;
    Ok(Late { later, came })
}
