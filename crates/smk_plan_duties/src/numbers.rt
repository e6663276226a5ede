//! Which job makes a path.

ghost use Rattle.std.specs.Prelude.{◌≡◌, Some, IfOk, OnOk, bytes_eq, if◌then◌else◌};
ghost use Rattle.std.specs.BTreeMap.{get_by_text};
ghost use Rattle.smk_world.specs.Trees.{Path};
ghost use Rattle.smk_plan_duties.specs.Numbers.{number_at, HasNumbers};

use smk_base::{OutOfMemory, PathText};
use smk_chain::Maker;
use std::alloc::Global;
use std::collections::BTreeMap;

// Notes which job makes the path.
fn put(
    alloc: Global,
    numbers: &mut BTreeMap<String, Option<u32>>,
    maker: &Maker,
) -> Result<(), OutOfMemory>
    ensures { OnOk result ((q : Path) → get_by_text numbers.new q ≡ (if bytes_eq maker.now.path q then Some maker.now.job else get_by_text numbers.old q)) }
{
    let key = String::from_str(alloc, maker.path.as_str())?;
    numbers.insert(key, maker.job)?;
    Ok(())
}

/// The numbers of the jobs by the paths that they make, none for a source. `OutOfMemory` where a growth finds no memory.
pub fn numbers_of(
    alloc: Global,
    makers: &[Maker],
) -> Result<BTreeMap<String, Option<u32>>, OutOfMemory>
    ensures { IfOk result (HasNumbers makers.now) }
{
    let mut numbers = BTreeMap::new(alloc);
    let mut rest = makers;
    'numbers: while let Some((last, before)) = rest.split_last() {
        put(alloc, &mut numbers, last)?;
        rest = before;
    }
    Ok(numbers)
}

/// The number of the job that makes the path; none for a source.
pub fn number_of(numbers: &BTreeMap<String, Option<u32>>, path: &PathText) -> Option<u32>
    ensures { result ≡ number_at numbers.now path.now }
{
    match numbers.get(path.as_str()) {
        Some(number) => *number,
        None => None,
    }
}
