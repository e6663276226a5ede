//! Which jobs stand in one line.

ghost use Rattle.std.specs.Prelude.{◌≡◌, ◌<◌, length, map, slice_get, replicate, IfOk, OnOk, IfSome};
ghost use Rattle.smk_core.specs.declared.place.Kind.{Kind as Row};
ghost use Rattle.smk_core.specs.declared.place.TheConstants.{NONE as none};
ghost use Rattle.smk_core.specs.Lines.{ArePlaced, IsKindOf, OpensLine, AddsPlace};

use crate::alike::{is_same, spelled};
use crate::place::{Kind, Place};
use crate::tournament::Tournament;
use smk_base::OutOfMemory;
use smk_pick::Ask;
use std::alloc::Global;
use std::collections::BTreeMap;

// The line that was found, where its first job asks for just this.
fn confirmed(asks: &[Ask], kinds: &[Kind], ask: &Ask, found: Option<usize>) -> Option<usize>
    ensures { IfSome result (IsKindOf asks.now kinds.now ask.now) }
{
    let Some(line) = found else {
        return None;
    };
    let Some(kind) = kinds.get(line) else {
        return None;
    };
    let Some(first) = asks.get(kind.first) else {
        return None;
    };
    if is_same(first, ask) {
        Some(line)
    } else {
        None
    }
}

// The line of the jobs that ask for the same, a new one where there is none.
fn line_of(
    alloc: Global,
    known: &mut BTreeMap<String, usize>,
    kinds: &mut Vec<Kind>,
    asks: &[Ask],
    job: usize,
    ask: &Ask,
) -> Result<usize, OutOfMemory>
    requires { slice_get asks.now job ≡ Some ask.now }
    ensures { IfOk result (λ line. OpensLine kinds.old.items kinds.new.items × IsKindOf asks.now kinds.new.items ask.now line) }
{
    let key = spelled(alloc, ask)?;
    let found = known.get(key.as_str()).copied();
    if let Some(line) = confirmed(asks, kinds.as_slice(), ask, found) {
        return Ok(line);
    }
    let line = kinds.len();
    kinds.push(Kind {
        first: job,
        size: 0,
    })?;
    known.insert(key, line)?;
    Ok(line)
}

// The next job stands behind all that are in the line.
fn add(kinds: &mut Vec<Kind>, places: &mut Vec<Place>, line: usize) -> Result<(), OutOfMemory>
    requires { line < length kinds.old.items }
    ensures { OnOk result (AddsPlace line kinds.old.items kinds.new.items places.old.items places.new.items) }
{
    let kind = kinds[line];
    let Some(size) = kind.size.checked_add(1) else {
        return Err(OutOfMemory);
    };
    places.push(Place {
        line,
        at: kind.size,
    })?;
    kinds[line] = Kind {
        first: kind.first,
        size,
    };
    Ok(())
}

/// The lines that the jobs with these asks stand in, and each one's place. `OutOfMemory` where there is no memory for them.
pub(crate) fn places_of(alloc: Global, asks: &[Ask]) -> Result<(Vec<Kind>, Vec<Place>), OutOfMemory>
    ensures placed { IfOk result (λ made. ArePlaced asks.now made.0.items made.1.items) }
    ensures each { IfOk result (λ made. length made.1.items ≡ length asks.now) }
{
    let mut known = BTreeMap::new(alloc);
    let mut kinds = Vec::new(alloc);
    let mut places = Vec::new(alloc);
    for (job, ask) in asks.iter().enumerate() {
        let line = line_of(alloc, &mut known, &mut kinds, asks, job, ask)?;
        add(&mut kinds, &mut places, line)?;
    }
    Ok((kinds, places))
}

/// Lines with as many places as there are jobs in each, none of which has a number. `OutOfMemory` where there is no memory for them.
pub(crate) fn lines_of(alloc: Global, kinds: &[Kind]) -> Result<Vec<Tournament>, OutOfMemory>
    ensures { IfOk result (λ lines. lines.items ≡ map (λ (k : Row). replicate k.size none) kinds.now) }
{
    let mut lines = Vec::new(alloc);
    for kind in kinds {
        lines.push(Tournament::new(alloc, kind.size)?)?;
    }
    Ok(lines)
}
