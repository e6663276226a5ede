//! What stands from earlier runs in the way of an output or a log.

ghost use Rattle.std.specs.Prelude.{◌≡◌, IfOk, filter, option_map, bytes_eq, true, false};
ghost use Rattle.std.specs.BTreeSet.{contains_text};
ghost use Rattle.smk_world.specs.Trees.{Path, among, first};
ghost use Rattle.smk_chain_derive.specs.Clashes.{paths_in, has_record_or_mark_in, blocks_output, blocks_log, hinders_in};

use crate::lookup::has_other;
use crate::spot::Spot;
use smk_base::{OutOfMemory, PathText};
use smk_store::{Entry, Kept, Store};
use std::alloc::Global;
use std::collections::BTreeSet;

// Whether a record or a mark stands.
fn has_record_or_mark(entry: &Entry) -> bool
    ensures { result ≡ has_record_or_mark_in entry.now }
{
    match &entry.kept {
        Kept::Absent => entry.marked,
        Kept::Unreadable => true,
        Kept::Held(_) => true,
    }
}

// Whether what is known of a path is in the way of an output, which may be this path itself.
fn blocks_output(itself: bool, entry: Option<&Entry>) -> bool
    ensures { result ≡ blocks_output itself (option_map (λ e. e.now) entry.entry) }
{
    match entry {
        None => false,
        Some(entry) => entry.noted || (has_record_or_mark(entry) && !itself),
    }
}

// Whether it is in the way of a log.
fn blocks_log(itself: bool, entry: Option<&Entry>) -> bool
    ensures { result ≡ blocks_log itself (option_map (λ e. e.now) entry.entry) }
{
    match entry {
        None => false,
        Some(entry) => has_record_or_mark(entry) || (entry.noted && !itself),
    }
}

// Whether what the store has of the path is in the way of the output or log.
fn hinders(store: &Store, spot: &Spot, path: &PathText) -> bool
    ensures { result ≡ hinders_in store.now spot.now path.now }
{
    let itself = spot.0.as_str() == path.as_str();
    let entry = store.entry(path);
    let blocks = if spot.1 {
        blocks_output(itself, entry)
    } else {
        blocks_log(itself, entry)
    };
    spot.0.overlaps(path) && blocks
}

// The first of the paths, which is in the way by the store.
fn first_hindering(
    alloc: Global,
    store: &Store,
    spot: &Spot,
    paths: &[PathText],
) -> Result<Option<PathText>, OutOfMemory>
    ensures { IfOk result (λ other. other ≡ first (filter (hinders_in store.now spot.now) paths.now)) }
{
    for path in paths {
        if hinders(store, spot, path) {
            return Ok(Some(path.copy(alloc)?));
        }
    }
    Ok(None)
}

// Whether something in the store is in the way. It is looked up by the paths that overlap the spot.
fn is_hindered(
    alloc: Global,
    store: &Store,
    known: &BTreeSet<String>,
    spot: &Spot,
) -> Result<bool, OutOfMemory>
    requires known { (q : Path) → contains_text known.now q ≡ among (paths_in store.now) q }
    ensures { IfOk result (λ found. found ≡ false → (q : Path) → among (paths_in store.now) q ≡ true → hinders_in store.now spot.now q ≡ false) }
{
    if hinders(store, spot, &spot.0) {
        return Ok(true);
    }
    let other = has_other(alloc, known, &spot.0)?;
    Ok(other)
}

/// The first path in the store that is in the way of the output or log.
pub(crate) fn known_in(
    alloc: Global,
    store: &Store,
    known: &BTreeSet<String>,
    spot: &Spot,
) -> Result<Option<PathText>, OutOfMemory>
    requires known { (q : Path) → contains_text known.now q ≡ among (paths_in store.now) q }
    ensures { IfOk result (λ other. other ≡ first (filter (hinders_in store.now spot.now) (paths_in store.now))) }
{
    if !is_hindered(alloc, store, known, spot)? {
        return Ok(None);
    }
    let paths = store.paths();
    first_hindering(alloc, store, spot, paths.as_slice())
}
