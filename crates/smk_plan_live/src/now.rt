//! What is known and was seen of paths now.

ghost use Rattle.std.specs.Prelude.{◌≡◌, ◌∷◌, Some, is_some, option_map, IfOk};
ghost use Rattle.std.specs.BTreeMap.{get_by_text};
ghost use Rattle.std.specs.List.{slice_get, list_any};
ghost use Rattle.smk_world.specs.World.{folders_above};
ghost use Rattle.smk_store.specs.Images.{stands};
ghost use Rattle.smk_plan.specs.States.{test_some};
ghost use Rattle.smk_trigger.specs.JobStates.{is_restore};
ghost use Rattle.smk_plan_live.specs.Now.{joined, row_by, row_at, entry_now, own_sight, seen_before, sight_now, restored_now, is_left, settled, settled_now};

use crate::base::Base;
use crate::sites::Site;
use crate::slots::Slots;
use smk_base::{OutOfMemory, PathText};
use smk_choose::folders_above;
use smk_plan::{Sight, Told};
use smk_store::{Entry, Kept};
use smk_trigger::State;
use std::alloc::Global;
use std::collections::BTreeMap;

// What the row has in the place.
fn in_row<T>(row: &[Option<T>], place: usize) -> Option<&T>
    ensures { option_map (λ e. e.now) result ≡ joined (slice_get row.now place) }
{
    match row.get(place) {
        None => None,
        Some(found) => found.as_ref(),
    }
}

// What the row has in the place, where there is a row, and else what was told before.
fn row_by<'r, T>(
    row: Option<&'r Slots<Option<T>>>,
    place: usize,
    before: Option<&'r T>,
) -> Option<&'r T>
    ensures { option_map (λ e. e.now) result ≡ row_by (option_map (λ r. r.now) row.entry) place (option_map (λ e. e.now) before.entry) }
{
    match row {
        None => before,
        Some(row) => in_row(row.as_slice(), place),
    }
}

// What the rows have at the site, and else what was told before.
fn row_at<'r, T>(
    rows: &'r Slots<Option<Slots<Option<T>>>>,
    site: Option<&Site>,
    before: Option<&'r T>,
) -> Option<&'r T>
    ensures { option_map (λ e. e.now) result ≡ row_at rows.now (option_map (λ s. s.now) site.entry) (option_map (λ e. e.now) before.entry) }
{
    match site {
        None => before,
        Some(site) => row_by(in_row(rows.as_slice(), site.job), site.place, before),
    }
}

/// Where the path stands as an output.
pub(crate) fn site_of<'s>(base: &'s Base, path: &PathText) -> Option<&'s Site>
    ensures { option_map (λ s. s.now) result ≡ get_by_text base.now.sites path.now }
{
    base.sites.get(path.as_str())
}

/// What is known of the path, as it came.
pub(crate) fn entry_now<'e>(base: &'e Base, path: &PathText) -> Option<&'e Entry>
    ensures { option_map (λ e. e.now) result ≡ entry_now base.now path.now }
{
    row_at(&base.entries, site_of(base, path), base.store.entry(path))
}

// What came later.
fn later_at<'s>(later: &'s BTreeMap<String, Sight>, path: &PathText) -> Option<&'s Sight>
    ensures { option_map (λ s. s.now) result ≡ get_by_text later.now path.now }
{
    later.get(path.as_str())
}

/// What was seen at the path as the plan began or new jobs came.
pub(crate) fn seen_before<'s>(base: &'s Base, path: &PathText) -> Option<&'s Sight>
    ensures { option_map (λ s. s.now) result ≡ seen_before base.now path.now }
{
    match later_at(&base.later, path) {
        Some(sight) => Some(sight),
        None => base.seen.sight(path),
    }
}

// The sight, where it is one of the path.
fn own_sight<'s>(path: &PathText, sight: Option<&'s Sight>) -> Option<&'s Sight>
    ensures { option_map (λ s. s.now) result ≡ own_sight path.now (option_map (λ s. s.now) sight.entry) }
{
    match sight {
        None => None,
        Some(sight) => {
            if sight.path.as_str() == path.as_str() {
                Some(sight)
            } else {
                None
            }
        }
    }
}

/// What was seen last at the path.
pub(crate) fn sight_now<'s>(base: &'s Base, path: &PathText) -> Option<&'s Sight>
    ensures { option_map (λ s. s.now) result ≡ sight_now base.now path.now }
{
    own_sight(
        path,
        row_at(&base.sights, site_of(base, path), seen_before(base, path)),
    )
}

// Whether it is a Restore.
fn is_restore(state: &State) -> bool
    ensures { result ≡ is_restore state.now }
{
    matches!(state, State::Restore)
}

// Whether the job of the site runs as a Restore.
fn restores_at(began: &[Option<State>], site: &Site) -> bool
    ensures { result ≡ test_some is_restore (joined (slice_get began.now site.now.job)) }
{
    match in_row(began, site.job) {
        None => false,
        Some(state) => is_restore(state),
    }
}

// Whether the path is an output of a job whose child runs as a Restore.
fn restored_now(base: &Base, path: &PathText) -> bool
    ensures { result ≡ restored_now base.now path.now }
{
    match site_of(base, path) {
        None => false,
        Some(site) => restores_at(base.began.as_slice(), site),
    }
}

// Whether a record stands there.
fn stands(kept: &Kept) -> bool
    ensures { result ≡ stands kept.now }
{
    match kept {
        Kept::Absent => false,
        Kept::Unreadable => true,
        Kept::Held(_) => true,
    }
}

// Whether a record, a mark that counts, or a note is there.
fn is_left(restored: bool, entry: &Entry) -> bool
    ensures { result ≡ is_left restored entry.now }
{
    stands(&entry.kept) || (entry.marked && !restored) || entry.noted
}

// What is kept, where something is left.
fn kept_left(restored: bool, entry: &Entry) -> Option<&Kept>
    ensures { option_map (λ k. k.now) result ≡ option_map (λ e. e.kept) (settled restored (Some entry.now)) }
{
    if is_left(restored, entry) {
        return Some(&entry.kept);
    }
    None
}

// What is kept of the path now.
fn kept_now<'k>(base: &'k Base, path: &PathText) -> Option<&'k Kept>
    ensures { option_map (λ k. k.now) result ≡ option_map (λ e. e.kept) (settled_now base.now path.now) }
{
    match entry_now(base, path) {
        None => None,
        Some(entry) => kept_left(restored_now(base, path), entry),
    }
}

// Whether the path has a mark that counts.
fn marked_now(base: &Base, path: &PathText) -> bool
    ensures { result ≡ test_some (λ e. e.marked) (settled_now base.now path.now) }
{
    match entry_now(base, path) {
        None => false,
        Some(entry) => entry.marked && !restored_now(base, path),
    }
}

// Whether something is known of the path now.
fn is_known(base: &Base, path: &PathText) -> bool
    ensures { result ≡ is_some (settled_now base.now path.now) }
{
    match entry_now(base, path) {
        None => false,
        Some(entry) => is_left(restored_now(base, path), entry),
    }
}

// Whether something is known of one of the paths.
fn any_known(base: &Base, paths: &[PathText]) -> bool
    ensures { result ≡ list_any (λ q. is_some (settled_now base.now q)) paths.now }
{
    for path in paths {
        if is_known(base, path) {
            return true;
        }
    }
    false
}

// Whether something is known of the path or of a folder above it.
fn covered_now(alloc: Global, base: &Base, path: &PathText) -> Result<bool, OutOfMemory>
    ensures { IfOk result (λ found. found ≡ list_any (λ q. is_some (settled_now base.now q)) (path.now ∷ folders_above path.now)) }
{
    if is_known(base, path) {
        return Ok(true);
    }
    let folders = folders_above(alloc, path)?;
    Ok(any_known(base, folders.as_slice()))
}

impl Told for Base {
    ghost use Rattle.smk_plan_live.specs.Now.{known_now, seen_now};

    ghost known = { known_now };

    ghost seen = { seen_now };

    fn kept(&self, path: &PathText) -> Option<&Kept> {
        kept_now(self, path)
    }

    fn marked(&self, path: &PathText) -> bool {
        marked_now(self, path)
    }

    fn covered(&self, alloc: Global, path: &PathText) -> Result<bool, OutOfMemory> {
        covered_now(alloc, self, path)
    }

    fn sight(&self, path: &PathText) -> Option<&Sight> {
        sight_now(self, path)
    }
}
