//! Who tells what is known and seen of paths.

ghost use Rattle.std.specs.Prelude.{◌≡◌, option_map, IfOk};
ghost use Rattle.smk_store.specs.Stores.{entry_of, is_covered_in};
ghost use Rattle.smk_plan.specs.Sights.{sight_at};
ghost use Rattle.smk_plan.specs.States.{test_some};

use crate::{Seen, Sight};
use smk_base::{OutOfMemory, PathText};
use smk_store::{Kept, Store};
use std::alloc::Global;

/// Tells what is known of paths and what was seen at them.
pub trait Told {
    ghost use Rattle.std.specs.Prelude.{List as Items};
    ghost use Rattle.smk_store.specs.Stores.{Known};
    ghost use Rattle.smk_plan.specs.declared.seen.Sight.{Sight as SightValue};

    /// What is known of paths.
    ghost known: { Self → Items Known };

    /// What was seen at paths.
    ghost seen: { Self → Items SightValue };

    /// What is kept of the path. None where nothing is known of it.
    fn kept(&self, path: &PathText) -> Option<&Kept>
        ensures { option_map (λ k. k.now) result ≡ option_map (λ e. e.kept) (entry_of (known self.now) path.now) };

    /// Whether the path has a mark.
    fn marked(&self, path: &PathText) -> bool
        ensures { result ≡ test_some (λ e. e.marked) (entry_of (known self.now) path.now) };

    /// Whether something is known of the path or of a folder above it. `OutOfMemory` where there is no memory to tell it.
    fn covered(&self, alloc: Global, path: &PathText) -> Result<bool, OutOfMemory>
        ensures { IfOk result (λ found. found ≡ is_covered_in (known self.now) path.now) };

    /// What was seen at the path. None where nothing was looked at there.
    fn sight(&self, path: &PathText) -> Option<&Sight>
        ensures { option_map (λ s. s.now) result ≡ sight_at (seen self.now) path.now };
}

/// A store that was loaded, and what was seen.
#[derive(Clone, Copy)]
pub struct Loaded<'s> {
    pub store: &'s Store,
    pub seen: &'s Seen,
}

impl<'s> Told for Loaded<'s> {
    ghost known = { λ loaded. loaded.store.now };

    ghost seen = { λ loaded. loaded.seen.now };

    fn kept(&self, path: &PathText) -> Option<&Kept> {
        match self.store.entry(path) {
            None => None,
            Some(entry) => Some(&entry.kept),
        }
    }

    fn marked(&self, path: &PathText) -> bool {
        match self.store.entry(path) {
            None => false,
            Some(entry) => entry.marked,
        }
    }

    fn covered(&self, _: Global, path: &PathText) -> Result<bool, OutOfMemory> {
        Ok(self.store.covered(path))
    }

    fn sight(&self, path: &PathText) -> Option<&Sight> {
        self.seen.sight(path)
    }
}
