//! Which paths are sources.

ghost use Rattle.std.specs.Prelude.{◌≡◌, ℕ, List as Items, None, Some, OnOk, OnErr, bytes_eq, if◌then◌else◌};

use smk_base::{OutOfMemory, PathText};
use std::alloc::Global;
use std::collections::BTreeMap;

/// Whether a path is a source, and whether it holds one.
#[derive(Clone, Copy, PartialEq, Eq)]
pub struct Standing {
    pub source: bool,
    pub holds: bool,
}

/// What is known of some paths; any other path is no source and holds none.
#[derive(Drop)]
pub struct Sources {
    alloc: Global,
    standings: BTreeMap<String, Standing>,
}

impl Sources {
    ghost use Rattle.smk_choose.specs.Told.{standing_of, told_by};

    /// Nothing is known of any path. It takes no memory until a path is added.
    pub fn new(alloc: Global) -> Sources
        ensures { (q : Items ℕ) → standing_of result q ≡ None }
    {
        Sources {
            alloc,
            standings: BTreeMap::new(alloc),
        }
    }

    /// Adds whether the path is a source, and whether it holds one. `OutOfMemory` where there is no memory for it: nothing is
    /// changed then.
    pub fn add(&mut self, path: PathText, source: bool, holds: bool) -> Result<(), OutOfMemory>
        ensures ok { OnOk result ((q : Items ℕ) → standing_of self.new q
            ≡ (if bytes_eq path q then Some (record { source = source; holds = holds }) else standing_of self.old q)) }
        ensures err { OnErr result ((q : Items ℕ) → standing_of self.new q ≡ standing_of self.old q) }
    {
        let key = String::from_str(self.alloc, path.as_str())?;
        self.standings.insert(key, Standing { source, holds })?;
        Ok(())
    }

    /// What is known of the path. None where nothing was added of it.
    pub fn standing(&self, path: &PathText) -> Option<Standing>
        ensures { result ≡ standing_of self.now path.now }
    {
        match self.standings.get(path.as_str()) {
            Some(standing) => Some(*standing),
            None => None,
        }
    }

    /// Whether the path is a source.
    pub fn is(&self, path: &PathText) -> bool
        ensures { result ≡ (told_by self.now).is path.now }
    {
        match self.standings.get(path.as_str()) {
            Some(standing) => standing.source,
            None => false,
        }
    }

    /// Whether a source equals the path, lies under it or has it under itself.
    pub fn holds(&self, path: &PathText) -> bool
        ensures { result ≡ (told_by self.now).holds path.now }
    {
        match self.standings.get(path.as_str()) {
            Some(standing) => standing.holds,
            None => false,
        }
    }
}
