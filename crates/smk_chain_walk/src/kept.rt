//! Heights that are known of paths.

ghost use Rattle.std.specs.Prelude.{◌≡◌, Some, None, bytes_eq, OnOk, if◌then◌else◌};
ghost use Rattle.smk_world.specs.Trees.{Path};
ghost use Rattle.smk_chain_walk.specs.Heights.{noted};

use smk_base::{OutOfMemory, PathText};
use std::alloc::Global;
use std::collections::BTreeMap;

/// The heights of the paths that are done with.
#[derive(Drop)]
pub(crate) struct Heights {
    kept: BTreeMap<String, u32>,
}

impl Heights {
    /// Nothing is known of any path.
    pub(crate) fn new(alloc: Global) -> Heights
        ensures { (q : Path) → noted result q ≡ None }
    {
        Heights {
            kept: BTreeMap::new(alloc),
        }
    }

    /// The height of the path, where it is known.
    pub(crate) fn of(&self, path: &PathText) -> Option<u32>
        ensures { result ≡ noted self.now path.now }
    {
        match self.kept.get(path.as_str()) {
            Some(height) => Some(*height),
            None => None,
        }
    }

    /// Keeps the height of the path.
    pub(crate) fn keep(
        &mut self,
        alloc: Global,
        path: &PathText,
        height: u32,
    ) -> Result<(), OutOfMemory>
        ensures { OnOk result ((q : Path) → noted self.new q ≡ (if bytes_eq path.now q then Some height else noted self.old q)) }
    {
        let key = String::from_str(alloc, path.as_str())?;
        self.kept.insert(key, height)?;
        Ok(())
    }
}
