//! Where the listings of directories stand.

ghost use Rattle.std.specs.Prelude.{◌≡◌, ◌<◌, length, IfOk, OnOk, bytes_eq, Some, option_map, if◌then◌else◌};
ghost use Rattle.std.specs.BTreeMap.{get_by_text};
ghost use Rattle.smk_world.specs.Trees.{Path};
ghost use Rattle.smk_chain.specs.Derive.{listing, or_none};
ghost use Rattle.smk_choose_wants.specs.Wants.{ArePlaces};

use smk_base::{OutOfMemory, PathText};
use smk_chain::{Known, Listings};
use std::alloc::Global;
use std::collections::BTreeMap;

/// Where the listing of each directory stands among some listings, so that it is found without going through them.
#[derive(Drop)]
pub struct Places {
    numbers: BTreeMap<String, usize>,
}

// Keeps the place of the directory.
fn put(
    alloc: Global,
    numbers: &mut BTreeMap<String, usize>,
    folder: &PathText,
    number: usize,
) -> Result<(), OutOfMemory>
    ensures { OnOk result ((q : Path) → get_by_text numbers.new q ≡ (if bytes_eq folder.now q then Some number else get_by_text numbers.old q)) }
{
    let key = String::from_str(alloc, folder.as_str())?;
    numbers.insert(key, number)?;
    Ok(())
}

// The files of the listing, where there is one.
fn files_of<'l>(known: Option<&'l Known>) -> &'l [PathText]
    ensures { result.now ≡ or_none (option_map (λ k. k.now.files) known.entry) }
{
    match known {
        Some(known) => known.files.as_slice(),
        None => &[],
    }
}

impl Places {
    /// The places of these listings; of two for one directory it is the first one's. `OutOfMemory` where there is no memory for them.
    pub fn of(alloc: Global, lists: &Listings) -> Result<Places, OutOfMemory>
        ensures { IfOk result (λ places. ArePlaces lists.now places) }
    {
        let known = lists.as_slice();
        let mut numbers = BTreeMap::new(alloc);
        let mut number = known.len();
        'lists: while number > 0 {
            number -= 1;
            put(alloc, &mut numbers, &known[number].folder, number)?;
        }
        Ok(Places { numbers })
    }

    /// The files of the directory, where they are known.
    pub(crate) fn files<'l>(&self, lists: &'l Listings, folder: &str) -> &'l [PathText]
        requires { ArePlaces lists.now self.now }
        ensures { result.now ≡ or_none (listing lists.now folder.now) }
    {
        match self.numbers.get(folder) {
            Some(number) => files_of(lists.as_slice().get(*number)),
            None => &[],
        }
    }
}
