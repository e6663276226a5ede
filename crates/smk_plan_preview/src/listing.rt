//! Listings, copied and added.

ghost use Rattle.std.specs.Prelude.{◌≡◌, ◌++◌, ◌∷◌, [], IfOk, IfErr, OnOk, OnErr};
ghost use Rattle.smk_report.specs.declared.fault.Fault.TheVariants as fault;

use smk_base::{Copied, List, OutOfMemory};
use smk_chain::{Known, Listings};
use smk_report::Fault;
use std::alloc::Global;

// Adds a copy.
fn push_copy(alloc: Global, lists: &mut Listings, known: &Known) -> Result<(), OutOfMemory>
    ensures { OnOk result (lists.new ≡ lists.old ++ known.now ∷ []) }
{
    let folder = known.folder.copied(alloc)?;
    let files = known.files.copied(alloc)?;
    lists.push(Known { folder, files })
}

// Adds copies of them.
fn append(alloc: Global, lists: &mut Listings, more: &[Known]) -> Result<(), OutOfMemory>
    ensures { OnOk result (lists.new ≡ lists.old ++ more.now) }
{
    for known in more {
        push_copy(alloc, lists, known)?;
    }
    Ok(())
}

/// Adds copies of these listings.
pub fn add_listings(alloc: Global, lists: &mut Listings, more: &Listings) -> Result<(), Fault>
    ensures ok { OnOk result (lists.new ≡ lists.old ++ more.now) }
    ensures fault { IfErr result (λ f. f ≡ fault.OutOfMemory) }
{
    match append(alloc, lists, more.as_slice()) {
        Ok(()) => Ok(()),
        Err(OutOfMemory) => Err(Fault::OutOfMemory),
    }
}

/// A copy of the listings.
pub(crate) fn listings_again(alloc: Global, lists: &Listings) -> Result<Listings, Fault>
    ensures ok { IfOk result (λ copy. copy ≡ lists.now) }
    ensures fault { IfErr result (λ f. f ≡ fault.OutOfMemory) }
{
    let mut copy = List::new(alloc);
    match append(alloc, &mut copy, lists.as_slice()) {
        Ok(()) => Ok(copy),
        Err(OutOfMemory) => Err(Fault::OutOfMemory),
    }
}
