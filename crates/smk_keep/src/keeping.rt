//! The calls that protect and remove outputs.

ghost use Rattle.std.specs.Prelude.{◌≡◌, ◌≢◌, IfOk, IfErr, is_err};
ghost use Rattle.smk_world.specs.Devices.{HasActed, HasCarried};
ghost use Rattle.smk_store.specs.Steps.{AreUnused, remove_each};
ghost use Rattle.smk_keep.specs.Keeping.{HasTried, keep_failed, protect_each, protect_requests, removal_requests};

use crate::KeepFault;
use smk_base::{List, OutOfMemory, PathText, Place};
use smk_world::{Failed, Files};
use std::alloc::Global;

// The places of the outputs.
fn places_of(alloc: Global, outputs: &[PathText]) -> Result<List<Place>, OutOfMemory>
    ensures { IfOk result (λ places. places ≡ outputs.now) }
{
    let mut places = List::new(alloc);
    for output in outputs {
        places.push(Place::user(alloc, output)?)?;
    }
    Ok(places)
}

// Makes each of the places read-only.
fn protect_each<W: Files>(work: &mut W, places: &[Place]) -> Result<(), Failed>
    ensures { HasCarried W.act (protect_each places.now) (W.device work.old) (W.device work.new) (is_err result) }
{
    for place in places {
        work.protect(place)?;
    }
    Ok(())
}

// Makes the places read-only for good.
fn protect_all<W: Files>(work: &mut W, places: &List<Place>) -> Result<(), Failed>
    ensures { HasCarried W.act (protect_requests places.now) (W.device work.old) (W.device work.new) (is_err result) }
{
    protect_each(work, places.as_slice())?;
    work.settle(places)
}

// Removes each of the places.
fn remove_each<W: Files>(work: &mut W, places: &[Place]) -> Result<(), Failed>
    requires unused { AreUnused (W.device work.old) places.now }
    ensures { HasCarried W.act (remove_each places.now) (W.device work.old) (W.device work.new) (is_err result) }
{
    for place in places {
        work.remove(place)?;
    }
    Ok(())
}

// Removes the places for good.
fn remove_all<W: Files>(work: &mut W, places: &List<Place>) -> Result<(), Failed>
    requires unused { AreUnused (W.device work.old) places.now }
    ensures { HasCarried W.act (removal_requests places.now) (W.device work.old) (W.device work.new) (is_err result) }
{
    remove_each(work, places.as_slice())?;
    work.settle(places)
}

/// Makes the outputs read-only, one after another, and then that firm, all together.
///
/// `Device`: one of these calls failed, and none came after it. `OutOfMemory`: there is no memory for the places; then no call was made.
pub fn protect_outputs<W: Files>(
    alloc: Global,
    work: &mut W,
    outputs: &List<PathText>,
) -> Result<(), KeepFault>
    ensures acted { HasActed W.act (HasTried (protect_requests outputs.now) result) (W.device work.old) (W.device work.new) (keep_failed result) }
    ensures untouched { IfErr result (λ fault. fault ≢ KeepFault.Device → work.new ≡ work.old) }
{
    let Ok(places) = places_of(alloc, outputs.as_slice()) else {
        return Err(KeepFault::OutOfMemory);
    };
    match protect_all(work, &places) {
        Ok(()) => Ok(()),
        Err(Failed) => Err(KeepFault::Device),
    }
}

/// Removes the outputs, one after another, and then makes their removal firm, all together. What isn't there stays so. No running child may
/// own or read one of them or anything under one.
///
/// `Device`: one of these calls failed, and none came after it. `OutOfMemory`: there is no memory for the places; then no call was made.
pub fn remove_temps<W: Files>(
    alloc: Global,
    work: &mut W,
    outputs: &List<PathText>,
) -> Result<(), KeepFault>
    requires unused { AreUnused (W.device work.old) outputs.now }
    ensures acted { HasActed W.act (HasTried (removal_requests outputs.now) result) (W.device work.old) (W.device work.new) (keep_failed result) }
    ensures untouched { IfErr result (λ fault. fault ≢ KeepFault.Device → work.new ≡ work.old) }
{
    let Ok(places) = places_of(alloc, outputs.as_slice()) else {
        return Err(KeepFault::OutOfMemory);
    };
    match remove_all(work, &places) {
        Ok(()) => Ok(()),
        Err(Failed) => Err(KeepFault::Device),
    }
}
