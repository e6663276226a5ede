//! What is made, written and removed of the engine's own files, each time firmly.

ghost use Rattle.std.specs.Prelude.{◌≡◌, [], ◌∷◌, length, is_err};
ghost use Rattle.smk_base.specs.Place.{lock_place};
ghost use Rattle.smk_world.specs.Devices.{HasActed, HasCarried};
ghost use Rattle.smk_store.specs.Steps.{AreUnused, HasLocked, make_each, remove_each, write_each, mark_requests, put_requests, drop_requests, unmark_requests, unlock_requests};

use crate::JobPlaces;
use smk_base::{Bytes, List, Place};
use smk_world::{Failed, Files};

// Makes each of the places that isn't there, its folders before it.
fn make_each<W: Files>(work: &mut W, places: &[Place]) -> Result<(), Failed>
    ensures { HasCarried W.act (make_each places.now) (W.device work.old) (W.device work.new) (is_err result) }
{
    for place in places {
        work.make_parents(place)?;
        work.create_new(place)?;
    }
    Ok(())
}

// Removes each of the places.
pub(crate) fn remove_each<W: Files>(work: &mut W, places: &[Place]) -> Result<(), Failed>
    requires unused { AreUnused (W.device work.old) places.now }
    ensures { HasCarried W.act (remove_each places.now) (W.device work.old) (W.device work.new) (is_err result) }
{
    for place in places {
        work.remove(place)?;
    }
    Ok(())
}

// Writes each of the places, its folders made before it.
fn write_each<W: Files>(work: &mut W, places: &[Place], bytes: &[Bytes]) -> Result<(), Failed>
    requires each { length bytes.now ≡ length places.now }
    requires unused { AreUnused (W.device work.old) places.now }
    ensures { HasCarried W.act (write_each places.now bytes.now) (W.device work.old) (W.device work.new) (is_err result) }
{
    for (i, place) in places.iter().enumerate() {
        work.make_parents(place)?;
        work.write(place, bytes[i].as_slice())?;
    }
    Ok(())
}

/// Makes the marks and notes that aren't there, and makes them all firm. One that stands is left as it is.
///
/// `Failed`: one of these calls failed, and none came after it.
pub fn mark<W: Files>(work: &mut W, places: &JobPlaces) -> Result<(), Failed>
    ensures { HasCarried W.act (mark_requests places.now) (W.device work.old) (W.device work.new) (is_err result) }
{
    make_each(work, places.marking.as_slice())?;
    work.settle(&places.marking)
}

/// Writes the records with these bytes, one for each output, and makes them all firm.
///
/// `Failed`: one of these calls failed, and none came after it.
pub fn put_records<W: Files>(
    work: &mut W,
    places: &JobPlaces,
    bytes: &List<Bytes>,
) -> Result<(), Failed>
    requires each { length bytes.now ≡ length places.now.records }
    requires unused { AreUnused (W.device work.old) places.now.records }
    ensures { HasCarried W.act (put_requests places.now bytes.now) (W.device work.old) (W.device work.new) (is_err result) }
{
    write_each(work, places.records.as_slice(), bytes.as_slice())?;
    work.settle(&places.records)
}

/// Removes the records for good, and makes firm what the outputs are.
///
/// `Failed`: one of these calls failed, and none came after it.
pub fn drop_records<W: Files>(work: &mut W, places: &JobPlaces) -> Result<(), Failed>
    requires unused { AreUnused (W.device work.old) places.now.records }
    ensures { HasCarried W.act (drop_requests places.now) (W.device work.old) (W.device work.new) (is_err result) }
{
    remove_each(work, places.records.as_slice())?;
    work.settle(&places.dropping)
}

/// Removes the marks for good.
///
/// `Failed`: one of these calls failed, and none came after it.
pub fn unmark<W: Files>(work: &mut W, places: &JobPlaces) -> Result<(), Failed>
    requires unused { AreUnused (W.device work.old) places.now.marks }
    ensures { HasCarried W.act (unmark_requests places.now) (W.device work.old) (W.device work.new) (is_err result) }
{
    remove_each(work, places.marks.as_slice())?;
    work.settle(&places.marks)
}

/// Removes the lock for good.
///
/// `Failed`: one of these calls failed, and none came after it.
pub fn unlock<W: Files>(work: &mut W, place: &List<Place>) -> Result<(), Failed>
    requires lock { place.now ≡ lock_place ∷ [] }
    requires unused { AreUnused (W.device work.old) place.now }
    ensures { HasCarried W.act (unlock_requests place.now) (W.device work.old) (W.device work.new) (is_err result) }
{
    remove_each(work, place.as_slice())?;
    work.settle(place)
}

/// Makes the lock, firmly: true. False exactly where something stood at its place; then that is left as it is.
///
/// `Failed`: one of these calls failed, and none came after it.
pub fn lock<W: Files>(work: &mut W, place: &List<Place>) -> Result<bool, Failed>
    requires lock { place.now ≡ lock_place ∷ [] }
    ensures { HasActed W.act (HasLocked result) (W.device work.old) (W.device work.new) (is_err result) }
{
    let lock = &place.as_slice()[0];
    work.make_parents(lock)?;
    if !work.create_new(lock)? {
        return Ok(false);
    }
    work.settle(place)?;
    Ok(true)
}
