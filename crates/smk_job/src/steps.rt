//! The steps of a job besides those of the store.

ghost use Rattle.std.specs.Prelude.{◌≡◌, length, is_err};
ghost use Rattle.smk_world.specs.Devices.{WhereTold, HasCarried};
ghost use Rattle.smk_store.specs.Steps.{AreUnused, remove_each};
ghost use Rattle.smk_job.specs.Jobs.{AreFree, parents_each, clear_requests, put_all_requests, keep_requests, drop_all_requests, lose_requests};

use smk_base::{Bytes, List, Place};
use smk_store::{JobPlaces, drop_records, put_records, unmark};
use smk_world::{Failed, Files};

// Removes each of the places.
fn remove_each<W: Files>(work: &mut W, places: &[Place]) -> Result<(), Failed>
    requires unused { AreUnused (W.device work.old) places.now }
    ensures { HasCarried W.act (remove_each places.now) (W.device work.old) (W.device work.new) (is_err result) }
{
    for place in places {
        work.remove(place)?;
    }
    Ok(())
}

// Makes the folders above each of the places.
fn parents_each<W: Files>(work: &mut W, places: &[Place]) -> Result<(), Failed>
    ensures { HasCarried W.act (parents_each places.now) (W.device work.old) (W.device work.new) (is_err result) }
{
    for place in places {
        work.make_parents(place)?;
    }
    Ok(())
}

/// Removes the outputs, and makes the folders of what the job owns.
pub(crate) fn clear<W: Files>(
    work: &mut W,
    outputs: &[Place],
    owned: &[Place],
) -> Result<(), Failed>
    requires unused { AreUnused (W.device work.old) outputs.now }
    ensures { HasCarried W.act (clear_requests outputs.now owned.now) (W.device work.old) (W.device work.new) (is_err result) }
{
    remove_each(work, outputs)?;
    parents_each(work, owned)
}

// Removes the outputs and their records for good.
fn drop_each<W: Files>(work: &mut W, places: &JobPlaces) -> Result<(), Failed>
    requires unused { WhereTold (W.device work.old) (AreFree places.now) }
    ensures { HasCarried W.act (drop_all_requests places.now) (W.device work.old) (W.device work.new) (is_err result) }
{
    remove_each(work, places.outputs.as_slice())?;
    drop_records(work, places)
}

/// Removes the outputs and their records for good, and then the marks.
pub(crate) fn lose<W: Files>(work: &mut W, places: &JobPlaces) -> Result<(), Failed>
    requires unused { WhereTold (W.device work.old) (AreFree places.now) }
    ensures { HasCarried W.act (lose_requests places.now) (W.device work.old) (W.device work.new) (is_err result) }
{
    drop_each(work, places)?;
    unmark(work, places)
}

// Makes the outputs firm, and writes their records firmly.
fn put_each<W: Files>(work: &mut W, places: &JobPlaces, bytes: &List<Bytes>) -> Result<(), Failed>
    requires each { length bytes.now ≡ length places.now.records }
    requires unused { AreUnused (W.device work.old) places.now.records }
    ensures { HasCarried W.act (put_all_requests places.now bytes.now) (W.device work.old) (W.device work.new) (is_err result) }
{
    work.settle(&places.outputs)?;
    put_records(work, places, bytes)
}

/// Makes the outputs firm, writes their records firmly, and then removes the marks for good.
pub(crate) fn keep<W: Files>(
    work: &mut W,
    places: &JobPlaces,
    bytes: &List<Bytes>,
) -> Result<(), Failed>
    requires each { length bytes.now ≡ length places.now.records }
    requires unused { WhereTold (W.device work.old) (AreFree places.now) }
    ensures { HasCarried W.act (keep_requests places.now bytes.now) (W.device work.old) (W.device work.new) (is_err result) }
{
    put_each(work, places, bytes)?;
    unmark(work, places)
}
