//! The stamps of a job's inputs, by what is known of them.

ghost use Rattle.std.specs.Prelude.{◌≡◌, ◌++◌, List as Items, IfOk, MatchOption, map, Some, None, true};
ghost use Rattle.std.specs.List.{list_all};
ghost use Rattle.smk_record.specs.declared.record.Stamp.{Stamp as StampValue};
ghost use Rattle.smk_record.specs.Records.{is_earlier};
ghost use Rattle.smk_drive_step.specs.Stamping.{AreStampsFor, stamp_for};

use smk_base::{List, OutOfMemory};
use smk_record::Stamp;
use std::alloc::Global;

// Whether a record with this serial may have the stamp.
fn is_earlier(made: u64, stamp: Stamp) -> bool
    ensures { result ≡ is_earlier made stamp }
{
    match stamp {
        Stamp::Time(_) => true,
        Stamp::Sum(_, _) => true,
        Stamp::Made(serial) => serial < made,
    }
}

// The stamp, where it is known and a record with this serial may have it.
fn stamp_for(made: u64, known: &Option<Stamp>) -> Option<Stamp>
    ensures { result ≡ stamp_for made known.now }
{
    match known {
        None => None,
        Some(stamp) => {
            if is_earlier(made, *stamp) {
                Some(*stamp)
            } else {
                None
            }
        }
    }
}

/// The stamps, where each of them is known and a record with this serial may have it; none otherwise. `OutOfMemory` where there is no memory for them.
pub fn stamps_of(
    alloc: Global,
    known: &[Option<Stamp>],
    made: u64,
) -> Result<Option<List<Stamp>>, OutOfMemory>
    ensures { IfOk result (λ found. MatchOption found ((stamps : Items StampValue) → ¬ (AreStampsFor made known.now stamps)) (AreStampsFor made known.now)) }
{
    let mut stamps = List::new(alloc);
    for found in known {
        match stamp_for(made, found) {
            Some(stamp) => stamps.push(stamp)?,
            None => return Ok(None),
        }
    }
    Ok(Some(stamps))
}
