//! What is kept of the outputs of one job.

ghost use Rattle.std.specs.Prelude.{◌≡◌, option_map};
ghost use Rattle.std.specs.List.{list_any, list_all, flat_map};
ghost use Rattle.smk_world.specs.Trees.{first};
ghost use Rattle.smk_trigger.specs.Reasons.{is_unreadable, held, all_same, same_job, lacks_record, has_bad_record};

use crate::same::is_same_job;
use smk_record::Record;
use smk_store::Kept;

/// Whether an output has no record.
pub(crate) fn lacks_record(kept: &[Kept]) -> bool
    ensures { result ≡ lacks_record kept.now }
{
    for one in kept {
        if matches!(one, Kept::Absent) {
            return true;
        }
    }
    false
}

// Whether a record doesn't read.
fn has_unreadable(kept: &[Kept]) -> bool
    ensures { result ≡ list_any is_unreadable kept.now }
{
    for one in kept {
        if matches!(one, Kept::Unreadable) {
            return true;
        }
    }
    false
}

// Whether the record, if there is one, is of the same job.
fn is_like(earlier: &Record, one: &Kept) -> bool
    ensures { result ≡ list_all (same_job earlier.now) (held one.now) }
{
    match one {
        Kept::Absent => true,
        Kept::Unreadable => true,
        Kept::Held(other) => is_same_job(earlier, other),
    }
}

// Whether all records are of the same job as this one.
fn are_like(earlier: &Record, kept: &[Kept]) -> bool
    ensures { result ≡ list_all (same_job earlier.now) (flat_map held kept.now) }
{
    for one in kept {
        if !is_like(earlier, one) {
            return false;
        }
    }
    true
}

// Whether all records are of one job.
fn are_one_job(kept: &[Kept]) -> bool
    ensures { result ≡ all_same (flat_map held kept.now) }
{
    let mut rest = kept;
    while let Some((one, more)) = rest.split_first() {
        if let Kept::Held(record) = one {
            return are_like(record, more);
        }
        rest = more;
    }
    true
}

/// Whether a record doesn't read, or the records are of different jobs.
pub(crate) fn has_bad_record(kept: &[Kept]) -> bool
    ensures { result ≡ has_bad_record kept.now }
{
    has_unreadable(kept) || !are_one_job(kept)
}

/// The first record.
pub(crate) fn first_record(kept: &[Kept]) -> Option<&Record>
    ensures { option_map (λ r. r.now) result ≡ first (flat_map held kept.now) }
{
    for one in kept {
        if let Kept::Held(record) = one {
            return Some(record);
        }
    }
    None
}
