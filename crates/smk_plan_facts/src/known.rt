//! What is told to be known of paths.

ghost use Rattle.std.specs.Prelude.{◌≡◌, option_map};
ghost use Rattle.smk_store.specs.Images.{readable};
ghost use Rattle.smk_store.specs.Stores.{entry_of};
ghost use Rattle.smk_plan_facts.specs.Telling.{kept_of, mark_of, or_absent};

use smk_base::PathText;
use smk_plan::Told;
use smk_record::Record;
use smk_store::Kept;

// The record, where it reads.
fn record_of(kept: Option<&Kept>) -> Option<&Record>
    ensures { option_map (λ r. r.now) result ≡ readable (or_absent (option_map (λ k. k.now) kept.entry)) }
{
    match kept {
        None => None,
        Some(kept) => match kept {
            Kept::Absent => None,
            Kept::Unreadable => None,
            Kept::Held(record) => Some(record),
        },
    }
}

/// The record of the path, where it reads.
pub(crate) fn record_at<'t, T: Told>(told: &'t T, path: &PathText) -> Option<&'t Record>
    ensures { option_map (λ r. r.now) result ≡ readable (kept_of (entry_of (T.known told.now) path.now)) }
{
    record_of(told.kept(path))
}

/// Whether the path has a mark.
pub(crate) fn is_marked<T: Told>(told: &T, path: &PathText) -> bool
    ensures { result ≡ mark_of (entry_of (T.known told.now) path.now) }
{
    told.marked(path)
}
