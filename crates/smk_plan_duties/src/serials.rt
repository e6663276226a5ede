//! The serials of records, and which of them are below others.

ghost use Rattle.std.specs.Prelude.{◌≡◌, option_map};
ghost use Rattle.std.specs.List.{list_all};
ghost use Rattle.smk_plan_duties.specs.Choosing.{is_job_below, is_kept_below, is_old, made_in, made_of};
ghost use Rattle.smk_plan_duties.specs.Numbers.{are_item_below, is_input_at};

use crate::numbers::number_of;
use smk_base::PathText;
use smk_chain::first_output;
use smk_flow::Job;
use smk_plan::Duty;
use smk_store::{Entry, Kept, Store};
use smk_world::Item;
use std::collections::BTreeMap;

// The serial of the record that is known, where it reads.
fn made_in(entry: Option<&Entry>) -> Option<u64>
    ensures { result ≡ made_in (option_map (λ e. e.now) entry.entry) }
{
    match entry {
        None => None,
        Some(entry) => match &entry.kept {
            Kept::Absent => None,
            Kept::Unreadable => None,
            Kept::Held(record) => Some(record.made()),
        },
    }
}

/// The serial of the record of the job's first output.
pub(crate) fn made_of(store: &Store, job: &Job) -> Option<u64>
    ensures { result ≡ made_of store.now job.now }
{
    match first_output(job) {
        None => None,
        Some(path) => made_in(store.entry(path)),
    }
}

/// Whether the serial is below the first that is drawn, where there is one.
pub(crate) fn is_old(first: Option<u64>, made: u64) -> bool
    ensures { result ≡ is_old first made }
{
    match first {
        None => true,
        Some(first) => made < first,
    }
}

// Whether the serial is kept, and below this one.
fn is_kept_below(made: u64, duty: Option<&Duty>) -> bool
    ensures { result ≡ is_kept_below made (option_map (λ d. d.now) duty.entry) }
{
    match duty {
        None => false,
        Some(duty) => match duty {
            Duty::Rest(kept) => *kept < made,
            Duty::Restore(kept) => *kept < made,
            Duty::Run => false,
        },
    }
}

// Whether the serial of the job of this number is kept, and below this one.
fn is_job_below(duties: &[Duty], made: u64, number: Option<u32>) -> bool
    ensures { result ≡ is_job_below duties.now made number }
{
    match number {
        None => true,
        Some(number) => is_kept_below(made, duties.get(number as usize)),
    }
}

// Whether the serials of what is at these paths are kept, and below this one.
fn are_below(
    numbers: &BTreeMap<String, Option<u32>>,
    duties: &[Duty],
    made: u64,
    paths: &[PathText],
) -> bool
    ensures { result ≡ list_all (is_input_at numbers.now duties.now made) paths.now }
{
    for path in paths {
        if !is_job_below(duties, made, number_of(numbers, path)) {
            return false;
        }
    }
    true
}

/// The same for what is at the paths of these items.
pub(crate) fn are_inputs_below(
    numbers: &BTreeMap<String, Option<u32>>,
    duties: &[Duty],
    made: u64,
    inputs: &[Item],
) -> bool
    ensures { result ≡ list_all (are_item_below numbers.now duties.now made) inputs.now }
{
    for item in inputs {
        if !are_below(numbers, duties, made, item.paths.as_slice()) {
            return false;
        }
    }
    true
}
