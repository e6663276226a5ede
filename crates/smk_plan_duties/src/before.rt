//! Jobs that need one of them.

ghost use Rattle.std.specs.Prelude.{◌≡◌, IfOk, get_or, false};
ghost use Rattle.std.specs.List.{list_any};
ghost use Rattle.smk_plan_duties.specs.Needs.{AreEarlier, AreNeeding, answer_at};

use smk_base::{List, OutOfMemory};
use std::alloc::Global;

// Whether one of these jobs is among those that were found.
fn has_one(found: &[bool], numbers: &[u32]) -> bool
    ensures { result ≡ list_any (λ m. get_or found.now m false) numbers.now }
{
    for number in numbers {
        if let Some(true) = found.get(*number as usize) {
            return true;
        }
    }
    false
}

// Whether a job is the one of this number, or one of the jobs before it was found to need that.
fn needs_it(found: &[bool], before: &[u32], job: u64, number: u64) -> bool
    ensures { result ≡ answer_at found.now before.now job number }
{
    job == number || has_one(found, before)
}

/// For each job whether it needs the one of this number: it is that one, or one of the jobs that come before it needs it. The time is linear in
/// the jobs and in what comes before them. `OutOfMemory` where there is no memory for the answer.
///
/// What comes before a job has lower numbers.
pub fn needing(alloc: Global, befores: &[List<u32>], number: u64) -> Result<List<bool>, OutOfMemory>
    requires earlier { AreEarlier befores.now }
    ensures { IfOk result (λ found. AreNeeding befores.now number found) }
{
    let mut found = List::new(alloc);
    for (i, before) in befores.iter().enumerate() {
        let needs = needs_it(found.as_slice(), before.as_slice(), i as u64, number);
        found.push(needs)?;
    }
    Ok(found)
}
