//! Which jobs are current after a run.

ghost use Rattle.std.specs.Prelude.{◌≡◌, IfOk};
ghost use Rattle.smk_chain_walk.specs.Links.{AreLower};
ghost use Rattle.smk_make.specs.After as spec;

use smk_base::{List, OutOfMemory};
use smk_plan::Duty;
use smk_plan_duties::needing;
use smk_run::Tally;
use std::alloc::Global;

// How many more turns come before the one that is sought, once this job is passed; None where the turn is this job's.
fn left_after(duty: Duty, left: u64) -> Option<u64>
    ensures { result ≡ spec.left_after duty left }
{
    match duty {
        Duty::Rest(_) => Some(left),
        Duty::Restore(_) | Duty::Run => left.checked_sub(1),
    }
}

// The number of the job that has its turn after so many others.
fn due_number(duties: &[Duty], index: u64) -> Option<u64>
    ensures { spec.IsDueNumber duties.now index result }
{
    let mut left = index;
    for (number, duty) in duties.iter().enumerate() {
        match left_after(*duty, left) {
            None => return Some(number as u64),
            Some(rest) => left = rest,
        }
    }
    None
}

// The number of the job that failed, where one did.
fn failed_number(duties: &[Duty], tally: &Tally) -> Option<u64>
    ensures { spec.IsFailedNumber duties.now tally.now result }
{
    if tally.failed == 0 {
        None
    } else {
        due_number(duties, tally.done)
    }
}

// For each job whether it needs the one that failed; nothing where none did.
fn spoilt(
    alloc: Global,
    befores: &[List<u32>],
    failed: Option<u64>,
) -> Result<List<bool>, OutOfMemory>
    requires lower { AreLower 0 befores.now }
    ensures { IfOk result (λ found. spec.AreSpoilt befores.now failed found) }
{
    match failed {
        None => Ok(List::new(alloc)),
        Some(number) => needing(alloc, befores, number),
    }
}

// How many more jobs are done, once this one is passed.
fn done_after(duty: Duty, left: u64) -> u64
    ensures { result ≡ spec.done_after duty left }
{
    match duty {
        Duty::Rest(_) => left,
        Duty::Restore(_) | Duty::Run => left.saturating_sub(1),
    }
}

// Whether what the job of this number makes is current, where so many more jobs are done.
fn is_current(duty: Duty, spoilt: &[bool], number: u64, left: u64) -> bool
    ensures { result ≡ spec.is_current_by duty spoilt.now number left }
{
    match duty {
        Duty::Rest(_) => !matches!(spoilt.get(number as usize), Some(true)),
        Duty::Restore(_) | Duty::Run => left > 0,
    }
}

// For each job whether what it makes is current, where so many jobs are done and these need one that failed.
fn after_by(
    alloc: Global,
    duties: &[Duty],
    spoilt: &[bool],
    done: u64,
) -> Result<List<bool>, OutOfMemory>
    ensures { IfOk result (λ after. spec.AreAfterBy duties.now spoilt.now done after) }
{
    let mut after = List::new(alloc);
    let mut left = done;
    for (number, duty) in duties.iter().enumerate() {
        after.push(is_current(*duty, spoilt, number as u64, left))?;
        left = done_after(*duty, left);
    }
    Ok(after)
}

/// For each job whether what it makes is current after a run with these duties, which ended so: a job that had its turn, where it is done; one that
/// rests, unless it needs a job that failed.
pub(crate) fn after_run(
    alloc: Global,
    duties: &[Duty],
    befores: &[List<u32>],
    tally: &Tally,
) -> Result<List<bool>, OutOfMemory>
    requires lower { AreLower 0 befores.now }
    ensures { IfOk result (λ after. spec.IsAfter duties.now befores.now tally.now after) }
{
    let failed = failed_number(duties, tally);
    let spoilt = spoilt(alloc, befores, failed)?;
    after_by(alloc, duties, spoilt.as_slice(), tally.done)
}
