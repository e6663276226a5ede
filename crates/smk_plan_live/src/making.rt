//! Which makers name which job.

ghost use Rattle.std.specs.Prelude.{◌≡◌, ◌<◌, ◌==◌, ◌||◌, ◌&&◌, ℕ, length, slice_index_or, [], IfOk, OnOk};
ghost use Rattle.smk_plan_facts.specs.Telling.{is_number};
ghost use Rattle.smk_plan_states.specs.Stays.{has_number};
ghost use Rattle.smk_plan_live.specs.Making.{AreMadeBy};

use crate::readers::nobody;
use smk_base::{List, OutOfMemory};
use smk_chain::{Jobs, Maker};
use smk_flow::Job;
use std::alloc::Global;

// Adds the number of the maker to those of the job that it names, if any.
fn push_maker(made: &mut Vec<List<usize>>, maker: &Maker, number: usize) -> Result<(), OutOfMemory>
    ensures each { length made.new.items ≡ length made.old.items }
    ensures set { OnOk result ((j : ℕ) (n : ℕ) → j < length made.old.items
        → has_number n (slice_index_or made.new.items j []) ≡ (has_number n (slice_index_or made.old.items j []) || (is_number j maker.now.job && number == n))) }
{
    let Some(job) = maker.job else {
        return Ok(());
    };
    let place = job as usize;
    if place < made.len() {
        let row = &mut made[place];
        return row.push(number);
    }
    Ok(())
}

// For each of the jobs the numbers of the makers that name it.
fn made_among(
    alloc: Global,
    jobs: &[Job],
    makers: &[Maker],
) -> Result<Vec<List<usize>>, OutOfMemory>
    ensures { IfOk result (λ made. AreMadeBy jobs.now makers.now made.items) }
{
    let mut made = nobody(alloc, jobs)?;
    for (number, maker) in makers.iter().enumerate() {
        push_maker(&mut made, maker, number)?;
    }
    Ok(made)
}

/// For each job the numbers of the makers that name it, rising. `OutOfMemory` where there is no memory for them.
///
/// The time is linear in the jobs and the makers.
pub(crate) fn made_of(alloc: Global, jobs: &Jobs) -> Result<Vec<List<usize>>, OutOfMemory>
    ensures { IfOk result (λ made. AreMadeBy jobs.now.jobs jobs.now.makers made.items) }
{
    let made = made_among(alloc, jobs.jobs.as_slice(), jobs.makers.as_slice())?;
    Ok(made)
}

/// The numbers that are kept of the job of the number.
pub(crate) fn makers_at(made: &[List<usize>], number: usize) -> &[usize]
    ensures { result.now ≡ slice_index_or made.now number [] }
{
    match made.get(number) {
        None => &[],
        Some(row) => row.as_slice(),
    }
}
