//! Which jobs read what others make.

ghost use Rattle.std.specs.Prelude.{◌≡◌, ◌==◌, ℕ, [], map, IfOk, OnOk};
ghost use Rattle.std.specs.BTreeMap.{get_by_text};
ghost use Rattle.std.specs.List.{list_any, slice_get};
ghost use Rattle.smk_plan_states.specs.Served.{AreApart, outputs_of};
ghost use Rattle.smk_plan_live.specs.Lives.{IsSound};
ghost use Rattle.smk_plan_live.specs.Readers.{ends_with, reading, stands_at, stands_over, with_last};
ghost use Rattle.smk_plan_live.specs.Same.{readers_of};

use crate::base::Base;
use crate::now::site_of;
use smk_base::{List, OutOfMemory, PathText};
use smk_choose::folders_above;
use smk_flow::Job;
use smk_world::Item;
use std::alloc::Global;

// Whether the number is the last one of these.
fn ends_with(numbers: &[usize], number: usize) -> bool
    ensures { result ≡ ends_with numbers.now number }
{
    match numbers.last() {
        None => false,
        Some(last) => *last == number,
    }
}

// Puts the number at the end, unless it stands there.
fn push_once(numbers: &mut List<usize>, number: usize) -> Result<(), OutOfMemory>
    ensures { OnOk result (numbers.new ≡ with_last numbers.old number) }
{
    if ends_with(numbers.as_slice(), number) {
        return Ok(());
    }
    numbers.push(number)
}

// Adds the reader to those of the job of the number.
fn push_reader(
    readers: &mut Vec<List<usize>>,
    number: usize,
    reader: usize,
) -> Result<(), OutOfMemory>
    ensures { OnOk result ((m : ℕ) → slice_get readers.new.items m ≡ reading (number == m) reader (slice_get readers.old.items m)) }
{
    if number < readers.len() {
        let row = &mut readers[number];
        return push_once(row, reader);
    }
    Ok(())
}

// The same where the path is an output.
fn push_at(
    base: &Base,
    readers: &mut Vec<List<usize>>,
    path: &PathText,
    reader: usize,
) -> Result<(), OutOfMemory>
    ensures { OnOk result ((m : ℕ) → slice_get readers.new.items m ≡ reading (stands_at (get_by_text base.now.sites) m path.now) reader (slice_get readers.old.items m)) }
{
    match site_of(base, path) {
        None => Ok(()),
        Some(site) => push_reader(readers, site.job, reader),
    }
}

// The same of each of the paths.
fn push_each(
    base: &Base,
    readers: &mut Vec<List<usize>>,
    paths: &[PathText],
    reader: usize,
) -> Result<(), OutOfMemory>
    ensures { OnOk result ((m : ℕ) → slice_get readers.new.items m ≡ reading (list_any (stands_at (get_by_text base.now.sites) m) paths.now) reader (slice_get readers.old.items m)) }
{
    for path in paths {
        push_at(base, readers, path, reader)?;
    }
    Ok(())
}

// The same of the path and the folders above it.
#[tactic(auto, using(crate::proofs::Users::reading_more))]
fn push_over(
    alloc: Global,
    base: &Base,
    readers: &mut Vec<List<usize>>,
    path: &PathText,
    reader: usize,
) -> Result<(), OutOfMemory>
    ensures { OnOk result ((m : ℕ) → slice_get readers.new.items m ≡ reading (stands_over (get_by_text base.now.sites) m path.now) reader (slice_get readers.old.items m)) }
{
    push_at(base, readers, path, reader)?;
    let folders = folders_above(alloc, path)?;
    push_each(base, readers, folders.as_slice(), reader)
}

// The same of each of the paths.
fn push_paths(
    alloc: Global,
    base: &Base,
    readers: &mut Vec<List<usize>>,
    paths: &[PathText],
    reader: usize,
) -> Result<(), OutOfMemory>
    ensures { OnOk result ((m : ℕ) → slice_get readers.new.items m ≡ reading (list_any (stands_over (get_by_text base.now.sites) m) paths.now) reader (slice_get readers.old.items m)) }
{
    for path in paths {
        push_over(alloc, base, readers, path, reader)?;
    }
    Ok(())
}

// The same of the paths of each of the items.
fn push_items(
    alloc: Global,
    base: &Base,
    readers: &mut Vec<List<usize>>,
    items: &[Item],
    reader: usize,
) -> Result<(), OutOfMemory>
    ensures { OnOk result ((m : ℕ) → slice_get readers.new.items m
        ≡ reading (list_any (λ item. list_any (stands_over (get_by_text base.now.sites) m) item.paths) items.now) reader (slice_get readers.old.items m)) }
{
    for item in items {
        push_paths(alloc, base, readers, item.paths.as_slice(), reader)?;
    }
    Ok(())
}

/// No numbers for each job.
pub(crate) fn nobody(alloc: Global, jobs: &[Job]) -> Result<Vec<List<usize>>, OutOfMemory>
    ensures { IfOk result (λ found. found.items ≡ map (λ j. []) jobs.now) }
{
    let mut found = Vec::new(alloc);
    for _job in jobs {
        found.push(List::new(alloc))?;
    }
    Ok(found)
}

/// For each job the numbers of those that read at or under one of its outputs, rising. `OutOfMemory` where there is no memory for them.
///
/// The time is near linear in the inputs of the jobs and the folders above these.
pub(crate) fn readers_of(alloc: Global, base: &Base) -> Result<Vec<List<usize>>, OutOfMemory>
    ensures { IfOk result (λ found. IsSound base.now → AreApart (outputs_of base.now.jobs.jobs) → found.items ≡ readers_of base.now.jobs.jobs) }
{
    let jobs = base.jobs.jobs.as_slice();
    let mut readers = nobody(alloc, jobs)?;
    for (number, job) in jobs.iter().enumerate() {
        let inputs = job.recipe.inputs.as_slice();
        push_items(alloc, base, &mut readers, inputs, number)?;
    }
    Ok(readers)
}
