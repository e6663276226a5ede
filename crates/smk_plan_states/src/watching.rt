//! Which jobs watch which: those that read or gather from what another one is told to make.

ghost use Rattle.std.specs.Prelude.{◌≡◌, ◌<◌, ◌==◌, ◌||◌, ◌&&◌, ℕ, length, slice_index_or, [], IfOk, OnOk};
ghost use Rattle.std.specs.List.{list_any};
ghost use Rattle.smk_plan_states.specs.Ranking.{is_link};
ghost use Rattle.smk_plan_states.specs.Stays.{AreWatched, has_number, is_made_by, reads_of};

use crate::lines::{Gathered, Input, Line, Origin};
use crate::spots::maker_at;
use smk_base::{List, OutOfMemory};
use std::alloc::Global;

// Adds the reader to those that watch the job, where there is one.
fn watch(
    watchers: &mut Vec<List<usize>>,
    job: Option<u32>,
    reader: usize,
) -> Result<(), OutOfMemory>
    ensures each { length watchers.new.items ≡ length watchers.old.items }
    ensures set { OnOk result ((j : ℕ) (n : ℕ) → j < length watchers.old.items
        → has_number n (slice_index_or watchers.new.items j []) ≡ (has_number n (slice_index_or watchers.old.items j []) || (is_link j job && reader == n))) }
{
    let Some(job) = job else {
        return Ok(());
    };
    let number = job as usize;
    if number < watchers.len() {
        let row = &mut watchers[number];
        return row.push(reader);
    }
    Ok(())
}

// Adds the reader to those that watch the jobs of these inputs.
fn watch_inputs(
    watchers: &mut Vec<List<usize>>,
    origins: &[Origin],
    inputs: &[Input],
    reader: usize,
) -> Result<(), OutOfMemory>
    ensures each { length watchers.new.items ≡ length watchers.old.items }
    ensures set { OnOk result ((j : ℕ) (n : ℕ) → j < length watchers.old.items
        → has_number n (slice_index_or watchers.new.items j [])
        ≡ (has_number n (slice_index_or watchers.old.items j []) || (list_any (λ i. is_made_by origins.now j i.link) inputs.now && reader == n))) }
{
    for input in inputs {
        watch(watchers, maker_at(origins, input.link), reader)?;
    }
    Ok(())
}

// Adds the reader to those that watch the jobs of these directories.
fn watch_gathers(
    watchers: &mut Vec<List<usize>>,
    origins: &[Origin],
    gathers: &[Gathered],
    reader: usize,
) -> Result<(), OutOfMemory>
    ensures each { length watchers.new.items ≡ length watchers.old.items }
    ensures set { OnOk result ((j : ℕ) (n : ℕ) → j < length watchers.old.items
        → has_number n (slice_index_or watchers.new.items j [])
        ≡ (has_number n (slice_index_or watchers.old.items j []) || (list_any (λ g. is_made_by origins.now j g.link) gathers.now && reader == n))) }
{
    for gathered in gathers {
        watch(watchers, maker_at(origins, gathered.link), reader)?;
    }
    Ok(())
}

// Adds the reader of this line to those that watch the jobs of what it has.
fn watch_line(
    watchers: &mut Vec<List<usize>>,
    origins: &[Origin],
    line: &Line,
    reader: usize,
) -> Result<(), OutOfMemory>
    ensures each { length watchers.new.items ≡ length watchers.old.items }
    ensures set { OnOk result ((j : ℕ) (n : ℕ) → j < length watchers.old.items
        → has_number n (slice_index_or watchers.new.items j [])
        ≡ (has_number n (slice_index_or watchers.old.items j []) || (reads_of origins.now j line.now && reader == n))) }
{
    watch_inputs(watchers, origins, line.inputs.as_slice(), reader)?;
    watch_gathers(watchers, origins, line.gathers.as_slice(), reader)
}

// Nobody watches, for each of these lines.
fn nobody(alloc: Global, lines: &[Line]) -> Result<Vec<List<usize>>, OutOfMemory>
    ensures { IfOk result (λ found. length found.items ≡ length lines.now) }
{
    let mut found = Vec::with_capacity(alloc, lines.len())?;
    for _line in lines {
        found.push(List::new(alloc))?;
    }
    Ok(found)
}

// For each line the numbers of those that read or gather from what its job is told to make.
fn watchers_among(
    alloc: Global,
    lines: &[Line],
    origins: &[Origin],
) -> Result<Vec<List<usize>>, OutOfMemory>
    ensures { IfOk result (λ found. AreWatched lines.now origins.now found.items) }
{
    let mut found = nobody(alloc, lines)?;
    for (number, line) in lines.iter().enumerate() {
        watch_line(&mut found, origins, line, number)?;
    }
    Ok(found)
}

/// For each job the numbers of those that read or gather from what it is told to make.
pub(crate) fn watchers_of(
    alloc: Global,
    lines: &List<Line>,
    origins: &List<Origin>,
) -> Result<Vec<List<usize>>, OutOfMemory>
    ensures { IfOk result (λ found. AreWatched lines.now origins.now found.items) }
{
    let found = watchers_among(alloc, lines.as_slice(), origins.as_slice())?;
    Ok(found)
}

/// Those that watch the job of the number.
pub(crate) fn watchers_at(watchers: &[List<usize>], number: usize) -> &[usize]
    ensures { result.now ≡ slice_index_or watchers.now number [] }
{
    match watchers.get(number) {
        None => &[],
        Some(row) => row.as_slice(),
    }
}
