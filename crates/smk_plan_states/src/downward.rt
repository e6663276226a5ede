//! The last pass, from the last job to the first: what jobs that are to run want back.

ghost use Rattle.std.specs.Prelude.{◌≡◌, ◌<◌, ◌||◌, ◌&&◌, ◌==◌, ℕ, List as Items, length, map, slice_index_or, false, [], IfOk};
ghost use Rattle.std.specs.List.{list_any, zip};
ghost use Rattle.smk_chain.specs.declared.jobs.Jobs.{Jobs as JobsValue};
ghost use Rattle.smk_trigger.specs.declared.reason.State.{State as StateValue};
ghost use Rattle.smk_plan_states.specs.Judged.{Judging};
ghost use Rattle.smk_plan_states.specs.First.{first_states};
ghost use Rattle.smk_plan_states.specs.Moment.{IsMoment};
ghost use Rattle.smk_plan_states.specs.Ranks.{rank_of};
ghost use Rattle.smk_plan_states.specs.Ranking.{has_link, is_link, is_needed_at, is_needed_by_flags, is_lacking, lacking_at, lacks, last_rank};

use crate::lines::{Input, Line, Origin, Output};
use crate::ranks::{Rank, is_clean_rank, is_to_run, unless_needed};
use crate::rows::Rows;
use crate::spots::{flag_at, row_at};
use smk_base::{List, OutOfMemory};
use std::alloc::Global;

/// Flags that are all false.
pub(crate) fn unset(alloc: Global, count: usize) -> Result<Vec<bool>, OutOfMemory>
    ensures each { IfOk result (λ flags. length flags.items ≡ count) }
    ensures unset { IfOk result (λ flags. (n : ℕ) → slice_index_or flags.items n false ≡ false) }
{
    Ok(vec![in alloc; false; count]?)
}

/// Sets the flag in this place, if there is one.
pub(crate) fn set_at(flags: &mut Vec<bool>, place: Option<usize>)
    ensures each { length flags.new.items ≡ length flags.old.items }
    ensures set { (n : ℕ) → n < length flags.old.items
        → slice_index_or flags.new.items n false ≡ (slice_index_or flags.old.items n false || is_link n place) }
{
    let Some(place) = place else {
        return;
    };
    if place < flags.len() {
        flags[place] = true;
    }
}

/// Whether the path of the link is needed.
fn is_needed_at(needed: &[bool], link: Option<usize>) -> bool
    ensures { result ≡ is_needed_at needed.now link }
{
    match link {
        Some(link) => flag_at(needed, link),
        None => false,
    }
}

/// Whether some output that isn't whole is needed.
pub(crate) fn is_needed(needed: &[bool], outputs: &[Output], flags: &[bool]) -> bool
    ensures { result ≡ is_needed_by_flags needed.now outputs.now flags.now }
{
    for (i, output) in outputs.iter().enumerate() {
        let Some(whole) = flags.get(i) else {
            return false;
        };
        if is_needed_at(needed, output.link) && !*whole {
            return true;
        }
    }
    false
}

// Sets the flags of what these inputs name.
fn need_inputs(needed: &mut Vec<bool>, inputs: &[Input])
    ensures each { length needed.new.items ≡ length needed.old.items }
    ensures set { (n : ℕ) → n < length needed.old.items
        → slice_index_or needed.new.items n false ≡ (slice_index_or needed.old.items n false || list_any (has_link n) inputs.now) }
{
    for input in inputs {
        set_at(needed, input.link);
    }
}

/// Sets the flags of what a job reads, where it is to run.
pub(crate) fn need(needed: &mut Vec<bool>, to_run: bool, inputs: &[Input])
    ensures each { length needed.new.items ≡ length needed.old.items }
    ensures set { (n : ℕ) → n < length needed.old.items
        → slice_index_or needed.new.items n false ≡ (slice_index_or needed.old.items n false || (to_run && list_any (has_link n) inputs.now)) }
{
    if to_run {
        need_inputs(needed, inputs);
    }
}

fn last_rank(
    needed: &[bool],
    rows: &Rows<'_>,
    line: &Line,
    number: usize,
    used: bool,
    first: Rank,
) -> Rank
    ensures { result ≡ last_rank needed.now rows.now line.now number used first }
{
    let wanted = is_needed(
        needed,
        line.outputs.as_slice(),
        row_at(rows.outputs, number),
    ) && !used;
    unless_needed(wanted, first)
}

/// Whether an output isn't whole.
pub(crate) fn lacks(flags: &[bool]) -> bool
    ensures { result ≡ lacks flags.now }
{
    for whole in flags {
        if !*whole {
            return true;
        }
    }
    false
}

/// Whether a job is Clean of which an output isn't whole.
pub(crate) fn any_lacking(ranks: &[Rank], outputs: &[List<bool>]) -> bool
    ensures { result ≡ list_any is_lacking (zip ranks.now outputs.now) }
{
    for (i, rank) in ranks.iter().enumerate() {
        let Some(flags) = outputs.get(i) else {
            return false;
        };
        if is_clean_rank(*rank) && lacks(flags.as_slice()) {
            return true;
        }
    }
    false
}

/// Whether the job of the number is Clean, and an output of it isn't whole.
pub(crate) fn is_lacking_at(ranks: &[Rank], outputs: &[List<bool>], number: usize) -> bool
    ensures { result ≡ lacking_at ranks.now outputs.now number }
{
    let Some(rank) = ranks.get(number) else {
        return false;
    };
    let Some(flags) = outputs.get(number) else {
        return false;
    };
    is_clean_rank(*rank) && lacks(flags.as_slice())
}

// The ranks from the last job to the first, by what those behind are to read.
fn needed_ranks(
    alloc: Global,
    lines: &[Line],
    origins: &[Origin],
    rows: &Rows<'_>,
    used: &[bool],
    first: Vec<Rank>,
) -> Result<Vec<Rank>, OutOfMemory>
    requires each { length first.items ≡ length lines.now }
    ensures each { IfOk result (λ ranks. length ranks.items ≡ length lines.now) }
    ensures ranks { IfOk result (λ ranks. (at : Judging) (jobs : JobsValue) (states : Items StateValue)
        → IsMoment at jobs states lines.now origins.now rows.now used.now
        → first.items ≡ map rank_of (first_states at jobs states) → ranks.items ≡ map rank_of states) }
{
    let mut ranks = first;
    let mut needed = unset(alloc, origins.len())?;
    let mut number = lines.len();
    'jobs: while number > 0 {
        number -= 1;
        let line = &lines[number];
        let rank = last_rank(
            needed.as_slice(),
            rows,
            line,
            number,
            flag_at(used, number),
            ranks[number],
        );
        need(&mut needed, is_to_run(rank), line.inputs.as_slice());
        ranks[number] = rank;
    }
    Ok(ranks)
}

/// The rank of each job, by the ranks of the first pass: a job that is Clean there is a Restore where a job that is to run reads an output
/// of it that isn't whole, unless a child reads what it made.
pub(crate) fn last_ranks(
    alloc: Global,
    lines: &[Line],
    origins: &[Origin],
    rows: &Rows<'_>,
    used: &[bool],
    first: Vec<Rank>,
) -> Result<Vec<Rank>, OutOfMemory>
    requires each { length first.items ≡ length lines.now }
    ensures each { IfOk result (λ ranks. length ranks.items ≡ length lines.now) }
    ensures ranks { IfOk result (λ ranks. (at : Judging) (jobs : JobsValue) (states : Items StateValue)
        → IsMoment at jobs states lines.now origins.now rows.now used.now
        → first.items ≡ map rank_of (first_states at jobs states) → ranks.items ≡ map rank_of states) }
    ensures whole { IfOk result (λ ranks. list_any is_lacking (zip first.items rows.now.outputs.now) ≡ false → ranks.items ≡ first.items) }
{
    if any_lacking(first.as_slice(), rows.outputs) {
        return needed_ranks(alloc, lines, origins, rows, used, first);
    }
    Ok(first)
}
