//! The ranks of the jobs after a step of one of them, where no other rank changes.

ghost use Rattle.std.specs.Prelude.{◌≡◌, ◌<◌, ◌==◌, ◌||◌, ℕ, Bool, List as Items, length, slice_index_or, Some, true, false, IfOk, IfSome};
ghost use Rattle.std.specs.List.{list_any, slice_get};
ghost use Rattle.smk_plan_states.specs.declared.lines.Line.{Line as LineValue};
ghost use Rattle.smk_trigger.specs.declared.reason.Reason.{Reason as ReasonValue};
ghost use Rattle.smk_plan.specs.States.{test_some};
ghost use Rattle.smk_plan_states.specs.Rows.{FitOwn};
ghost use Rattle.smk_plan_states.specs.Ranks.{is_open_rank};
ghost use Rattle.smk_plan_states.specs.Ranking.{is_upstream};
ghost use Rattle.smk_plan_states.specs.Stays.{told_by, AreAfter, IsApart, IsStillDirty, IsToldBy, has_number};

use crate::downward::{set_at, unset};
use crate::lack::Lack;
use crate::lines::{Input, Line, Origin};
use crate::ranks::Rank;
use crate::rows::Rows;
use crate::spots::flag_at;
use crate::upward::{first_rank, is_upstream};
use smk_base::OutOfMemory;
use std::alloc::Global;

// Sets the flags of these numbers.
fn mark(flags: &mut Vec<bool>, numbers: &[usize])
    ensures each { length flags.new.items ≡ length flags.old.items }
    ensures set { (n : ℕ) → n < length flags.old.items
        → slice_index_or flags.new.items n false ≡ (slice_index_or flags.old.items n false || has_number n numbers.now) }
{
    for number in numbers {
        set_at(flags, Some(*number));
    }
}

// Sets the flags where these two differ.
fn mark_differing(flags: &mut Vec<bool>, one: &[bool], other: &[bool])
    ensures each { length flags.new.items ≡ length flags.old.items }
    ensures kept { (n : ℕ) → n < length flags.old.items → slice_index_or flags.old.items n false ≡ true → slice_index_or flags.new.items n false ≡ true }
    ensures set { (n : ℕ) → n < length flags.old.items → slice_index_or flags.new.items n false ≡ false
        → slice_index_or one.now n false ≡ slice_index_or other.now n false }
{
    for number in 0..flags.len() {
        if flag_at(one, number) != flag_at(other, number) {
            set_at(flags, Some(number));
        }
    }
}

// Whether the rank of the number is this one.
fn is_rank(ranks: &[Rank], number: usize, rank: Rank) -> bool
    ensures { result ≡ true → slice_get ranks.now number ≡ Some rank }
{
    match ranks.get(number) {
        None => false,
        Some(found) => match (*found, rank) {
            (Rank::Open, Rank::Open) => true,
            (Rank::Dirty, Rank::Dirty) => true,
            (Rank::Restore, Rank::Restore) => true,
            (Rank::Clean, Rank::Clean) => true,
            _ => false,
        },
    }
}

/// What ranks are told by after a step of one job, besides the rows.
#[derive(Clone, Copy)]
pub(crate) struct Step<'s> {
    pub(crate) origins: &'s [Origin],
    /// From which jobs the children of others read.
    pub(crate) used: &'s [bool],
    /// Which jobs are doubted.
    pub(crate) doubts: &'s [bool],
    /// Which lines are plain: they gather from nothing, and none of their inputs is a member of a directory.
    pub(crate) plain: &'s [bool],
    /// The number of the job.
    pub(crate) job: usize,
}

// Whether the job of an input is Dirty. The last inputs are looked at first: jobs begin in their order, so that the last ones of those that one job joins are Dirty longest.
fn is_any_upstream(ranks: &[Rank], origins: &[Origin], inputs: &[Input]) -> bool
    ensures { result ≡ true → list_any (is_upstream ranks.now origins.now) inputs.now ≡ true }
{
    for number in (0..inputs.len()).rev() {
        if is_upstream(ranks, origins, &inputs[number]) {
            return true;
        }
    }
    false
}

// Whether the job of the number isn't Open, so far as there is one.
fn is_shut(ranks: &[Rank], number: usize) -> bool
    ensures { result ≡ true → test_some is_open_rank (slice_get ranks.now number) ≡ false }
{
    match ranks.get(number) {
        None => true,
        Some(Rank::Open) => false,
        Some(_) => true,
    }
}

impl Step<'_> {
    // Whether the job of the number, with this line, is seen to be still Dirty.
    fn is_still_dirty(&self, ranks: &[Rank], number: usize, line: &Line) -> bool
        ensures { result ≡ true → IsStillDirty self.now.origins.now self.now.plain.now self.now.job ranks.now number line.now }
    {
        number != self.job
            && is_shut(ranks, self.job)
            && is_rank(ranks, number, Rank::Dirty)
            && flag_at(self.plain, number)
            && is_any_upstream(ranks, self.origins, line.inputs.as_slice())
    }

    // Whether the job of the number, with this line, has the rank that it has by these ranks, where it is doubted.
    fn is_told(
        &self,
        rows: &Rows<'_>,
        ranks: &[Rank],
        number: usize,
        line: &Line,
    ) -> Result<bool, Lack>
        ensures { IfOk result (λ told. told ≡ true → (reasons : Items (Items ReasonValue)) (forced : Items Bool) → FitOwn rows.now.own.now reasons
            → slice_index_or self.now.doubts.now number false ≡ true
            → IsToldBy self.now.origins.now (told_by rows.now reasons forced) self.now.used.now self.now.plain.now self.now.job ranks.now number line.now) }
    {
        if !flag_at(self.doubts, number) {
            return Ok(true);
        }
        if self.is_still_dirty(ranks, number, line) {
            return Ok(true);
        }
        let used = flag_at(self.used, number);
        let Some(rank) = first_rank(ranks, self.origins, rows, line, number, used) else {
            return Err(Lack::Own(number));
        };
        Ok(is_rank(ranks, number, rank))
    }

    // Whether each job that is doubted has the rank that it has by these ranks.
    fn are_told(&self, lines: &[Line], rows: &Rows<'_>, ranks: &[Rank]) -> Result<bool, Lack>
        ensures { IfOk result (λ told. told ≡ true → (reasons : Items (Items ReasonValue)) (forced : Items Bool) → FitOwn rows.now.own.now reasons
            → (n : ℕ) (line : LineValue) → slice_get lines.now n ≡ Some line → slice_index_or self.now.doubts.now n false ≡ true
            → IsToldBy self.now.origins.now (told_by rows.now reasons forced) self.now.used.now self.now.plain.now self.now.job ranks.now n line) }
    {
        for (number, line) in lines.iter().enumerate() {
            if !self.is_told(rows, ranks, number, line)? {
                return Ok(false);
            }
        }
        Ok(true)
    }
}

/// What is doubted after a step of the job: itself, its readers, those that watch it, and each of which a child reads that didn't, or no longer.
pub(crate) fn doubts_of(
    alloc: Global,
    count: usize,
    job: usize,
    readers: &[usize],
    watchers: &[usize],
    was: &[bool],
    used: &[bool],
) -> Result<Vec<bool>, OutOfMemory>
    ensures { IfOk result (λ doubts. (n : ℕ) → n < count → slice_index_or doubts.items n false ≡ false → IsApart job readers.now watchers.now was.now used.now n) }
{
    let mut doubts = unset(alloc, count)?;
    set_at(&mut doubts, Some(job));
    mark(&mut doubts, readers);
    mark(&mut doubts, watchers);
    mark_differing(&mut doubts, used, was);
    Ok(doubts)
}

// The ranks with this one in the place of the number.
fn with_rank(
    alloc: Global,
    ranks: &[Rank],
    number: usize,
    rank: Rank,
) -> Result<Vec<Rank>, OutOfMemory>
    ensures each { IfOk result (λ found. length found.items ≡ length ranks.now) }
    ensures others { IfOk result (λ found. (m : ℕ) → (m == number) ≡ false → slice_get found.items m ≡ slice_get ranks.now m) }
{
    let mut found = Vec::from_slice(alloc, ranks)?;
    if number < found.len() {
        found[number] = rank;
    }
    Ok(found)
}

/// The ranks of the first pass after the step, where none changes but maybe that of the job. `Lack::Own` where a rank hangs on the reasons of a job of which nothing is
/// known.
pub(crate) fn ranks_after(
    alloc: Global,
    lines: &[Line],
    rows: &Rows<'_>,
    step: &Step<'_>,
    before: &[Rank],
) -> Result<Option<Vec<Rank>>, Lack>
    ensures within { IfOk result (λ found. IfSome found (λ ranks. step.now.job < length lines.now)) }
    ensures after { IfOk result (λ found. IfSome found (λ ranks. (reasons : Items (Items ReasonValue)) (forced : Items Bool) → FitOwn rows.now.own.now reasons
        → AreAfter lines.now step.now.origins.now (told_by rows.now reasons forced) step.now.used.now step.now.doubts.now step.now.plain.now step.now.job before.now ranks.items)) }
{
    let job = step.job;
    let Some(line) = lines.get(job) else {
        return Ok(None);
    };
    let used = flag_at(step.used, job);
    let Some(rank) = first_rank(before, step.origins, rows, line, job, used) else {
        return Err(Lack::Own(job));
    };
    let ranks = with_rank(alloc, before, job, rank)?;
    if step.are_told(lines, rows, ranks.as_slice())? {
        return Ok(Some(ranks));
    }
    Ok(None)
}
