//! What is kept of the ranks of jobs between two steps.

ghost use Rattle.std.specs.Prelude.{◌≡◌, ◌<◌, ℕ, Bool, List as Items, length, map, slice_index_or, Some, true, false, IfOk, IfSome};
ghost use Rattle.std.specs.List.{list_any, slice_get, zip};
ghost use Rattle.smk_plan_states.specs.declared.lines.Line.{Line as LineValue};
ghost use Rattle.smk_chain.specs.declared.jobs.Jobs.{Jobs as JobsValue};
ghost use Rattle.smk_trigger.specs.declared.reason.State.{State as StateValue};
ghost use Rattle.smk_plan_states.specs.Judged.{Judging};
ghost use Rattle.smk_plan_states.specs.First.{first_states};
ghost use Rattle.smk_plan_states.specs.Moment.{IsMoment};
ghost use Rattle.smk_plan_states.specs.Ranks.{rank_of};
ghost use Rattle.smk_plan_states.specs.Ranking.{is_lacking, is_read_by_child};
ghost use Rattle.smk_trigger.specs.declared.reason.Reason.{Reason as ReasonValue};
ghost use Rattle.smk_plan_states.specs.Rows.{FitOwn};
ghost use Rattle.smk_plan_states.specs.Stays.{AreEarlier, AreRowsBut, Told, has_number, reads_of, told_by};
ghost use Rattle.smk_plan_states.specs.Standing.{HasGone, IsStanding};

use crate::after::{Step, doubts_of, ranks_after};
use crate::downward::{any_lacking, is_lacking_at, last_ranks};
use crate::lack::Lack;
use crate::lines::{Line, Origin};
use crate::plain::plain_lines;
use crate::ranks::Rank;
use crate::rows::Rows;
use crate::upward::first_ranks;
use std::alloc::Global;

/// The ranks of jobs, with what is kept of them for the next step of a run.
#[derive(Drop)]
pub struct Ranking {
    // The ranks of the first pass.
    pub(crate) first: Vec<Rank>,
    // The ranks of the jobs.
    pub(crate) last: Vec<Rank>,
    // From which jobs the children of others read.
    pub(crate) used: Vec<bool>,
    // A job that is Clean by the first pass may lack an output.
    pub(crate) lacking: bool,
    // Which lines are plain.
    pub(crate) plain: Vec<bool>,
}

impl Ranking {
    /// For each job its rank. It takes no memory.
    pub fn ranks(&self) -> &[Rank]
        ensures { result.now ≡ self.now.last.items }
    {
        self.last.as_slice()
    }

    /// For each job whether the child of another one reads what it made. It takes no memory.
    pub fn used(&self) -> &[bool]
        ensures { result.now ≡ self.now.used.items }
    {
        self.used.as_slice()
    }
}

/// The ranks, told of all jobs in two passes. `Lack::Own` where one hangs on the reasons of a job of which nothing is known.
pub(crate) fn rank_all(
    alloc: Global,
    lines: &[Line],
    origins: &[Origin],
    rows: &Rows<'_>,
    used: Vec<bool>,
) -> Result<Ranking, Lack>
    ensures used { IfOk result (λ r. r.used ≡ used) }
    ensures each { IfOk result (λ r. length r.last.items ≡ length lines.now) }
    ensures ranks { IfOk result (λ r. (at : Judging) (jobs : JobsValue) (states : Items StateValue)
        → IsMoment at jobs states lines.now origins.now rows.now used.items → r.last.items ≡ map rank_of states) }
    ensures standing { IfOk result (λ r. (reasons : Items (Items ReasonValue)) (forced : Items Bool) → FitOwn rows.now.own.now reasons
        → AreEarlier lines.now origins.now → length used.items ≡ length lines.now
        → ((n : ℕ) → n < length lines.now → slice_index_or used.items n false ≡ is_read_by_child lines.now origins.now rows.now.running.now n)
        → IsStanding lines.now origins.now (told_by rows.now reasons forced) r) }
{
    let first = first_ranks(alloc, lines, origins, rows, used.as_slice())?;
    let lacking = any_lacking(first.as_slice(), rows.outputs);
    let again = Vec::from_slice(alloc, first.as_slice())?;
    let last = last_ranks(alloc, lines, origins, rows, used.as_slice(), again)?;
    let plain = plain_lines(alloc, lines, origins)?;
    Ok(Ranking {
        first,
        last,
        used,
        lacking,
        plain,
    })
}

/// What was kept of the ranks before a step of one job.
#[derive(Clone, Copy)]
pub struct Last<'l> {
    pub ranking: &'l Ranking,
    /// The number of the job that began or was closed.
    pub job: usize,
    /// The jobs whose reasons were told anew besides it.
    pub readers: &'l [usize],
}

// Whether there is a rank for each line.
fn is_for_each(ranks: &[Rank], lines: &[Line]) -> bool
    ensures { result ≡ true → length ranks.now ≡ length lines.now }
{
    ranks.len() == lines.len()
}

// The ranks after the step of the job, where none of the first pass changes but maybe that of the job, and that isn't Clean with an output that isn't whole: of no other job
// is that so, if it wasn't before the step.
fn go_on(
    alloc: Global,
    lines: &[Line],
    rows: &Rows<'_>,
    step: &Step<'_>,
    ranks: &[Rank],
) -> Result<Option<Vec<Rank>>, Lack>
    ensures { IfOk result (λ found. IfSome found (λ now.
        HasGone lines.now step.now.origins.now rows.now step.now.used.now step.now.doubts.now step.now.plain.now step.now.job ranks.now now.items)) }
{
    let Some(first) = ranks_after(alloc, lines, rows, step, ranks)? else {
        return Ok(None);
    };
    if !is_for_each(first.as_slice(), lines) {
        return Ok(None);
    }
    if is_lacking_at(first.as_slice(), rows.outputs, step.job) {
        return Ok(None);
    }
    Ok(Some(first))
}

/// The ranks after the step of the job, which these watch, where no rank of the first pass changes but maybe that of the job; None where one may.
pub(crate) fn rank_after(
    alloc: Global,
    lines: &[Line],
    origins: &[Origin],
    rows: &Rows<'_>,
    used: Vec<bool>,
    watchers: &[usize],
    last: Last<'_>,
) -> Result<Option<Ranking>, Lack>
    ensures kept { IfOk result (λ found. IfSome found (λ r. (r.used ≡ used) × (r.lacking ≡ false) × (length r.last.items ≡ length lines.now) × (last.entry.job < length lines.now))) }
    ensures standing { IfOk result (λ found. IfSome found (λ r. (reasons : Items (Items ReasonValue)) (forced : Items Bool) → FitOwn rows.now.own.now reasons
        → (before : Told)
        → IsStanding lines.now origins.now before last.entry.ranking.now → AreRowsBut origins.now last.entry.job last.entry.readers.now before (told_by rows.now reasons forced)
        → ((n : ℕ) (line : LineValue) → slice_get lines.now n ≡ Some line → reads_of origins.now last.entry.job line ≡ true → has_number n watchers.now ≡ true)
        → length used.items ≡ length lines.now
        → ((n : ℕ) → n < length lines.now → slice_index_or used.items n false ≡ is_read_by_child lines.now origins.now rows.now.running.now n)
        → IsStanding lines.now origins.now (told_by rows.now reasons forced) r)) }
{
    let ranking = last.ranking;
    if ranking.lacking {
        return Ok(None);
    }
    let doubts = doubts_of(
        alloc,
        lines.len(),
        last.job,
        last.readers,
        watchers,
        ranking.used.as_slice(),
        used.as_slice(),
    )?;
    let step = Step {
        origins,
        used: used.as_slice(),
        doubts: doubts.as_slice(),
        plain: ranking.plain.as_slice(),
        job: last.job,
    };
    match go_on(alloc, lines, rows, &step, ranking.first.as_slice())? {
        None => Ok(None),
        Some(first) => {
            let again = Vec::from_slice(alloc, first.as_slice())?;
            let plain = Vec::from_slice(alloc, ranking.plain.as_slice())?;
            Ok(Some(Ranking {
                first,
                last: again,
                used,
                lacking: false,
                plain,
            }))
        }
    }
}
