//! Which jobs are held back: to be restored, but counted as Clean while a child reads what they made.

ghost use Rattle.std.specs.Prelude.{◌≡◌, ◌<◌, ◌&&◌, ◌||◌, ℕ, List as Items, is_none, length, map, slice_index_or, false, IfOk};
ghost use Rattle.std.specs.List.{list_any, zip};
ghost use Rattle.smk_trigger.specs.declared.reason.State.{State as StateValue};
ghost use Rattle.smk_plan_states.specs.Ranks.{is_clean_rank, rank_of};
ghost use Rattle.smk_plan_states.specs.Ranking.{is_held_by, is_kept_by, is_lent_lacking, is_needed_by_flags, is_needed_in};
ghost use Rattle.smk_chain.specs.declared.jobs.Jobs.{Jobs as JobsValue};
ghost use Rattle.smk_plan_states.specs.Judged.{Judging, any_held_back};
ghost use Rattle.smk_plan_states.specs.Moment.{IsMoment};

use crate::downward::{is_needed, lacks, need, unset};
use crate::lines::{Line, Origin, Output};
use crate::ranks::{Rank, is_clean_rank, is_to_run};
use crate::rows::Rows;
use crate::upward::is_kept;
use smk_base::{List, OutOfMemory};
use smk_trigger::State;
use std::alloc::Global;

// For each link whether a job that is to run reads its path; there are so many of them.
fn needed_in(
    alloc: Global,
    count: usize,
    lines: &[Line],
    ranks: &[Rank],
) -> Result<Vec<bool>, OutOfMemory>
    ensures { IfOk result (λ needed. (n : ℕ) → n < count → slice_index_or needed.items n false ≡ is_needed_in lines.now ranks.now n) }
{
    let mut needed = unset(alloc, count)?;
    for (i, line) in lines.iter().enumerate() {
        let Some(rank) = ranks.get(i) else {
            return Ok(needed);
        };
        need(&mut needed, is_to_run(*rank), line.inputs.as_slice());
    }
    Ok(needed)
}

// Whether the job counts as Clean, and no child of it runs.
fn is_resting(rank: Rank, begun: &Option<State>) -> bool
    ensures { result ≡ (is_none begun.now && is_clean_rank rank) }
{
    begun.is_none() && is_clean_rank(rank)
}

// Whether some output that isn't whole is wanted back.
fn is_wanted(needed: &[bool], outputs: &[Output], flags: &[bool]) -> bool
    ensures { result ≡ (is_needed_by_flags needed.now outputs.now flags.now || is_kept_by outputs.now flags.now) }
{
    is_needed(needed, outputs, flags) || is_kept(outputs, flags)
}

// Whether the job is held back.
fn is_held(
    needed: &[bool],
    line: &Line,
    rank: Rank,
    begun: &Option<State>,
    used: bool,
    flags: &[bool],
) -> bool
    ensures { result ≡ is_held_by needed.now (line.now, (rank, (begun.now, (used, flags.now)))) }
{
    is_resting(rank, begun) && (used && is_wanted(needed, line.outputs.as_slice(), flags))
}

// Whether one of the jobs is held back. `used` has for each job whether a child reads what it made.
fn is_any_held(
    needed: &[bool],
    lines: &[Line],
    ranks: &[Rank],
    running: &[Option<State>],
    used: &[bool],
    outputs: &[List<bool>],
) -> bool
    ensures { result ≡ list_any (is_held_by needed.now) (zip lines.now (zip ranks.now (zip running.now (zip used.now outputs.now)))) }
{
    for (i, line) in lines.iter().enumerate() {
        let Some(rank) = ranks.get(i) else {
            return false;
        };
        let Some(begun) = running.get(i) else {
            return false;
        };
        let Some(used) = used.get(i) else {
            return false;
        };
        let Some(flags) = outputs.get(i) else {
            return false;
        };
        if is_held(needed, line, *rank, begun, *used, flags.as_slice()) {
            return true;
        }
    }
    false
}

// Whether the job counts as Clean, a child reads what it made, and an output of it isn't whole.
fn is_lent_lacking(rank: Rank, used: bool, flags: &[bool]) -> bool
    ensures { result ≡ is_lent_lacking (rank, (used, flags.now)) }
{
    is_clean_rank(rank) && (used && lacks(flags))
}

// Whether one of these is so, which may be held back.
fn may_be_held(ranks: &[Rank], used: &[bool], outputs: &[List<bool>]) -> bool
    ensures { result ≡ list_any is_lent_lacking (zip ranks.now (zip used.now outputs.now)) }
{
    for (i, rank) in ranks.iter().enumerate() {
        let Some(used) = used.get(i) else {
            return false;
        };
        let Some(flags) = outputs.get(i) else {
            return false;
        };
        if is_lent_lacking(*rank, *used, flags.as_slice()) {
            return true;
        }
    }
    false
}

/// Whether one of the jobs of these ranks is held back. `used` has for each job whether a child reads what it made.
pub(crate) fn any_held(
    alloc: Global,
    lines: &[Line],
    origins: &[Origin],
    rows: &Rows<'_>,
    used: &[bool],
    ranks: &[Rank],
) -> Result<bool, OutOfMemory>
    ensures { IfOk result (λ held. (at : Judging) (jobs : JobsValue) (states : Items StateValue)
        → IsMoment at jobs states lines.now origins.now rows.now used.now → ranks.now ≡ map rank_of states → held ≡ any_held_back at jobs states) }
{
    if !may_be_held(ranks, used, rows.outputs) {
        return Ok(false);
    }
    let needed = needed_in(alloc, origins.len(), lines, ranks)?;
    Ok(is_any_held(
        needed.as_slice(),
        lines,
        ranks,
        rows.running,
        used,
        rows.outputs,
    ))
}
