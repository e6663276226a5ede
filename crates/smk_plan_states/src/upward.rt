//! The first pass, from the first job to the last: what a job is by the jobs before it.

ghost use Rattle.std.specs.Prelude.{◌≡◌, Bool, List as Items, length, map, slice_index_or, false, [], IfOk, IfSome};
ghost use Rattle.std.specs.List.{list_any};
ghost use Rattle.smk_chain.specs.declared.jobs.Jobs.{Jobs as JobsValue};
ghost use Rattle.smk_trigger.specs.declared.reason.Reason.{Reason as ReasonValue};
ghost use Rattle.smk_trigger.specs.declared.reason.State.{State as StateValue};
ghost use Rattle.smk_plan_states.specs.Judged.{Judging};
ghost use Rattle.smk_plan_states.specs.First.{first_states};
ghost use Rattle.smk_plan_states.specs.Moment.{IsMoment};
ghost use Rattle.smk_plan_states.specs.Ranks.{rank_of};
ghost use Rattle.smk_plan_states.specs.Rows.{FitsOwn, FitOwn};
ghost use Rattle.smk_plan_states.specs.Ranking.{is_upstream, dirties_by, is_kept_by, table_rank, first_rank};
ghost use Rattle.smk_plan_states.specs.Stays.{AreEarlier, AreFirst, told_by};

use crate::lack::Lack;
use crate::lines::{Input, Line, Origin, Output};
use crate::opening::is_open;
use crate::ranks::{Rank, by_rank, is_dirty, rank_at, while_running};
use crate::rows::{Own, Rows};
use crate::spots::{began_at, flag_at, maker_at, row_at};
use smk_trigger::State;
use std::alloc::Global;

/// Whether the job of the input is Dirty, and no earlier input has its path.
pub(crate) fn is_upstream(ranks: &[Rank], origins: &[Origin], input: &Input) -> bool
    ensures { result ≡ is_upstream ranks.now origins.now input.now }
{
    !input.again && is_dirty(rank_at(ranks, maker_at(origins, input.link)))
}

fn any_upstream(ranks: &[Rank], origins: &[Origin], inputs: &[Input]) -> bool
    ensures { result ≡ list_any (is_upstream ranks.now origins.now) inputs.now }
{
    for input in inputs {
        if is_upstream(ranks, origins, input) {
            return true;
        }
    }
    false
}

// Whether there are reasons for a job that isn't Open. None where it hangs on its own reasons, and whether it has some isn't known.
#[tactic(auto, using(crate::proofs::OwnReasons::dirty_upstream, crate::proofs::OwnReasons::not_upstream))]
fn dirties(ranks: &[Rank], origins: &[Origin], own: Own, line: &Line) -> Option<bool>
    ensures { IfSome result (λ dirty. (reasons : Items ReasonValue) → FitsOwn own reasons → dirty ≡ dirties_by ranks.now origins.now reasons line.now) }
{
    if any_upstream(ranks, origins, line.inputs.as_slice()) {
        return Some(true);
    }
    match own {
        Own::Unknown => None,
        Own::No => Some(false),
        Own::Yes => Some(true),
    }
}

// The flag of the number; unknown where there is none.
fn own_at(own: &[Own], number: usize) -> Own
    ensures { result ≡ slice_index_or own.now number Own.Unknown }
{
    match own.get(number) {
        None => Own::Unknown,
        Some(flag) => *flag,
    }
}

/// Whether some output isn't whole and is wanted back, whatever jobs are to run.
pub(crate) fn is_kept(outputs: &[Output], flags: &[bool]) -> bool
    ensures { result ≡ is_kept_by outputs.now flags.now }
{
    for (i, output) in outputs.iter().enumerate() {
        let Some(whole) = flags.get(i) else {
            return false;
        };
        if output.wanted && !*whole {
            return true;
        }
    }
    false
}

// The rank of a job by the ranks of the jobs before it, where its child doesn't run. None where it hangs on reasons of which nothing is known.
fn table_rank(
    ranks: &[Rank],
    origins: &[Origin],
    rows: &Rows<'_>,
    line: &Line,
    number: usize,
    used: bool,
) -> Option<Rank>
    ensures { IfSome result (λ rank. (reasons : Items (Items ReasonValue)) → FitOwn rows.now.own.now reasons
        → rank ≡ table_rank ranks.now origins.now rows.now reasons line.now number used) }
{
    if is_open(ranks, origins, rows, line) {
        return Some(Rank::Open);
    }
    let Some(dirty) = dirties(ranks, origins, own_at(rows.own, number), line) else {
        return None;
    };
    let kept = is_kept(line.outputs.as_slice(), row_at(rows.outputs, number)) && !used;
    Some(by_rank(dirty, kept))
}

/// The rank of the first pass by the ranks of the jobs before. None where it hangs on reasons of which nothing is known.
pub(crate) fn first_rank(
    ranks: &[Rank],
    origins: &[Origin],
    rows: &Rows<'_>,
    line: &Line,
    number: usize,
    used: bool,
) -> Option<Rank>
    ensures { IfSome result (λ rank. (reasons : Items (Items ReasonValue)) → FitOwn rows.now.own.now reasons
        → rank ≡ first_rank ranks.now origins.now rows.now reasons line.now number used) }
{
    let begun = began_at(rows.running, number);
    if let Some(State::Dirty(_)) = begun {
        return Some(Rank::Dirty);
    }
    let Some(by_table) = table_rank(ranks, origins, rows, line, number, used) else {
        return None;
    };
    Some(while_running(begun, by_table))
}

/// For each job its rank, but Clean where only jobs that are to run want something back. `used` has for each job whether a child reads what
/// it made. `Lack::Own` where a rank hangs on the reasons of a job of which nothing is known.
pub(crate) fn first_ranks(
    alloc: Global,
    lines: &[Line],
    origins: &[Origin],
    rows: &Rows<'_>,
    used: &[bool],
) -> Result<Vec<Rank>, Lack>
    ensures each { IfOk result (λ ranks. length ranks.items ≡ length lines.now) }
    ensures ranks { IfOk result (λ ranks. (at : Judging) (jobs : JobsValue) (states : Items StateValue)
        → IsMoment at jobs states lines.now origins.now rows.now used.now → ranks.items ≡ map rank_of (first_states at jobs states)) }
    ensures told { IfOk result (λ ranks. (reasons : Items (Items ReasonValue)) (forced : Items Bool) → FitOwn rows.now.own.now reasons
        → AreEarlier lines.now origins.now → AreFirst lines.now origins.now (told_by rows.now reasons forced) used.now ranks.items) }
{
    let mut ranks = Vec::new(alloc);
    for (number, line) in lines.iter().enumerate() {
        let Some(rank) = first_rank(
            ranks.as_slice(),
            origins,
            rows,
            line,
            number,
            flag_at(used, number),
        ) else {
            return Err(Lack::Own(number));
        };
        ranks.push(rank)?;
    }
    Ok(ranks)
}
