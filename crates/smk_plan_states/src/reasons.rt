//! The states of jobs by their ranks, with the reasons of those that are Dirty.

ghost use Rattle.std.specs.Prelude.{◌≡◌, ◌++◌, map, option_map, slice_index_or, IfOk, OnOk};
ghost use Rattle.smk_trigger.specs.Reasons.{when};
ghost use Rattle.smk_plan_states.specs.Ranks.{plain_state};
ghost use Rattle.smk_plan_states.specs.Ranking.{is_upstream, upstream_paths};
ghost use Rattle.smk_plan_states.specs.Stays.{alone_in, state_told, state_with, states_told, told_by};

use crate::lines::{Input, Line, Origin};
use crate::ranks::Rank;
use crate::rows::Rows;
use crate::spots::{began_at, flag_at, row_at};
use crate::upward::is_upstream;
use smk_base::{List, OutOfMemory};
use smk_trigger::{Reason, Reasons, State};
use std::alloc::Global;

// A copy of the reason.
fn reason_again(alloc: Global, reason: &Reason) -> Result<Reason, OutOfMemory>
    ensures { IfOk result (λ copy. copy ≡ reason.now) }
{
    match reason {
        Reason::New => Ok(Reason::New),
        Reason::Marked => Ok(Reason::Marked),
        Reason::BadRecord => Ok(Reason::BadRecord),
        Reason::Code => Ok(Reason::Code),
        Reason::Params => Ok(Reason::Params),
        Reason::Inputs => Ok(Reason::Inputs),
        Reason::Updated(path) => Ok(Reason::Updated(path.copy(alloc)?)),
        Reason::Upstream(path) => Ok(Reason::Upstream(path.copy(alloc)?)),
        Reason::Forced => Ok(Reason::Forced),
    }
}

// A copy of the reasons.
fn reasons_again(alloc: Global, reasons: &[Reason]) -> Result<List<Reason>, OutOfMemory>
    ensures { IfOk result (λ copy. copy ≡ reasons.now) }
{
    let mut copy = List::new(alloc);
    for reason in reasons {
        copy.push(reason_again(alloc, reason)?)?;
    }
    Ok(copy)
}

/// A copy of the state, which shares its reasons. `OutOfMemory` where these have too many copies to be counted.
pub fn state_again(state: &State) -> Result<State, OutOfMemory>
    ensures { IfOk result (λ copy. copy ≡ state.now) }
{
    match state {
        State::Open => Ok(State::Open),
        State::Dirty(reasons) => Ok(State::Dirty(reasons.copy()?)),
        State::Restore => Ok(State::Restore),
        State::Clean => Ok(State::Clean),
    }
}

// Adds the input, where its job is Dirty and no earlier input has its path.
fn push_upstream(
    alloc: Global,
    found: &mut List<Reason>,
    ranks: &[Rank],
    origins: &[Origin],
    input: &Input,
) -> Result<(), OutOfMemory>
    ensures { OnOk result (found.new ≡ found.old ++ when (is_upstream ranks.now origins.now input.now) (Reason.Upstream input.now.path)) }
{
    if !is_upstream(ranks, origins, input) {
        return Ok(());
    }
    found.push(Reason::Upstream(input.path.copy(alloc)?))?;
    Ok(())
}

// Adds the inputs whose job is Dirty, each once.
fn push_upstreams(
    alloc: Global,
    found: &mut List<Reason>,
    ranks: &[Rank],
    origins: &[Origin],
    inputs: &[Input],
) -> Result<(), OutOfMemory>
    ensures { OnOk result (found.new ≡ found.old ++ map (λ q. Reason.Upstream q) (upstream_paths ranks.now origins.now inputs.now)) }
{
    for input in inputs {
        push_upstream(alloc, found, ranks, origins, input)?;
    }
    Ok(())
}

// The reasons without Forced, which stands last where the job is forced.
fn without_forced(own: &[Reason], forced: bool) -> &[Reason]
    ensures { result.now ≡ alone_in forced own.now }
{
    if !forced {
        return own;
    }
    match own.split_last() {
        Some((_, alone)) => alone,
        None => own,
    }
}

fn push_forced(found: &mut List<Reason>, forced: bool) -> Result<(), OutOfMemory>
    ensures { OnOk result (found.new ≡ found.old ++ when forced Reason.Forced) }
{
    if !forced {
        return Ok(());
    }
    found.push(Reason::Forced)?;
    Ok(())
}

// The reasons of a job: its own, then the inputs whose job is Dirty, then Forced.
fn all_reasons(
    alloc: Global,
    ranks: &[Rank],
    origins: &[Origin],
    inputs: &[Input],
    own: &[Reason],
    forced: bool,
) -> Result<List<Reason>, OutOfMemory>
    ensures { IfOk result (λ found. found
        ≡ alone_in forced own.now ++ (map (λ q. Reason.Upstream q) (upstream_paths ranks.now origins.now inputs.now) ++ when forced Reason.Forced)) }
{
    let mut found = reasons_again(alloc, without_forced(own, forced))?;
    push_upstreams(alloc, &mut found, ranks, origins, inputs)?;
    push_forced(&mut found, forced)?;
    Ok(found)
}

// The state of this rank.
fn plain_state(
    alloc: Global,
    rank: Rank,
    ranks: &[Rank],
    origins: &[Origin],
    inputs: &[Input],
    own: &[Reason],
    forced: bool,
) -> Result<State, OutOfMemory>
    ensures { IfOk result (λ state. state
        ≡ plain_state rank (alone_in forced own.now ++ (map (λ q. Reason.Upstream q) (upstream_paths ranks.now origins.now inputs.now) ++ when forced Reason.Forced))) }
{
    match rank {
        Rank::Open => Ok(State::Open),
        Rank::Dirty => {
            let reasons = all_reasons(alloc, ranks, origins, inputs, own, forced)?;
            Ok(State::Dirty(Reasons::of(alloc, reasons)?))
        }
        Rank::Restore => Ok(State::Restore),
        Rank::Clean => Ok(State::Clean),
    }
}

/// The state of a job that has this rank among these, and had that state when its child began, if it runs.
pub(crate) fn state_with(
    alloc: Global,
    begun: Option<&State>,
    rank: Rank,
    ranks: &[Rank],
    origins: &[Origin],
    inputs: &[Input],
    own: &[Reason],
    forced: bool,
) -> Result<State, OutOfMemory>
    ensures { IfOk result (λ state. state ≡ state_with ranks.now origins.now inputs.now (option_map (λ s. s.now) begun.entry) rank forced own.now) }
{
    match begun {
        Some(State::Dirty(reasons)) => Ok(State::Dirty(reasons.copy()?)),
        _ => plain_state(alloc, rank, ranks, origins, inputs, own, forced),
    }
}

/// The rank of the number; Open where there is none.
pub(crate) fn rank_or_open(ranks: &[Rank], number: usize) -> Rank
    ensures { result ≡ slice_index_or ranks.now number Rank.Open }
{
    match ranks.get(number) {
        None => Rank::Open,
        Some(rank) => *rank,
    }
}

// The state of the job of the number, with this line.
fn state_told(
    alloc: Global,
    line: &Line,
    number: usize,
    origins: &[Origin],
    rows: &Rows<'_>,
    reasons: &[List<Reason>],
    forced: &[bool],
    ranks: &[Rank],
) -> Result<State, OutOfMemory>
    ensures { IfOk result (λ state. state ≡ state_told origins.now (told_by rows.now reasons.now forced.now) ranks.now number line.now) }
{
    state_with(
        alloc,
        began_at(rows.running, number),
        rank_or_open(ranks, number),
        ranks,
        origins,
        line.inputs.as_slice(),
        row_at(reasons, number),
        flag_at(forced, number),
    )
}

/// The state of each job, by its rank.
pub(crate) fn states_of(
    alloc: Global,
    lines: &[Line],
    origins: &[Origin],
    rows: &Rows<'_>,
    reasons: &[List<Reason>],
    forced: &[bool],
    ranks: &[Rank],
) -> Result<List<State>, OutOfMemory>
    ensures { IfOk result (λ states. states ≡ states_told lines.now origins.now (told_by rows.now reasons.now forced.now) ranks.now) }
{
    let mut found = List::new(alloc);
    for (number, line) in lines.iter().enumerate() {
        let state = state_told(alloc, line, number, origins, rows, reasons, forced, ranks)?;
        found.push(state)?;
    }
    Ok(found)
}
