//! Ranks: what states are, without their reasons.

ghost use Rattle.std.specs.Prelude.{◌≡◌};
ghost use Rattle.smk_plan.specs.States.{test_some};
ghost use Rattle.smk_plan_states.specs.Ranks.{rank_of, rank_at, is_open_rank, is_dirty_rank, is_clean_rank, is_to_run_rank, by_rank, unless_clean_rank, rank_while_running, unless_needed_rank};
ghost use Rattle.std.specs.Prelude.{option_map};

use smk_trigger::State;

/// What a state is, without its reasons.
#[derive(Clone, Copy)]
pub enum Rank {
    Open,
    Dirty,
    Restore,
    Clean,
}

/// The rank of the job with this number.
pub(crate) fn rank_at(ranks: &[Rank], number: Option<u32>) -> Option<Rank>
    ensures { result ≡ rank_at ranks.now number }
{
    match number {
        Some(number) => ranks.get(number as usize).copied(),
        None => None,
    }
}

/// Whether there is a job, which is Open.
pub(crate) fn is_open(rank: Option<Rank>) -> bool
    ensures { result ≡ test_some is_open_rank rank }
{
    matches!(rank, Some(Rank::Open))
}

/// Whether there is a job, which is Dirty.
pub(crate) fn is_dirty(rank: Option<Rank>) -> bool
    ensures { result ≡ test_some is_dirty_rank rank }
{
    matches!(rank, Some(Rank::Dirty))
}

/// Whether there is a job, which is Clean.
pub(crate) fn is_clean(rank: Option<Rank>) -> bool
    ensures { result ≡ test_some is_clean_rank rank }
{
    matches!(rank, Some(Rank::Clean))
}

/// Whether a job of this rank is to run.
pub fn is_to_run(rank: Rank) -> bool
    ensures { result ≡ is_to_run_rank rank }
{
    matches!(rank, Rank::Dirty | Rank::Restore)
}

/// Whether the rank is Clean.
pub(crate) fn is_clean_rank(rank: Rank) -> bool
    ensures { result ≡ is_clean_rank rank }
{
    matches!(rank, Rank::Clean)
}

/// The rank of a job that isn't Open.
pub(crate) fn by_rank(dirty: bool, restores: bool) -> Rank
    ensures { result ≡ by_rank dirty restores }
{
    if dirty {
        return Rank::Dirty;
    }
    if restores { Rank::Restore } else { Rank::Clean }
}

// A Restore in the place of Clean.
fn unless_clean(rank: Rank) -> Rank
    ensures { result ≡ unless_clean_rank rank }
{
    match rank {
        Rank::Clean => Rank::Restore,
        other => other,
    }
}

/// The rank of a job, which had this state when its child began, if it runs.
pub(crate) fn while_running(begun: Option<&State>, rank: Rank) -> Rank
    ensures { result ≡ rank_while_running (option_map (λ state. state.now) begun.entry) rank }
{
    match begun {
        None => rank,
        Some(State::Dirty(_)) => Rank::Dirty,
        Some(_) => unless_clean(rank),
    }
}

/// A Restore, where a job is Clean and what it made is needed.
pub(crate) fn unless_needed(needed: bool, rank: Rank) -> Rank
    ensures { result ≡ unless_needed_rank needed rank }
{
    match rank {
        Rank::Clean => { if needed { Rank::Restore } else { Rank::Clean } }
        other => other,
    }
}
