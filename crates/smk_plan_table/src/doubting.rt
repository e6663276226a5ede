//! Whether something may be refused.

ghost use Rattle.std.specs.Prelude.{◌≡◌};
ghost use Rattle.smk_plan_table.specs.Parts.{may_be_marked, may_be_refused, may_be_stopped};

use crate::suspects::Suspect;
use smk_plan_states::{Rank, is_to_run};
use smk_trigger::State;

// Whether an output of a job may have a mark whose child doesn't run. `running` has for each the state that it had when it began, if its child runs.
fn may_be_marked(running: &[Option<State>], suspects: &[Suspect]) -> bool
    ensures { result ≡ may_be_marked running.now suspects.now }
{
    let mut rest = suspects;
    for kept in running {
        let Some((suspect, later)) = rest.split_first() else {
            return false;
        };
        if kept.is_none() && suspect.marked {
            return true;
        }
        rest = later;
    }
    false
}

// Whether a read-only file may be in the way of a job that has to run, or it may ask more than a bound.
fn may_be_stopped(ranks: &[Rank], suspects: &[Suspect]) -> bool
    ensures { result ≡ may_be_stopped ranks.now suspects.now }
{
    let mut rest = suspects;
    for rank in ranks {
        let Some((suspect, later)) = rest.split_first() else {
            return false;
        };
        if is_to_run(*rank) && (suspect.guarded || suspect.above) {
            return true;
        }
        rest = later;
    }
    false
}

/// Whether something may be refused of jobs of these ranks. `running` has for each the state that it had when it began, if its child runs; marks count unless
/// incomplete jobs are to be run again.
pub(crate) fn may_be_refused(
    rerun: bool,
    running: &[Option<State>],
    ranks: &[Rank],
    suspects: &[Suspect],
) -> bool
    ensures { result ≡ may_be_refused rerun running.now ranks.now suspects.now }
{
    (!rerun && may_be_marked(running, suspects)) || may_be_stopped(ranks, suspects)
}
