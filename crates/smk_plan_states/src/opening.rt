//! Which jobs are Open, by the ranks of the jobs before them.

ghost use Rattle.std.specs.Prelude.{◌≡◌, is_some};
ghost use Rattle.std.specs.List.{list_any};
ghost use Rattle.smk_plan.specs.States.{test_some};
ghost use Rattle.smk_plan_states.specs.Ranks.{rank_at};
ghost use Rattle.smk_plan_states.specs.Spots.{spot_in};
ghost use Rattle.smk_plan_states.specs.Ranking.{over_opens_by, reading_opens_by, gathering_opens_by, input_opens, gathered_opens, opens_by};

use crate::lines::{Gathered, Input, Line, Origin};
use crate::ranks::{Rank, is_clean, is_open as is_open_rank, rank_at};
use crate::rows::Rows;
use crate::spots::{Spot, spot_at};

// Whether it is a member of a directory that isn't there whole by a job that is Clean.
fn over_opens(ranks: &[Rank], spot: Spot) -> bool
    ensures { result ≡ over_opens_by ranks.now spot }
{
    match spot.over {
        Some(whole) => !(is_clean(rank_at(ranks, spot.job)) && whole),
        None => false,
    }
}

// Whether a job is Open that reads the path.
fn reading_opens(ranks: &[Rank], spot: Option<Spot>) -> bool
    ensures { result ≡ test_some (reading_opens_by ranks.now) spot }
{
    match spot {
        Some(spot) => is_open_rank(rank_at(ranks, spot.job)) || over_opens(ranks, spot),
        None => false,
    }
}

// Whether a job is Open that gathers from the directory, of which the files are known or not.
fn gathering_opens(ranks: &[Rank], listed: bool, spot: Option<Spot>) -> bool
    ensures { result ≡ test_some (gathering_opens_by ranks.now listed) spot }
{
    match spot {
        Some(spot) => {
            let rank = rank_at(ranks, spot.job);
            over_opens(ranks, spot)
                || (rank.is_some() && (!(is_clean(rank) && spot.whole) || !listed))
        }
        None => false,
    }
}

fn any_input_opens(ranks: &[Rank], origins: &[Origin], rows: &Rows<'_>, inputs: &[Input]) -> bool
    ensures { result ≡ list_any (input_opens ranks.now (spot_in origins.now rows.now)) inputs.now }
{
    for input in inputs {
        if reading_opens(ranks, spot_at(origins, rows, input.link)) {
            return true;
        }
    }
    false
}

fn any_gathered_opens(
    ranks: &[Rank],
    origins: &[Origin],
    rows: &Rows<'_>,
    gathers: &[Gathered],
) -> bool
    ensures { result ≡ list_any (gathered_opens ranks.now (spot_in origins.now rows.now)) gathers.now }
{
    for gathered in gathers {
        if gathering_opens(
            ranks,
            gathered.listed,
            spot_at(origins, rows, gathered.link),
        ) {
            return true;
        }
    }
    false
}

/// Whether the job is Open, by the ranks of the jobs before it.
pub(crate) fn is_open(ranks: &[Rank], origins: &[Origin], rows: &Rows<'_>, line: &Line) -> bool
    ensures { result ≡ opens_by ranks.now (spot_in origins.now rows.now) line.now }
{
    any_input_opens(ranks, origins, rows, line.inputs.as_slice())
        || any_gathered_opens(ranks, origins, rows, line.gathers.as_slice())
}
