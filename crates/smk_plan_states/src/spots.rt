//! What is known of paths by their links.

ghost use Rattle.std.specs.Prelude.{◌≡◌, slice_index_or, false, None, option_map, []};
ghost use Rattle.std.specs.List.{slice_get};
ghost use Rattle.std.specs.Option.{option_and_then};
ghost use Rattle.smk_plan_states.specs.Spots.{origin_at, maker_at, over_flag, spot_of, spot_in};

use crate::lines::Origin;
use crate::rows::Rows;
use smk_base::List;
use smk_trigger::State;

/// The job that makes a path, none for a source; whether the path is whole; and whether the directory output over it is, where there is one.
#[derive(Clone, Copy)]
pub(crate) struct Spot {
    pub(crate) job: Option<u32>,
    pub(crate) whole: bool,
    pub(crate) over: Option<bool>,
}

/// What is told in this place; false where nothing is.
pub(crate) fn flag_at(flags: &[bool], number: usize) -> bool
    ensures { result ≡ slice_index_or flags.now number false }
{
    match flags.get(number) {
        Some(flag) => *flag,
        None => false,
    }
}

/// The row of the job with this number; nothing where there is none.
pub(crate) fn row_at<T>(rows: &[List<T>], number: usize) -> &[T]
    ensures { result.now ≡ slice_index_or rows.now number [] }
{
    match rows.get(number) {
        Some(row) => row.as_slice(),
        None => &[],
    }
}

/// The state that the job with this number had when it began, if its child runs.
pub(crate) fn began_at(running: &[Option<State>], number: usize) -> Option<&State>
    ensures { option_map (λ state. state.now) result ≡ slice_index_or running.now number None }
{
    match running.get(number) {
        Some(begun) => begun.as_ref(),
        None => None,
    }
}

/// What makes the path of the link.
pub(crate) fn origin_at(origins: &[Origin], link: Option<usize>) -> Option<Origin>
    ensures { result ≡ origin_at origins.now link }
{
    match link {
        Some(link) => origins.get(link).copied(),
        None => None,
    }
}

/// The number of the job that makes the path of the link; none for a source.
pub(crate) fn maker_at(origins: &[Origin], link: Option<usize>) -> Option<u32>
    ensures { result ≡ maker_at origins.now link }
{
    match origin_at(origins, link) {
        Some(origin) => origin.job,
        None => None,
    }
}

// The flags of the outputs of the job with this number.
fn flags_of(outputs: &[List<bool>], number: Option<u32>) -> Option<&List<bool>>
    ensures { option_map (λ flags. flags.now) result ≡ option_and_then (slice_get outputs.now) number }
{
    match number {
        Some(number) => outputs.get(number as usize),
        None => None,
    }
}

// The flag in this place, of these.
fn flag_of(flags: Option<&List<bool>>, place: usize) -> Option<bool>
    ensures { result ≡ option_and_then (λ flags. slice_get flags place) (option_map (λ flags. flags.now) flags.entry) }
{
    match flags {
        Some(flags) => flags.as_slice().get(place).copied(),
        None => None,
    }
}

// Whether the directory over the path is whole.
fn over_flag(outputs: &[List<bool>], origin: Origin) -> Option<bool>
    ensures { result ≡ over_flag outputs.now origin }
{
    match origin.over {
        Some(place) => flag_of(flags_of(outputs, origin.job), place),
        None => None,
    }
}

fn spot_of(outputs: &[List<bool>], whole: bool, origin: Origin) -> Spot
    ensures { result ≡ spot_of outputs.now whole origin }
{
    Spot {
        job: origin.job,
        whole,
        over: over_flag(outputs, origin),
    }
}

/// What is known of the path of the link.
pub(crate) fn spot_at(origins: &[Origin], rows: &Rows<'_>, link: Option<usize>) -> Option<Spot>
    ensures { result ≡ spot_in origins.now rows.now link }
{
    let Some(link) = link else {
        return None;
    };
    match origins.get(link) {
        Some(origin) => Some(spot_of(rows.outputs, flag_at(rows.makers, link), *origin)),
        None => None,
    }
}
