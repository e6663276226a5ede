//! Looks at the outputs of a job whose command succeeded.

ghost use Rattle.std.specs.Prelude.{◌≡◌, ◌<◌, length, Option, Some, None, false, true, IfOk, IfSome, map, is_err};
ghost use Rattle.std.specs.List.{list_any};
ghost use Rattle.smk_world.specs.Devices.{HasActed};
ghost use Rattle.smk_job.specs.Sights.{is_folder_out, wrong_of, HasSeenFiles, path_at};

use smk_base::{List, PathText, Place};
use smk_world::{Failed, Files, Kind, Out, Stat};

/// What is wrong with an output that is to be a file.
#[derive(Clone, Copy, PartialEq, Eq)]
pub(crate) enum Wrong {
    /// Nothing is there.
    Absent,
    /// A folder is there, which is to be a file; or a file, where it is to be a directory.
    OtherKind,
    /// A record can't tell what is in the directory.
    Unlisted,
}

/// Whether one of the outputs is to be a directory.
pub(crate) fn has_folder(outs: &[Out]) -> bool
    ensures { result ≡ list_any is_folder_out outs.now }
{
    for out in outs {
        if out.kind == Kind::Folder {
            return true;
        }
    }
    false
}

/// What is wrong with an output of this kind that is seen so.
pub(crate) fn wrong_of(kind: Kind, stat: Stat) -> Option<Wrong>
    ensures { result ≡ wrong_of kind stat }
{
    match (kind, stat) {
        (_, Stat::Nothing) => Some(Wrong::Absent),
        (Kind::Plain, Stat::File { .. }) | (Kind::Folder, Stat::Folder) => None,
        (Kind::Plain, Stat::Folder) | (Kind::Folder, Stat::File { .. }) => Some(Wrong::OtherKind),
    }
}

/// Looks at the outputs, all of which are to be files, up to the first with which something is wrong: its number, from 0, and what is
/// wrong.
pub(crate) fn look_over<W: Files>(
    work: &mut W,
    outs: &[Out],
    places: &[Place],
) -> Result<Option<(usize, Wrong)>, Failed>
    requires files { list_any is_folder_out outs.now ≡ false }
    requires at { places.now ≡ map (λ out. out.path) outs.now }
    ensures acted { HasActed W.act (HasSeenFiles outs.now result) (W.device work.old) (W.device work.new) (is_err result) }
    ensures within { IfOk result (λ found. IfSome found (λ wrong. wrong.0 < length outs.now)) }
{
    for (i, out) in outs.iter().enumerate() {
        let stat = work.stat(&places[i])?;
        match wrong_of(out.kind, stat) {
            Some(wrong) => return Ok(Some((i, wrong))),
            None => {}
        }
    }
    Ok(None)
}

/// The path of the output with this number, from 0.
pub(crate) fn path_of(outs: List<Out>, at: usize) -> PathText
    requires within { at < length outs }
    ensures { result ≡ path_at outs at }
{
    let mut left = outs;
    while left.len() > at + 1 {
        left.pop();
    }
    match left.pop() {
        Some(out) => out.path,
        None => unreachable!(),
    }
}
