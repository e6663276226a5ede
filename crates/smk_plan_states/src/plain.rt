//! Which lines are plain: they gather from nothing, and none of their inputs is a member of a directory.

ghost use Rattle.std.specs.Prelude.{◌≡◌, IfOk, map};
ghost use Rattle.std.specs.List.{list_any};
ghost use Rattle.smk_plan_states.specs.Rows.{has_any};
ghost use Rattle.smk_plan_states.specs.Stays.{is_member, is_plain};

use crate::lines::{Gathered, Input, Line, Origin};
use crate::spots::origin_at;
use smk_base::OutOfMemory;
use std::alloc::Global;

// Whether the path of the input is a member of a directory.
fn is_member(origins: &[Origin], input: &Input) -> bool
    ensures { result ≡ is_member origins.now input.now }
{
    match origin_at(origins, input.link) {
        None => false,
        Some(origin) => origin.over.is_some(),
    }
}

fn any_member(origins: &[Origin], inputs: &[Input]) -> bool
    ensures { result ≡ list_any (is_member origins.now) inputs.now }
{
    for input in inputs {
        if is_member(origins, input) {
            return true;
        }
    }
    false
}

fn gathers_any(gathers: &[Gathered]) -> bool
    ensures { result ≡ has_any gathers.now }
{
    match gathers {
        [] => false,
        [_, ..] => true,
    }
}

fn is_plain(origins: &[Origin], line: &Line) -> bool
    ensures { result ≡ is_plain origins.now line.now }
{
    !gathers_any(line.gathers.as_slice()) && !any_member(origins, line.inputs.as_slice())
}

/// For each line whether it is plain.
pub(crate) fn plain_lines(
    alloc: Global,
    lines: &[Line],
    origins: &[Origin],
) -> Result<Vec<bool>, OutOfMemory>
    ensures { IfOk result (λ flags. flags.items ≡ map (is_plain origins.now) lines.now) }
{
    let mut flags = Vec::with_capacity(alloc, lines.len())?;
    for line in lines {
        flags.push(is_plain(origins, line))?;
    }
    Ok(flags)
}
