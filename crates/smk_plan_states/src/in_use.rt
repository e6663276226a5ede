//! From which jobs the children of others read.

ghost use Rattle.std.specs.Prelude.{◌≡◌, ◌<◌, ◌||◌, ◌&&◌, ℕ, length, slice_index_or, false, IfOk};
ghost use Rattle.std.specs.List.{list_any};
ghost use Rattle.smk_plan_states.specs.Ranking.{is_made_by_other, is_read_by_child};

use crate::downward::{set_at, unset};
use crate::lines::{Input, Line, Origin};
use crate::spots::maker_at;
use smk_base::OutOfMemory;
use smk_trigger::State;
use std::alloc::Global;

// Sets the flag of the job that makes the input, where it is another one than the reader.
fn hold(used: &mut Vec<bool>, origins: &[Origin], input: &Input)
    ensures each { length used.new.items ≡ length used.old.items }
    ensures set { (n : ℕ) → n < length used.old.items
        → slice_index_or used.new.items n false ≡ (slice_index_or used.old.items n false || is_made_by_other origins.now n input.now) }
{
    if !input.other {
        return;
    }
    match maker_at(origins, input.link) {
        Some(number) => set_at(used, Some(number as usize)),
        None => (),
    }
}

// Sets the flags of the other jobs that make these inputs.
fn hold_inputs(used: &mut Vec<bool>, origins: &[Origin], inputs: &[Input])
    ensures each { length used.new.items ≡ length used.old.items }
    ensures set { (n : ℕ) → n < length used.old.items
        → slice_index_or used.new.items n false ≡ (slice_index_or used.old.items n false || list_any (is_made_by_other origins.now n) inputs.now) }
{
    for input in inputs {
        hold(used, origins, input);
    }
}

// Sets the flags of the other jobs that make what the job reads, where its child runs.
fn hold_line(used: &mut Vec<bool>, origins: &[Origin], line: &Line, runs: bool)
    ensures each { length used.new.items ≡ length used.old.items }
    ensures set { (n : ℕ) → n < length used.old.items
        → slice_index_or used.new.items n false ≡ (slice_index_or used.old.items n false || (runs && list_any (is_made_by_other origins.now n) line.now.inputs)) }
{
    if runs {
        hold_inputs(used, origins, line.inputs.as_slice());
    }
}

/// For each job whether the child of another one reads what it made. `running` has for each job whose child runs a state.
pub(crate) fn used_in(
    alloc: Global,
    lines: &[Line],
    origins: &[Origin],
    running: &[Option<State>],
) -> Result<Vec<bool>, OutOfMemory>
    ensures each { IfOk result (λ used. length used.items ≡ length lines.now) }
    ensures used { IfOk result (λ used. (n : ℕ) → n < length lines.now → slice_index_or used.items n false ≡ is_read_by_child lines.now origins.now running.now n) }
{
    let mut used = unset(alloc, lines.len())?;
    for (i, line) in lines.iter().enumerate() {
        let Some(begun) = running.get(i) else {
            return Ok(used);
        };
        hold_line(&mut used, origins, line, begun.is_some());
    }
    Ok(used)
}
