//! The jobs whose children run.

ghost use Rattle.std.specs.Prelude.{◌≡◌, IfOk};

use smk_base::{OutOfMemory, Text};
use smk_plan_states::state_again;
use smk_trigger::State;

/// A job whose child runs, by its first output, with the state that it had when it began. What is meant by a plan is said of such.
#[derive(Drop)]
pub(crate) struct Child {
    pub(crate) name: Text,
    pub(crate) state: State,
}

/// A copy of the state, where there is one.
pub(crate) fn state_if_any(state: &Option<State>) -> Result<Option<State>, OutOfMemory>
    ensures { IfOk result (λ copy. copy ≡ state.now) }
{
    match state {
        None => Ok(None),
        Some(state) => {
            let copy = state_again(state)?;
            Ok(Some(copy))
        }
    }
}
