//! Flags of jobs with reasons of their own.

ghost use Rattle.std.specs.Prelude.{◌≡◌, map, IfOk};
ghost use Rattle.smk_plan_states.specs.Rows.{own_of};

use crate::rows::Own;
use smk_base::{List, OutOfMemory};
use smk_trigger::Reason;
use std::alloc::Global;

/// Whether there are reasons. It takes no memory.
pub fn own_of(reasons: &[Reason]) -> Own
    ensures { result ≡ own_of reasons.now }
{
    match reasons {
        [] => Own::No,
        [_, ..] => Own::Yes,
    }
}

/// For each job whether it has reasons of its own, where these are its own. `OutOfMemory` where there is no memory for the flags.
pub fn own_flags(alloc: Global, reasons: &[List<Reason>]) -> Result<Vec<Own>, OutOfMemory>
    ensures { IfOk result (λ flags. flags.items ≡ map own_of reasons.now) }
{
    let mut flags = Vec::with_capacity(alloc, reasons.len())?;
    for own in reasons {
        flags.push(own_of(own.as_slice()))?;
    }
    Ok(flags)
}
