//! How jobs stand that are given anew.

ghost use Rattle.std.specs.Prelude.{◌≡◌, length, replicate, IfOk};
ghost use Rattle.smk_core.specs.declared.phase.Phase.TheVariants.{Waiting as waiting};
ghost use Rattle.smk_core.specs.Replans.{AreNumbers, IsCarried};

use crate::phase::Phase;
use smk_base::OutOfMemory;
use std::alloc::Global;

/// So many jobs that haven't begun. `OutOfMemory` where there is no memory for them.
pub(crate) fn all_waiting(alloc: Global, count: usize) -> Result<Vec<Phase>, OutOfMemory>
    ensures { IfOk result (λ made. made.items ≡ replicate count waiting) }
{
    Ok(vec![in alloc; Phase::Waiting; count]?)
}

/// How so many jobs stand, of which those that were there have these numbers now: these stand as before, and the others haven't begun.
/// `OutOfMemory` where there is no memory for them.
pub(crate) fn carried(
    alloc: Global,
    phases: &[Phase],
    moved: &[u32],
    count: usize,
) -> Result<Vec<Phase>, OutOfMemory>
    requires as_many { length moved.now ≡ length phases.now }
    requires numbers { AreNumbers count moved.now }
    ensures { IfOk result (λ made. IsCarried moved.now count phases.now made.items) }
{
    let mut made = all_waiting(alloc, count)?;
    for (job, number) in moved.iter().enumerate() {
        made[*number as usize] = phases[job];
    }
    Ok(made)
}
