//! Judges, which tell why a job has to run.

ghost use Rattle.std.specs.Prelude.{◌≡◌, IfOk};
ghost use Rattle.smk_trigger.specs.Reasons.{reasons_of};

use crate::{JobFacts, Reason, reasons};
use smk_base::{List, OutOfMemory};
use std::alloc::Global;

/// Tells the reasons of jobs. Several threads may ask it at once.
pub trait Judge: Sync {
    /// The reasons of a job, but for the inputs whose jobs have to run. `OutOfMemory` where there is no memory for them.
    ///
    /// `kept` and `marked` of the facts are about the outputs of the recipe, `stamps` about its inputs, each in order.
    fn judge(&self, alloc: Global, facts: &JobFacts) -> Result<List<Reason>, OutOfMemory>
        ensures { IfOk result (λ found. found ≡ reasons_of facts.now) };
}

/// The judge that looks at the facts of one job.
#[derive(Clone, Copy)]
pub struct Plain;

impl Judge for Plain {
    fn judge(&self, alloc: Global, facts: &JobFacts) -> Result<List<Reason>, OutOfMemory> {
        reasons(alloc, facts)
    }
}
