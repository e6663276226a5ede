//! The workflow of rules and clauses that pass all checks.

ghost use Rattle.std.specs.Prelude.{◌≡◌, ◌≢◌, IfOk, IfErr, OnOk};
ghost use Rattle.smk_flow.specs.declared.fault.FlowFault.{FlowFault};
ghost use Rattle.smk_flow.specs.Checks.{IsWorkflow, IsFault};

use crate::checks::check;
use smk_base::List;
use smk_flow::{Clause, FlowFault, RulePart, Workflow};
use std::alloc::Global;

/// The workflow of these rules and clauses, in order. Exactly where they make none, the fault is the first thing that is wrong with
/// them: rules in order, each by its name, its texts, its wildcards and its flags, and then the clauses. `OutOfMemory` where
/// there is no memory for it, which is also the answer where the rules are 2^32 or more.
pub fn build(
    alloc: Global,
    parts: List<RulePart>,
    orders: List<Clause>,
) -> Result<Workflow, FlowFault>
    ensures ok { IfOk result (λ flow. flow ≡ record { rules = parts; orders = orders }) }
    ensures is { OnOk result (IsWorkflow parts orders) }
    ensures fault { IfErr result (λ f. f ≢ FlowFault.OutOfMemory → IsFault parts orders f) }
{
    match check(alloc, parts.as_slice(), orders.as_slice()) {
        Err(fault) => Err(fault),
        Ok(patterns) => Ok(Workflow::checked(alloc, parts, patterns, orders)?),
    }
}
