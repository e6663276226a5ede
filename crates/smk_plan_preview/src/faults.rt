//! Faults of the parts as those of a preview.

ghost use Rattle.std.specs.Prelude.{◌≡◌, ◌⊎◌, false};
ghost use Rattle.smk_report.specs.declared.fault.Fault.TheVariants as fault;
ghost use Rattle.smk_plan_table.specs.Plans.{fault_in};
ghost use Rattle.smk_plan_preview.specs.Faults as spec;

use smk_base::Text;
use smk_chain::{ChainFault, SightFault};
use smk_flow::Workflow;
use smk_format::rule_name;
use smk_plan::{LookFault, PlanFault};
use smk_report::Fault;
use std::alloc::Global;

/// The fault of looking for sources.
pub fn of_sight(fault: SightFault) -> Fault
    ensures { result ≡ spec.of_sight fault }
{
    match fault {
        SightFault::TooManyPaths(count) => Fault::TooManyPaths { count },
        SightFault::Device => Fault::Device,
        SightFault::OutOfMemory => Fault::OutOfMemory,
    }
}

/// The fault of looking at outputs and sources.
pub fn of_look(fault: LookFault) -> Fault
    ensures { result ≡ spec.of_look fault }
{
    match fault {
        LookFault::Device => Fault::Device,
        LookFault::OutOfMemory => Fault::OutOfMemory,
    }
}

/// The fault of a derivation.
pub fn of_chain(fault: ChainFault) -> Fault
    ensures { result ≡ spec.of_chain fault }
{
    match fault {
        ChainFault::NoRule { path } => Fault::NoRule { path },
        ChainFault::NoInput { path, rule, wanted } => Fault::NoInput { path, rule, wanted },
        ChainFault::Ambiguous { path, a, b } => Fault::Ambiguous { path, a, b },
        ChainFault::Deep { path } => Fault::Deep { path },
        ChainFault::Clash { path, other } => Fault::Clash { path, other },
        ChainFault::MissingMember { path } => Fault::MissingMember { path },
        ChainFault::NoCommand { rule } => Fault::NoCommand { rule },
        ChainFault::OutOfMemory => Fault::OutOfMemory,
    }
}

/// The fault of a plan, which names the rule. `OutOfMemory` where there is no memory for its name.
pub fn of_plan(alloc: Global, flow: &Workflow, refusal: PlanFault) -> Fault
    ensures is { (result ≡ fault_in flow.now refusal) ⊎ (result ≡ fault.OutOfMemory) }
    ensures no_device { spec.is_device result ≡ false }
    ensures no_sink { spec.is_sink result ≡ false }
{
    match refusal {
        PlanFault::Incomplete { paths } => Fault::Incomplete { paths },
        PlanFault::Protected { path } => Fault::Protected { path },
        PlanFault::AboveLimit {
            rule,
            path,
            name,
            asked,
            bound,
        } => match Text::of(alloc, rule_name(flow, rule)) {
            Ok(rule) => Fault::AboveLimit {
                rule,
                path,
                name,
                asked,
                bound,
            },
            Err(_) => Fault::OutOfMemory,
        },
        PlanFault::OutOfMemory => Fault::OutOfMemory,
    }
}
