//! The faults of the parts of a run.

ghost use Rattle.std.specs.Prelude.{◌≡◌, ◌⊎◌};
ghost use Rattle.smk_report.specs.declared.fault.Fault.TheVariants as fault;
ghost use Rattle.smk_drive_step.specs.Telling as spec;

use smk_format::too_long;
use smk_job::BeginFault;
use smk_keep::KeepFault;
use smk_report::Fault;
use smk_world::WorkFault;
use std::alloc::Global;

/// Why a job of this rule doesn't begin. `OutOfMemory` also where there is no memory for the rule's name.
pub fn begin_fault(alloc: Global, rule: &str, why: BeginFault) -> Fault
    ensures { (result ≡ spec.begin_fault rule.now why) ⊎ (result ≡ fault.OutOfMemory) }
{
    match why {
        BeginFault::TooLong(bytes) => too_long(alloc, rule, bytes),
        BeginFault::Device => Fault::Device,
        BeginFault::OutOfMemory => Fault::OutOfMemory,
    }
}

/// Why outputs aren't protected or removed.
pub fn keep_fault(why: KeepFault) -> Fault
    ensures { result ≡ spec.keep_fault why }
{
    match why {
        KeepFault::Device => Fault::Device,
        KeepFault::OutOfMemory => Fault::OutOfMemory,
    }
}

/// Why a job isn't closed, or the folder not looked at.
pub fn work_fault(why: WorkFault) -> Fault
    ensures { result ≡ spec.work_fault why }
{
    match why {
        WorkFault::Failed => Fault::Device,
        WorkFault::OutOfMemory => Fault::OutOfMemory,
    }
}
