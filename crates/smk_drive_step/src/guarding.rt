//! Outputs that are made read-only.

ghost use Rattle.std.specs.Prelude.{◌≡◌, ◌≢◌, IfErr};
ghost use Rattle.smk_world.specs.Devices.{HasActed};
ghost use Rattle.smk_keep.specs.Keeping.{keep_failed};
ghost use Rattle.smk_drive_step.specs.Telling.{HasGuarded};

use smk_base::{List, PathText};
use smk_keep::{KeepFault, protect_outputs};
use smk_world::Files;
use std::alloc::Global;

/// Makes these outputs of a job that is done read-only for good, where there are any.
///
/// `Device`: a call failed, and none came after it. `OutOfMemory`: there is no memory for the places; then no call was made.
pub fn guard_outputs<W: Files>(
    alloc: Global,
    work: &mut W,
    guards: &List<PathText>,
) -> Result<(), KeepFault>
    ensures acted { HasActed W.act (HasGuarded guards.now result) (W.device work.old) (W.device work.new) (keep_failed result) }
    ensures untouched { IfErr result (λ fault. fault ≢ KeepFault.Device → work.new ≡ work.old) }
{
    if guards.is_empty() {
        return Ok(());
    }
    protect_outputs(alloc, work, guards)
}
