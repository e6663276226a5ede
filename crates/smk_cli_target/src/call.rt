ghost use Rattle.std.specs.Prelude.{◌≡◌, [], map, string_bytes};
ghost use Rattle.smk_world.specs.Runs.{Did};
ghost use Rattle.smk_report.specs.Faults.{status_of};
ghost use Rattle.smk_cli_target.specs.Ends.{Put};
ghost use Rattle.smk_cli_target.specs.Clauses.{Leaves, HasLog, HasText, HasTold};

use crate::Outcome;
use smk_report::Fault;
use smk_world::{Crew, Sink};
use std::alloc::Global;
use std::thread::Threads;

/// A body that gives up meets the contract, so no clause asks for more than want of memory leaves.
#[allow(dead_code)]
fn smk<W: Crew, O: Sink, Rt: Threads + Sync>(
    _rt: &Rt,
    _alloc: Global,
    words: &[String],
    work: &mut W,
    out: &mut O,
    err: &mut O,
) -> Outcome
    requires none_runs { (W.device work.old).running ≡ [] }

    // the status is that of the fault
    ensures status { result.status ≡ status_of result.fault }

    // what is left of the device and of `out`
    ensures leaves { Leaves result (W.device work.old) (W.device work.new) (O.sunk out.old) (O.sunk out.new) }

    // what was done
    ensures log { Did W.act (W.device work.old).world (W.device work.new).world
        (HasLog W.act (map string_bytes words.now) result (W.device work.old) (W.device work.new) (O.sunk out.old) (O.sunk out.new)) }

    // what was put on `out`
    ensures text { Did W.act (W.device work.old).world (W.device work.new).world
        (λ entry log. Put (O.sunk out.old) (O.sunk out.new) (HasText W.act (map string_bytes words.now) result entry log)) }

    // the fault's line on `err`
    ensures line { HasTold result.fault (O.sunk err.old) (O.sunk err.new) }
{
    Outcome {
        status: 5,
        fault: Some(Fault::OutOfMemory),
    }
}
