//! The call that does what the words ask, and what it gives.

ghost use Rattle.std.specs.Prelude.{◌≡◌, ◌⊎◌, ℕ, List as Items, Option, [], Some, map, string_bytes, true, false};
ghost use Rattle.smk_world.specs.Devices.{WhereTold};
ghost use Rattle.smk_record.specs.Spelling.{ReadsRecords};
ghost use Rattle.smk_record.specs.declared.record.Record.{Record as RecordValue};
ghost use Rattle.smk_report.specs.declared.fault.Fault.{Fault as FaultValue};
ghost use Rattle.smk_report.specs.Faults as report;
ghost use Rattle.smk_words_reading.specs.declared.asked.Asked.{Asked as Request};
ghost use Rattle.smk_words_reading.specs.declared.asked.RunWords.{RunWords};
ghost use Rattle.smk_words_reading.specs.Asks.{IsAsked};
ghost use Rattle.smk_cli_calls.specs.Ends.{EndsWith};
ghost use Rattle.smk_cli_calls.specs.Keys.{HasKept};
ghost use Rattle.smk_cli_calls.specs.Lines.{HasToldFault};
ghost use Rattle.smk_cli_calls.specs.Whole.{HasServed};
ghost use Rattle.smk_cli_calls.specs.Words as spec;
ghost use Rattle.smk_cli_calls.specs.Words.{RefusesWords};
ghost use Rattle.smk_cli_headline.specs.Gives.{KeepsCome, MakesCome, RunsGive};

use smk_cli::{Fault, Outcome};
use smk_world::{Crew, Sink};
use std::alloc::Global;
use std::thread::Threads;

/// Does what the words ask by a workflow of the working folder: makes targets, lists a plan, removes the lock, or forgets what is kept of paths. What is made or
/// listed is told to `out`, and the line of a fault goes to `err`.
///
/// The status is 0 where all is done, 1 where a job failed, 2 where the words are refused, 3 where the workflow, a target, the plan or a job is refused, or the
/// lock stands, 4 where the device failed, 5 where memory is wanting, 6 where `out` failed.
pub fn smk<W: Crew, O: Sink, Rt: Threads + Sync>(
    rt: &Rt,
    alloc: Global,
    words: &[String],
    work: &mut W,
    out: &mut O,
    err: &mut O,
) -> Outcome
    requires none_runs { (W.device work.old).running ≡ [] }

    ensures status { result.status ≡ report.status_of result.fault }

    // where the words are refused that is told, and nothing is done
    ensures unread { (f : FaultValue) → RefusesWords (map string_bytes words.now) f
        → ((result.fault ≡ Some f) ⊎ (result.fault ≡ Some Fault.OutOfMemory)) × (work.new ≡ work.old) × (out.new ≡ out.old) }

    // a run or a listing is served: it is refused, and nothing is done; or what its plan has to be run is run, under the lock, unless none is heeded; or the plan
    // is listed
    ensures serves { (request : Request) → IsAsked (map string_bytes words.now) request → spec.is_built request ≡ true → spec.is_to_make request ≡ true
        → WhereTold (W.device work.old) (λ w. (read : Items ℕ → Option RecordValue) → ReadsRecords read
        → HasServed W.act read request w result.fault (W.device work.old) (W.device work.new) (O.sunk out.old) (O.sunk out.new)) }

    // of what is kept the lock goes, and nothing else; or what is known of paths, of each in its turn
    ensures keeps { (request : Request) → IsAsked (map string_bytes words.now) request → spec.is_built request ≡ true → spec.is_to_make request ≡ false
        → WhereTold (W.device work.old) (λ w. HasKept W.act request w result.fault (W.device work.old) (W.device work.new) (O.sunk out.old) (O.sunk out.new)) }

    // a fault of the device or of the sink comes only from one of its own in this call; and unless a call of the device failed, no child runs at the end, and what
    // is told stays told
    ensures ended { EndsWith result.fault (W.device work.old) (W.device work.new) (O.sunk out.old) (O.sunk out.new) }

    // the fault's line
    ensures line { HasToldFault result.fault (O.sunk err.old) (O.sunk err.new) }

    // the headline, of a run, in each folder that came from one without anything of the program's by calls of it, by edits of sources and of the workflow, by
    // removals, and by crashes at any moment: what it calls current holds what a clean run from the sources makes of it; no job was started on an output of an
    // unfinished one; and where the words aren't refused and a clean run gives each target, all is well, or it is told why not
    ensures headline { (asked : RunWords) → IsAsked (map string_bytes words.now) (Request.Run asked)
        → RunsGive W.act asked result.fault (W.device work.old) (W.device work.new) (O.sunk out.old) (O.sunk out.new) }

    // after a run or a listing the folder is such a one again, and so is what a crash leaves after any event of it
    ensures comes { (request : Request) → IsAsked (map string_bytes words.now) request → spec.is_built request ≡ true → spec.is_to_make request ≡ true
        → MakesCome W.act (W.device work.old) (W.device work.new) }

    // and so it is of what is kept
    ensures keeps_coming { (request : Request) → IsAsked (map string_bytes words.now) request → spec.is_built request ≡ true → spec.is_to_make request ≡ false
        → KeepsCome W.act request (W.device work.old) (W.device work.new) }
{
    smk_cli::smk(rt, alloc, words, work, out, err)
}
